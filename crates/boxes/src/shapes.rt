// A vertex's point, and an upright box.
ghost use Rattle.std.specs.Prelude.{◌≡◌};

// The coordinates of a vertex; with two axes the third is 0.0.
#[derive(Clone, Copy)]
pub struct Point {
    pub x: f64,
    pub y: f64,
    pub z: f64,
}

// An upright box by its ends, the least and the greatest of each coordinate.
#[derive(Clone, Copy)]
pub struct Bounds {
    pub least_x: f64,
    pub greatest_x: f64,
    pub least_y: f64,
    pub greatest_y: f64,
    pub least_z: f64,
    pub greatest_z: f64,
}

// By its ends: least x, greatest x, least y, greatest y, least z, greatest z.
impl From<Bounds> for [f64; 6] {
    ghost use Rattle.boxes.specs.Growing.{ends_of};

    ghost from_gives = { λ b ends. ends ≡ ends_of b };

    fn from(bounds: Bounds) -> [f64; 6] {
        [
            bounds.least_x,
            bounds.greatest_x,
            bounds.least_y,
            bounds.greatest_y,
            bounds.least_z,
            bounds.greatest_z,
        ]
    }
}
