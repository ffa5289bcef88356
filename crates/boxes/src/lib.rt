// Upright boxes of vertices, from lent coordinates: begun as the first vertex, grown in place by the others, an end replaced only by a strictly smaller or greater value.
#![tactic(auto)]

mod coordinates;
mod shapes;

ghost use Rattle.std.specs.Prelude.{◌≡◌, ◌<◌, ◌≤◌, length};
ghost use Rattle.std.specs.Float.Ieee.{lt};
ghost use Rattle.rules.specs.Boxes.{greater, replaced, box_over};
ghost use Rattle.boxes.specs.Growing.{begins_as, grown_by, ends_of};

pub use coordinates::{all_finite, point};
pub use shapes::{Bounds, Point};

// A least end after one value more: that value only where it is strictly smaller.
fn lower(end: f64, x: f64) -> f64
    ensures { result ≡ replaced lt end x }
{
    if x < end { x } else { end }
}

// A greatest end after one value more: that value only where it is strictly greater.
fn upper(end: f64, x: f64) -> f64
    ensures { result ≡ replaced greater end x }
{
    if end < x { x } else { end }
}

// The box of one point.
pub fn begun(point: Point) -> Bounds
    ensures { result ≡ begins_as point }
{
    Bounds {
        least_x: point.x,
        greatest_x: point.x,
        least_y: point.y,
        greatest_y: point.y,
        least_z: point.z,
        greatest_z: point.z,
    }
}

// The box after one point more.
pub fn grown(bounds: Bounds, point: Point) -> Bounds
    ensures { result ≡ grown_by bounds point }
{
    let least_x = lower(bounds.least_x, point.x);
    let greatest_x = upper(bounds.greatest_x, point.x);
    let least_y = lower(bounds.least_y, point.y);
    let greatest_y = upper(bounds.greatest_y, point.y);
    let least_z = lower(bounds.least_z, point.z);
    let greatest_z = upper(bounds.greatest_z, point.z);
    Bounds {
        least_x,
        greatest_x,
        least_y,
        greatest_y,
        least_z,
        greatest_z,
    }
}

// Grows a box in place by one point.
pub fn grow(bounds: &mut Bounds, point: Point)
    ensures { bounds.new ≡ grown_by bounds.old point }
{
    *bounds = grown(*bounds, point);
}

// The box of vertices: begun as the first, and grown in place by the others in their order.
pub fn box_over(vertices: &[u32], coordinates: &[f64], axes: usize) -> Bounds
    requires { (axes ≤ 3) × (0 < length vertices.now) }
    ensures { ends_of result ≡ box_over axes coordinates.now vertices.now }
{
    let mut bounds = begun(point(coordinates, axes, vertices[0]));
    for v in &vertices[1..] {
        grow(&mut bounds, point(coordinates, axes, *v));
    }
    bounds
}
