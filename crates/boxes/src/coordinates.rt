// Lent coordinates: whether they are all finite, and the point of a vertex.
ghost use Rattle.std.specs.Prelude.{◌≡◌, ◌≤◌};
ghost use Rattle.std.specs.Float.Ieee.Scale.{finite as is_finite};
ghost use Rattle.rules.specs.Lists.{all_of};
ghost use Rattle.rules.specs.Boxes as rule;
ghost use Rattle.boxes.specs.Growing.{point_of};

use crate::shapes::Point;

// Whether a coordinate is neither infinite nor not a number: only such a one less itself is 0.0.
fn finite(x: f64) -> bool
    ensures { result ≡ is_finite x }
{
    x - x == 0.0
}

// Whether every coordinate is finite.
pub fn all_finite(coordinates: &[f64]) -> bool
    ensures { result ≡ all_of is_finite coordinates.now }
{
    coordinates.iter().all(|x| finite(*x))
}

// Coordinate k of vertex v: 0.0 past the axes, and past the list.
fn coordinate(coordinates: &[f64], axes: usize, k: usize, v: u32) -> f64
    requires axes { axes ≤ 3 }
    requires below { k ≤ 2 }
    ensures { result ≡ rule.coordinate axes coordinates.now k v }
{
    if axes <= k {
        return 0.0;
    }
    let at = axes * v as usize + k;
    if at < coordinates.len() {
        coordinates[at]
    } else {
        0.0
    }
}

// The point of vertex v.
pub fn point(coordinates: &[f64], axes: usize, v: u32) -> Point
    requires { axes ≤ 3 }
    ensures { result ≡ point_of axes coordinates.now v }
{
    let x = coordinate(coordinates, axes, 0, v);
    let y = coordinate(coordinates, axes, 1, v);
    let z = coordinate(coordinates, axes, 2, v);
    Point { x, y, z }
}
