// Frames for the viewer: the calls. The upright box of an entity, and of the whole mesh, from the coordinates of the vertices.
#![tactic(auto)]

ghost use Rattle.std.specs.Prelude.{◌≡◌, not, ◌&&◌, [], ◌≤◌, ltb};
ghost use Rattle.std.proofs.Math.Option.{none};
ghost use Rattle.rules.specs.Book.{key, held};
ghost use Rattle.rules.specs.Broken.{broken_at, told};
ghost use Rattle.rules.specs.Calls.{first_broken};
ghost use Rattle.rules.specs.Boxes.{coordinate_rules, entity_box, whole_box, box_number, box_given, whole_number, whole_given};
ghost use Rattle.boxes.specs.Growing.{ends_of};
ghost use Rattle.kinds.specs.Refusals.{answer_number, answer_place, given};
ghost use Rattle.boxing.specs.Answers.{some_ends};
ghost use Rattle.boxing.specs.Ready.{EntityReady};

use boxes::Bounds;
use kinds::Refusal;
use right::RightBook;

// Whether these coordinates may be lent. Refusals: 26, 21, 27.
fn lent(book: &[u32], coordinates: &[f64], axes: u32) -> Result<(), Refusal>
    ensures number { answer_number result ≡ first_broken (coordinate_rules book.now coordinates.now axes) 0 }
    ensures place { answer_place result ≡ none }
{
    if axes < 2 {
        return Err(Refusal::AxisCount);
    }
    if axes > 3 {
        return Err(Refusal::AxisCount);
    }
    let sized = coordinates.len() == axes as usize * book::count(book, 0) as usize;
    let finite = boxes::all_finite(coordinates);
    if !sized {
        return Err(Refusal::ListLength);
    }
    if !finite {
        return Err(Refusal::NotFinite);
    }
    Ok(())
}

// Whether d→0 is needed and not held.
fn need_missing(book: &[u32], d: u32) -> bool
    requires { d ≤ 3 }
    ensures { result ≡ (ltb 0 d && not (held book.now (key d 0))) }
{
    if d == 0 {
        return false;
    }
    !book::held(book, book::key(d, 0))
}

// The box of the entity (d, i) of a right book.
fn entity_box(book: &[u32], coordinates: &[f64], axes: u32, d: u32, i: u32) -> Bounds
    requires { EntityReady book.now axes d i }
    ensures { ends_of result ≡ entity_box book.now coordinates.now axes d i }
{
    if d == 0 {
        return boxes::begun(boxes::point(coordinates, axes as usize, i));
    }
    boxes::box_over(
        rows::row(book, book::key(d, 0), i),
        coordinates,
        axes as usize,
    )
}

// The box of the entity (d, i). Refusals: 10, 11, 12, 15 if d→0 is not held for d > 0, 17, 26, 21, 27.
pub fn box_of(
    book: &[u32],
    coordinates: &[f64],
    axes: u32,
    d: u32,
    i: u32,
) -> Result<Bounds, Refusal>
    ensures number { answer_number result ≡ box_number book.now coordinates.now axes d i }
    ensures place { answer_place result ≡ told (box_number book.now coordinates.now axes d i) (broken_at book.now) }
    ensures ends { given [] ends_of result ≡ box_given book.now coordinates.now axes d i }
{
    let right = RightBook::check(book)?;
    if d > right.dim() {
        return Err(Refusal::DimensionOver);
    }
    if need_missing(book, d) {
        return Err(Refusal::NeedMissing);
    }
    if i >= book::count(book, d) {
        return Err(Refusal::NoSuchEntity);
    }
    lent(book, coordinates, axes)?;
    Ok(entity_box(book, coordinates, axes, d, i))
}

// The box of the whole mesh, over the vertices in some cell, if there is one.
fn mesh_box(book: &RightBook<'_>, coordinates: &[f64], axes: u32) -> Option<Bounds>
    requires { axes ≤ 3 }
    ensures { some_ends result ≡ whole_box book.now coordinates.now axes }
{
    let mut used = [0u32; 8192];
    let n = cells::list_used(book.words(), &mut used);
    if n == 0 {
        return None;
    }
    Some(boxes::box_over(&used[..n], coordinates, axes as usize))
}

// The box of the whole mesh, over the vertices in some cell; no box where there are none. Refusals: 10, 11, 26, 21, 27.
pub fn whole_box(book: &[u32], coordinates: &[f64], axes: u32) -> Result<Option<Bounds>, Refusal>
    ensures number { answer_number result ≡ whole_number book.now coordinates.now axes }
    ensures place { answer_place result ≡ told (whole_number book.now coordinates.now axes) (broken_at book.now) }
    ensures ends { given [] some_ends result ≡ whole_given book.now coordinates.now axes }
{
    let whole = RightBook::check(book)?;
    lent(book, coordinates, axes)?;
    Ok(mesh_box(&whole, coordinates, axes))
}
