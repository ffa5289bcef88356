// Frames for the viewer: the two calls that give a box, under the names that include/daybook.h declares. A box is six ends: least x, greatest x, least y, greatest y, least z, greatest z.
ghost use Rattle.std.specs.Prelude.{◌≡◌, cond, eqb};
ghost use Rattle.rules.specs.Broken.{broken_key, broken_place};
ghost use Rattle.rules.specs.Boxes.{box_number, box_given, whole_number, whole_given, some_box, box_after};

use crate::told::refused;

// The box of the entity (d, i): where accepted, its ends are written.
pub fn daybook_box(
    book: &[u32],
    coordinates: &[f64],
    axes: u32,
    d: u32,
    i: u32,
    ends: &mut [f64; 6],
    key: &mut u32,
    position: &mut usize,
) -> u32
    ensures number { result ≡ box_number book.now coordinates.now axes d i }
    ensures key { key.new ≡ cond (eqb result 11) (broken_key book.now) key.old }
    ensures position { position.new ≡ cond (eqb result 11) (broken_place book.now) position.old }
    ensures ends { ends.new ≡ box_after (box_given book.now coordinates.now axes d i) ends.old }
{
    match daybook::box_of(book, coordinates, axes, d, i) {
        Ok(bounds) => {
            *ends = bounds.into();
            0
        }
        Err(refusal) => refused(refusal, key, position),
    }
}

// The box of the whole mesh: where accepted, 1 is written and its ends, or 0 for no box.
pub fn daybook_whole_box(
    book: &[u32],
    coordinates: &[f64],
    axes: u32,
    ends: &mut [f64; 6],
    some: &mut u32,
    key: &mut u32,
    position: &mut usize,
) -> u32
    ensures number { result ≡ whole_number book.now coordinates.now axes }
    ensures key { key.new ≡ cond (eqb result 11) (broken_key book.now) key.old }
    ensures position { position.new ≡ cond (eqb result 11) (broken_place book.now) position.old }
    ensures some { some.new ≡ cond (eqb result 0) (cond (some_box (whole_given book.now coordinates.now axes)) 1 0) some.old }
    ensures ends { ends.new ≡ box_after (whole_given book.now coordinates.now axes) ends.old }
{
    match daybook::whole_box(book, coordinates, axes) {
        Ok(Some(bounds)) => {
            *ends = bounds.into();
            *some = 1;
            0
        }
        Ok(None) => {
            *some = 0;
            0
        }
        Err(refusal) => refused(refusal, key, position),
    }
}
