// The refusals: what a call answers where it does not do what it was asked, each with what it tells.
ghost use Rattle.std.specs.Prelude.{◌≡◌};
ghost use Rattle.kinds.specs.declared.refusals.Refusal.TheVariants as refusal;
ghost use Rattle.kinds.specs.Refusals.{refusal_number, answer_number};

use crate::{Cell, Vertex};

// Where a book breaks the row rule: the key of a relation and a position in it, offsets counted before indices; with key 16 a free word's distance from the used length.
#[derive(Clone, Copy)]
pub struct Broken {
    pub key: u32,
    pub position: usize,
}

// Why a book is not a sheet: D is not 2; the lowest vertex in no cell; the lowest edge that has not one or two cells; the lowest cell whose row is not three edges that list it.
#[derive(Clone, Copy)]
pub enum NotSheet {
    Dimension,
    Vertex(u32),
    Edge(u32),
    Cell(u32),
}

// A refusal. With 7 and 8 comes the lowest cell that has the fault, with 23 the lowest that repeats an earlier one, with 11 where the book is broken, with 28 why it is not a sheet.
#[derive(Clone, Copy)]
pub enum Refusal {
    FileTooShort,
    NoDimension,
    ManyVertices,
    ManyCells,
    SpareBits,
    FileLength,
    VertexOut(Cell),
    VertexTwice(Cell),
    BitsAfter,
    FrameBroken,
    RowsBroken(Broken),
    DimensionOver,
    NoRoom,
    AlreadyHeld,
    NeedMissing,
    NotHeld,
    NoSuchEntity,
    BufferTooShort,
    NoSuchIndex,
    PairsOff,
    ListLength,
    CountOutside,
    CellTwice(Cell),
    CellsKept,
    NumberDiffers,
    AxisCount,
    NotFinite,
    NotSheet(NotSheet),
    LongRim,
}

impl From<NotSheet> for Refusal {
    ghost from_gives = { λ w r. r ≡ refusal.NotSheet w };

    fn from(why: NotSheet) -> Refusal {
        Refusal::NotSheet(why)
    }
}

impl Refusal {
    // The number that the paper gives it.
    pub fn number(self) -> u32
        ensures { result ≡ refusal_number self }
    {
        match self {
            Refusal::FileTooShort => 1,
            Refusal::NoDimension => 2,
            Refusal::ManyVertices => 3,
            Refusal::ManyCells => 4,
            Refusal::SpareBits => 5,
            Refusal::FileLength => 6,
            Refusal::VertexOut(_) => 7,
            Refusal::VertexTwice(_) => 8,
            Refusal::BitsAfter => 9,
            Refusal::FrameBroken => 10,
            Refusal::RowsBroken(_) => 11,
            Refusal::DimensionOver => 12,
            Refusal::NoRoom => 13,
            Refusal::AlreadyHeld => 14,
            Refusal::NeedMissing => 15,
            Refusal::NotHeld => 16,
            Refusal::NoSuchEntity => 17,
            Refusal::BufferTooShort => 18,
            Refusal::NoSuchIndex => 19,
            Refusal::PairsOff => 20,
            Refusal::ListLength => 21,
            Refusal::CountOutside => 22,
            Refusal::CellTwice(_) => 23,
            Refusal::CellsKept => 24,
            Refusal::NumberDiffers => 25,
            Refusal::AxisCount => 26,
            Refusal::NotFinite => 27,
            Refusal::NotSheet(_) => 28,
            Refusal::LongRim => 29,
        }
    }
}

// The number of an answer, 0 where accepted.
pub fn number_of<T>(answer: &Result<T, Refusal>) -> u32
    ensures { result ≡ answer_number answer.now }
{
    match answer {
        Ok(_) => 0,
        Err(refusal) => refusal.number(),
    }
}
