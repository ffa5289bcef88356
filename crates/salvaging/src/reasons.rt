// Why a cell is dropped.
ghost use Rattle.std.specs.Prelude.{◌≡◌};
ghost use Rattle.salvaging.specs.Reasons.{reason_number};

// A cell that is dropped is not whole in the file, has a vertex out of range, has one twice, or equals a cell that is kept.
#[derive(Clone, Copy)]
pub enum Reason {
    CutOff,
    VertexOut,
    VertexTwice,
    CellTwice,
}

// By the number that stands beside the cell in the list: 6, 7, 8, and else 23.
impl From<u32> for Reason {
    ghost use Rattle.salvaging.specs.Reasons.{reason_of};

    ghost from_gives = { λ n r. r ≡ reason_of n };

    fn from(number: u32) -> Reason {
        match number {
            6 => Reason::CutOff,
            7 => Reason::VertexOut,
            8 => Reason::VertexTwice,
            _ => Reason::CellTwice,
        }
    }
}

impl Reason {
    // The number that says so beside the cell in the list.
    pub fn number(self) -> u32
        ensures { result ≡ reason_number self }
    {
        match self {
            Reason::CutOff => 6,
            Reason::VertexOut => 7,
            Reason::VertexTwice => 8,
            Reason::CellTwice => 23,
        }
    }
}
