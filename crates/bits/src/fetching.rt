// The fetching of bytes, counted.
ghost use Rattle.std.specs.Prelude.{◌≡◌, length, get_or};
ghost use Rattle.bits.specs.Fetches.{there};

// Bits as a number, and how many bytes were fetched for them.
#[derive(Clone, Copy)]
pub struct Taken {
    pub value: u64,
    pub fetches: u32,
}

// The byte at a place, by one fetch, or 0 past the end, by none. No other function fetches a byte.
pub fn byte_at(bytes: &[u8], at: usize) -> Taken
    ensures value { result.value ≡ get_or bytes.now at 0 }
    ensures fetches { result.fetches ≡ there (length bytes.now) at 1 }
{
    if at >= bytes.len() {
        return Taken {
            value: 0,
            fetches: 0,
        };
    }
    let byte = bytes[at] as u64;
    Taken {
        value: byte,
        fetches: 1,
    }
}
