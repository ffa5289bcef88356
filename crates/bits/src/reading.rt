// A field that is read: the bytes that have a bit of it, each fetched once.
ghost use Rattle.std.specs.Prelude.{◌≡◌, ◌+◌, ◌/◌, ◌%◌, ◌^◌, ◌≤◌, ◌<◌};
ghost use Rattle.rules.specs.File.{field};
ghost use Rattle.bits.specs.Fetches.{Window, Read};

use crate::fetching::{Taken, byte_at};
use crate::weights::weight;

// The first `k` bytes from `at` on, and the one after them.
fn one_more(bytes: &[u8], at: usize, k: u32, so_far: Taken) -> Taken
    requires { (at < 2 ^ 61) × ((k < 5) × Window bytes.now at k so_far.value so_far.fetches) }
    ensures { Window bytes.now at (k + 1) result.value result.fetches }
{
    let next = byte_at(bytes, at + k as usize);
    let value = 256 * so_far.value + next.value;
    let fetches = so_far.fetches + next.fetches;
    Taken { value, fetches }
}

// The `width` bits that have `after` bits behind them.
fn part(taken: Taken, after: u32, width: u32) -> Taken
    requires { (after < 64) × (width ≤ 32) }
    ensures { (result.value ≡ taken.value / 2 ^ after % 2 ^ width) × (result.fetches ≡ taken.fetches) }
{
    let value = (taken.value >> after) % weight(width);
    let fetches = taken.fetches;
    Taken { value, fetches }
}

// A field close to the end, byte after byte.
fn take_last(bytes: &[u8], bit: usize, width: u32) -> Taken
    requires { (0 < width) × (width ≤ 32) }
    ensures { Read bytes.now bit width result.value result.fetches }
{
    let at = bit / 8;
    let end = (bit % 8) as u32 + width;
    let n = (end + 7) / 8;
    let mut taken = Taken {
        value: 0,
        fetches: 0,
    };
    for k in 0..n {
        taken = one_more(bytes, at, k, taken);
    }
    part(taken, 8 * n - end, width)
}

// A field by a straight line, two or three bytes where it has 13 bits. The compiler sees that none of the five places is past the end, so they cost one comparison together.
fn take_field(bytes: &[u8], bit: usize, width: u32) -> Taken
    requires { width ≤ 32 }
    ensures { Read bytes.now bit width result.value result.fetches }
{
    let none = Taken {
        value: 0,
        fetches: 0,
    };
    if width == 0 {
        return none;
    }
    let at = bit / 8;
    if bytes.len() < at + 5 {
        return take_last(bytes, bit, width);
    }
    let end = (bit % 8) as u32 + width;
    let one = one_more(bytes, at, 0, none);
    if end <= 8 {
        return part(one, 8 - end, width);
    }
    let two = one_more(bytes, at, 1, one);
    if end <= 16 {
        return part(two, 16 - end, width);
    }
    let three = one_more(bytes, at, 2, two);
    if end <= 24 {
        return part(three, 24 - end, width);
    }
    let four = one_more(bytes, at, 3, three);
    if end <= 32 {
        return part(four, 32 - end, width);
    }
    let five = one_more(bytes, at, 4, four);
    part(five, 40 - end, width)
}

// The field of `width` bits from `bit` on, as a number.
pub fn read_field(bytes: &[u8], bit: usize, width: u32) -> u32
    requires { width ≤ 32 }
    ensures { result ≡ field bytes.now bit width }
{
    take_field(bytes, bit, width).value as u32
}
