// A field that is written: each byte that has a bit of it is read and written once.
ghost use Rattle.std.specs.Prelude.{◌≡◌, ◌+◌, ◌*◌, ◌^◌, ◌≤◌, ◌<◌};
ghost use Rattle.rules.specs.File.{with_field};
ghost use Rattle.bits.specs.Patches.{patched};

use crate::fetching::byte_at;
use crate::weights::weight;

// The byte `old` with its `n` bits from weight 2^k up replaced by the low `n` bits of `x`.
fn patch(old: u64, k: u32, n: u32, x: u32) -> u64
    requires { (old < 2 ^ 8) × (k + n ≤ 8) }
    ensures { result ≡ patched old k n x }
{
    let w = weight(k);
    let m = weight(n);
    old - old / w % m * w + x as u64 % m * w
}

// Sets the `n` bits of byte `at` that come after its first `from` to the low `n` bits of `x`; a byte past the end is dropped. No other function writes a byte.
fn put_bits(bytes: &mut [u8], at: usize, from: u32, n: u32, x: u32)
    requires { from + n ≤ 8 }
    ensures { bytes.new ≡ with_field bytes.old (8 * at + from) n x }
{
    if at < bytes.len() {
        let old = byte_at(bytes, at).value;
        bytes[at] = patch(old, 8 - from - n, n, x) as u8;
    }
}

// Writes the low `width` bits of `value` from the start of byte `start` on, byte after byte.
fn write_bytes(bytes: &mut [u8], start: usize, width: u32, value: u32)
    requires { (start < 2 ^ 62) × ((0 < width) × (width ≤ 32)) }
    ensures { bytes.new ≡ with_field bytes.old (8 * start) width value }
{
    let mut at = start;
    let mut left = width;
    // No `for`: it would work out the byte and the shift of each turn from the turn's number, `start + k` and `width - 8 * (k + 1)`, where both step here.
    while left > 8 {
        left -= 8;
        put_bits(bytes, at, 0, 8, value >> left);
        at += 1;
    }
    put_bits(bytes, at, 0, left, value);
}

// Writes the low `width` bits of `value` from `bit` on; every other bit stays, and bits past the end are dropped.
pub fn write_field(bytes: &mut [u8], bit: usize, width: u32, value: u32)
    requires { width ≤ 32 }
    ensures { bytes.new ≡ with_field bytes.old bit width value }
{
    if width == 0 {
        return;
    }
    let at = bit / 8;
    let from = (bit % 8) as u32;
    let end = from + width;
    if end <= 8 {
        put_bits(bytes, at, from, width, value);
        return;
    }
    let left = end - 8;
    put_bits(bytes, at, from, 8 - from, value >> left);
    write_bytes(bytes, at + 1, left, value);
}
