// Powers of two.
ghost use Rattle.std.specs.Prelude.{◌≡◌, ◌^◌, ◌≤◌};

// The weight of bit `k` of a number, from the least significant; one more than `k` bits can hold.
pub fn weight(k: u32) -> u64
    requires { k ≤ 32 }
    ensures { result ≡ 2 ^ k }
{
    1 << k
}
