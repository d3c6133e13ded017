ghost use Rattle.std.specs.Prelude.{◌≡◌, ◌<◌, ◌^◌, ◌≤◌, ◌+◌, IfSome, IsSome};
ghost use Rattle.mo_bytes.specs.Rounding.{least_multiple, least_multiple_below, IsLeastMultiple};

fn power_of_two(exponent: u8) -> u64
    requires { exponent < 64 }
    ensures { result ≡ 2 ^ exponent }
{
    1u64 << exponent
}

/// The least multiple of 2^`exponent` that isn't below `value`, or `None` exactly where it is 2^64 or
/// more.
pub fn round_up(value: u64, exponent: u8) -> Option<u64>
    requires { exponent < 64 }
    ensures exact { result ≡ least_multiple_below (2 ^ 64) (2 ^ exponent) value }
    ensures least { IfSome result (IsLeastMultiple (2 ^ exponent) value) }
    ensures near { IfSome result (λ multiple. multiple < value + 2 ^ exponent) }
    ensures fits { value + 2 ^ exponent ≤ 2 ^ 64 → IsSome result }
{
    let unit = power_of_two(exponent);
    let past = value % unit;
    if past == 0 {
        return Some(value);
    }
    value.checked_add(unit - past)
}
