//! Places of up to 128 bits, since atoms may have any size.
ghost use Rattle.std.specs.Prelude.{◌≡◌, ◌<◌, ◌≤◌, ◌^◌, ◌+◌, ◌-◌, min};
ghost use Rattle.sect_place.specs.inner.Room.{capped};
ghost use Rattle.tlv_plan.specs.Template.{aligned};

// The least multiple of 2^`align` from a place of fewer than 2^127 bytes on.
pub(crate) fn up(at: u128, align: u8) -> u128
    requires low { align ≤ 14 }
    requires near { at < 2 ^ 127 }
    ensures exact { result ≡ aligned align at }
    ensures enough { at ≤ result }
    ensures small { result < at + 0x4000 }
{
    let unit = unit_of(align);
    at + (unit - 1) >> align << align
}

// A number of 64 bits.
pub(crate) fn widened(number: u64) -> u128
    ensures exact { result ≡ number }
    ensures small { result < 2 ^ 64 }
{
    u128::from(number)
}

fn unit_of(align: u8) -> u128
    requires { align ≤ 14 }
    ensures exact { result ≡ 2 ^ align }
    ensures small { result ≤ 0x4000 }
{
    1u128 << align
}

// The number, or the largest of 64 bits.
pub(crate) fn cap(number: u128) -> u64
    ensures { result ≡ capped number }
{
    if number < 1 << 64 {
        number as u64
    } else {
        u64::MAX
    }
}

// The number, or the largest of 32 bits.
pub(crate) fn cap_count(number: usize) -> u32
    ensures { result ≡ min number (2 ^ 32 - 1) }
{
    if number < 1 << 32 {
        number as u32
    } else {
        u32::MAX
    }
}
