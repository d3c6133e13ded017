//! Numbers in fields that may be narrower, and names in fields of 16 bytes.

ghost use Rattle.std.specs.Prelude.{◌≡◌, ◌+◌, ◌<◌, ◌^◌, length};
ghost use Rattle.mo_bytes.specs.Rounding.{least_multiple};
ghost use Rattle.load_cmds.specs.Names as names;

/// A number modulo 2^32.
pub fn u32_of(number: u64) -> u32
    ensures { result ≡ names.u32_of number }
{
    (number % (1 << 32)) as u32
}

/// A number modulo 2^64.
pub fn u64_of(number: u128) -> u64
    ensures { result ≡ names.u64_of number }
{
    (number % (1 << 64)) as u64
}

/// The least multiple of 0x4000 that isn't below a number.
#[tactic(auto, unfolding(mo_bytes::specs::Rounding::least_multiple))]
pub fn whole_pages(number: u128) -> u128
    requires { number < 2 ^ 100 }
    ensures { result ≡ least_multiple 0x4000 number }
{
    (number + 0x3fff) / 0x4000 * 0x4000
}

/// The first 16 bytes of a name, with zeros after a shorter one.
#[tactic(auto, unfolding(crate::specs::Names::name_field))]
pub fn name_field(name: &[u8]) -> [u8; 16]
    ensures { result ≡ names.name_field name.now }
{
    let mut field = [0u8; 16];
    let length = name.len().min(16);
    field[..length].copy_from_slice(&name[..length]);
    field
}
