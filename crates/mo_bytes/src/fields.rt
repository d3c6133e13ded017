ghost use Rattle.std.specs.Prelude.{◌≡◌};
ghost use Rattle.mo_bytes.specs.Number.{number_at};

use byteorder::{ByteOrder, LittleEndian};

/// The 16-bit little-endian number whose lowest byte stands at `at`, or `None` exactly where the bytes
/// end before it does.
#[tactic(auto, unfolding(crate::specs::Number::number))]
pub fn read_u16(bytes: &[u8], at: usize) -> Option<u16>
    ensures { result ≡ number_at 2 bytes.now at }
{
    if at > bytes.len() || bytes.len() - at < 2 {
        return None;
    }
    Some(LittleEndian::read_u16(&bytes[at..]))
}

/// The 32-bit little-endian number whose lowest byte stands at `at`, or `None` exactly where the bytes
/// end before it does.
#[tactic(auto, unfolding(crate::specs::Number::number))]
pub fn read_u32(bytes: &[u8], at: usize) -> Option<u32>
    ensures { result ≡ number_at 4 bytes.now at }
{
    if at > bytes.len() || bytes.len() - at < 4 {
        return None;
    }
    Some(LittleEndian::read_u32(&bytes[at..]))
}

/// The 64-bit little-endian number whose lowest byte stands at `at`, or `None` exactly where the bytes
/// end before it does.
#[tactic(auto, unfolding(crate::specs::Number::number))]
pub fn read_u64(bytes: &[u8], at: usize) -> Option<u64>
    ensures { result ≡ number_at 8 bytes.now at }
{
    if at > bytes.len() || bytes.len() - at < 8 {
        return None;
    }
    Some(LittleEndian::read_u64(&bytes[at..]))
}
