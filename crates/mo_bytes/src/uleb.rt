ghost use Rattle.std.specs.Prelude.{ℕ, ◌≡◌, ◌+◌, ◌<◌, ◌≤◌, ◌^◌, List, ◌++◌, length, take, IfSome, IfNone, OnOk, OnErr, slice_range, vec_len};
ghost use Rattle.mo_bytes.specs.Uleb.{IsUleb, short_uleb, uleb_at, uleb};

use std::alloc::AllocError;

/// The most bytes that a number below 2^64 takes where no byte is spent in vain.
const MOST_BYTES: usize = 10;

fn number_in_front(bytes: &[u8]) -> Option<(u64, usize)>
    ensures { result ≡ short_uleb bytes.now }
{
    let mut value = 0u64;
    for (count, byte) in bytes.iter().enumerate() {
        if count >= MOST_BYTES - 1 && *byte > 1 {
            return None;
        }
        value += u64::from(*byte & 0x7f) << (7 * count);
        if *byte < 0x80 {
            return Some((value, count + 1));
        }
    }
    None
}

/// The uleb128 number at `at` and the place after it, or `None` exactly where no whole uleb128 of at most
/// ten bytes and below 2^64 stands there (DWARF 5, section 7.6).
pub fn uleb_read(bytes: &[u8], at: usize) -> Option<(u64, usize)>
    ensures exact { result ≡ uleb_at bytes.now at }
    ensures spelled { IfSome result (λ found. IsUleb (slice_range bytes.now at found.1) found.0) }
    ensures within { IfSome result (λ found. (at < found.1) × (found.1 ≤ at + 10) × (found.1 ≤ length bytes.now)) }
    ensures none { IfNone result ((n next : ℕ) → n < 2 ^ 64 → next ≤ at + 10 → IsUleb (slice_range bytes.now at next) n → ⊥) }
{
    if at > bytes.len() {
        return None;
    }
    let (value, count) = number_in_front(&bytes[at..])?;
    Some((value, at + count))
}

/// The bytes of the shortest uleb128 spelling of a number.
pub fn uleb_len(value: u64) -> usize
    ensures exact { result ≡ length (uleb value) }
    ensures least { (bytes : List ℕ) → IsUleb bytes value → result ≤ length bytes }
    ensures most { result ≤ 10 }
{
    let mut rest = value;
    let mut count = 1;
    while rest >= 0x80 {
        rest >>= 7;
        count += 1;
    }
    count
}

// Writes the shortest spelling to the front, and answers how many bytes it has.
fn spell(bytes: &mut [u8; MOST_BYTES], value: u64) -> usize
    ensures few { result ≤ 10 }
    ensures front { take result bytes.new ≡ uleb value }
{
    let mut rest = value;
    let mut count = 0;
    while rest >= 0x80 {
        bytes[count] = (rest & 0x7f) as u8 | 0x80;
        rest >>= 7;
        count += 1;
    }
    bytes[count] = rest as u8;
    count + 1
}

/// Appends the shortest uleb128 spelling of a number, or leaves `out` as it was.
pub fn uleb_put(out: &mut Vec<u8>, value: u64) -> Result<(), AllocError>
    ensures ok { OnOk result (out.new.items ≡ out.old.items ++ uleb value) }
    ensures spelled { IsUleb (uleb value) value }
    // No other spelling is as short.
    ensures only { (bytes : List ℕ) → IsUleb bytes value → length bytes ≤ length (uleb value) → bytes ≡ uleb value }
    // It is read back, whatever follows.
    ensures read_back { OnOk result ((rest : List ℕ) → uleb_at (out.new.items ++ rest) (vec_len out.old) ≡ Some (value, vec_len out.new)) }
    ensures err { OnErr result (out.new.items ≡ out.old.items) }
{
    let mut bytes = [0; MOST_BYTES];
    let count = spell(&mut bytes, value);
    out.extend_from_slice(&bytes[..count])
}
