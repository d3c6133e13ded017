//! The slice for arm64 in a universal file (`mach-o/fat.h`).

ghost use Rattle.std.specs.Prelude.{◌≡◌, ◌+◌, ◌*◌, ◌≤◌, ◌<◌, length, IfSome, IfOk};
ghost use Rattle.mo_types.specs.Kind as kinds;
ghost use Rattle.mo_types.specs.declared.kind.Kind.TheVariants as kind;
ghost use Rattle.mo_ar.specs.Slice as slice;

use byteorder::{BigEndian, ByteOrder};
use mo_format::loader::{CPU_SUBTYPE_ARM64_ALL, CPU_TYPE_ARM64};
use mo_types::Rule;

/// Why a universal file gives no slice. A place is an offset in its bytes.
#[derive(Clone, Copy, Debug, PartialEq, Eq)]
pub enum SliceFault {
    /// A rule that the file breaks, `Slice` or `NoSlice`.
    Malformed { place: u64, rule: Rule },
}

// The bytes of `fat_header` and of `fat_arch`.
const HEADER_SIZE: usize = 8;

const ENTRY_SIZE: usize = 20;

#[tactic(auto, unfolding(crate::specs::Slice::big))]
fn big(bytes: &[u8], at: usize) -> u32
    requires { at + 4 ≤ length bytes.now }
    ensures { result ≡ slice.big bytes.now at }
{
    BigEndian::read_u32(&bytes[at..])
}

fn is_arm64(bytes: &[u8], at: usize) -> bool
    requires { at + 20 ≤ length bytes.now }
    ensures { result ≡ slice.is_arm64 bytes.now at }
{
    big(bytes, at) == CPU_TYPE_ARM64 && big(bytes, at + 4) == CPU_SUBTYPE_ARM64_ALL
}

#[tactic(auto, using(crate::proofs::SliceLemmas::searches))]
fn first_arm64(bytes: &[u8], count: usize) -> Option<usize>
    requires { slice.entry count ≤ length bytes.now }
    ensures first { result ≡ slice.first_arm64 bytes.now 8 count }
    ensures within { IfSome result (λ at. at + 20 ≤ length bytes.now) }
{
    for i in 0..count {
        if is_arm64(bytes, HEADER_SIZE + ENTRY_SIZE * i) {
            return Some(HEADER_SIZE + ENTRY_SIZE * i);
        }
    }
    None
}

/// Where the slice for arm64 begins in a universal file, and its size, both in bytes; or the first of these
/// that stands: rule `Slice` at 0 where the file ends before its header does, and at the first entry that
/// isn't whole; rule `NoSlice` at 0 where no entry is for arm64; rule `Slice` at the entry whose slice isn't
/// within the file.
#[tactic(auto, using(crate::proofs::SliceLemmas::slices), unfolding(crate::specs::Slice::slice_of))]
pub fn slice_of(bytes: &[u8]) -> Result<(usize, usize), SliceFault>
    requires { kinds.kind_of bytes.now ≡ kind.Universal }
    ensures exact { result ≡ slice.slice_of bytes.now }
{
    let fault = |place: usize, rule: Rule| SliceFault::Malformed {
        place: place as u64,
        rule,
    };
    if bytes.len() < HEADER_SIZE {
        return Err(fault(0, Rule::Slice));
    }
    let count = big(bytes, 4) as usize;
    let whole = (bytes.len() - HEADER_SIZE) / ENTRY_SIZE;
    if whole < count {
        return Err(fault(HEADER_SIZE + ENTRY_SIZE * whole, Rule::Slice));
    }
    let Some(at) = first_arm64(bytes, count) else {
        return Err(fault(0, Rule::NoSlice));
    };
    let offset = big(bytes, at + 8) as usize;
    let size = big(bytes, at + 12) as usize;
    if bytes.len() < offset + size {
        return Err(fault(at, Rule::Slice));
    }
    Ok((offset, size))
}
