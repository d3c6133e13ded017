//! The fault at the least place.

ghost use Rattle.std.specs.Prelude.{◌≡◌, ◌==◌, ◌+◌, ◌≤◌, ◌<◌, ◌^◌, length};
ghost use Rattle.mo_types.specs.Rows.{field_size};
ghost use Rattle.patch.specs.Field.{field_of};
ghost use Rattle.patch.specs.Patched.{AreFields};
ghost use Rattle.patch.specs.inner.Least.{IsLeast, earlier, fault_in};

use crate::field::field_of;
use crate::met::{Met, RangeFault};
use mo_types::RefKind;

/// A fault with the place of its field.
#[derive(Clone, Copy)]
pub struct PlacedFault {
    pub place: u64,
    pub fault: RangeFault,
}

// The fault at the lesser place, or the earlier one.
fn earlier(least: Option<PlacedFault>, found: PlacedFault) -> Option<PlacedFault>
    ensures { result ≡ earlier least found }
{
    match least {
        Some(other) if other.place <= found.place => Some(other),
        _ => Some(found),
    }
}

// Whether a field has 8 bytes, which hold every number modulo 2^64.
fn has_8_bytes(kind: RefKind) -> bool
    ensures { result ≡ (field_size kind == 8) }
{
    matches!(
        kind,
        RefKind::Pointer | RefKind::GotPointer | RefKind::Diff64
    )
}

// The value of a reference that doesn't fit its field.
#[tactic(auto, using(crate::proofs::LeastLemmas::asked))]
fn fault_of(bytes: &[u8], address: u64, met: &Met) -> Option<RangeFault>
    requires within { met.now.place + field_size met.now.kind ≤ length bytes.now }
    requires addresses { address + length bytes.now < 2 ^ 64 }
    ensures { result ≡ fault_in (field_of address bytes.now met.now) }
{
    if has_8_bytes(met.kind) {
        return None;
    }
    match field_of(bytes, address, met) {
        Ok(_) => None,
        Err(fault) => Some(fault),
    }
}

/// The fault of the reference at the least place, of those whose values don't fit their fields.
#[tactic(auto, using(crate::proofs::LeastLemmas::least))]
pub fn least_fault(bytes: &[u8], address: u64, mets: &[Met]) -> Option<PlacedFault>
    requires fields { AreFields address (length bytes.now) mets.now }
    ensures { IsLeast address bytes.now mets.now result }
{
    let mut least = None;
    for met in mets {
        if let Some(fault) = fault_of(bytes, address, met) {
            let found = PlacedFault {
                place: met.place,
                fault,
            };
            least = earlier(least, found);
        }
    }
    least
}
