//! The bytes of one atom with their fields.

ghost use Rattle.std.specs.Prelude.{◌≡◌, All, IsFalse, IsTrue, OnOk, OnErr, IfErr, length};
ghost use Rattle.patch.specs.Patched.{AreFields, ArePatched, Fits, IsFirstFault};

use crate::fault::least_fault;
use crate::field::{field_of, put_field};
use crate::met::{Met, RangeFault};

// Writes the fields of references, up to one whose value doesn't fit, and answers whether all are written.
#[tactic(auto, using(crate::proofs::WriteLemmas::writes))]
pub(crate) fn write_fields(bytes: &mut [u8], address: u64, mets: &[Met]) -> bool
    requires fields { AreFields address (length bytes.old) mets.now }
    ensures written { IsTrue result → ArePatched address mets.now bytes.old bytes.new }
    ensures stopped { IsFalse result → ¬ All (Fits address bytes.old) mets.now }
{
    for met in mets {
        match field_of(bytes, address, met) {
            Ok(field) => put_field(bytes, met, field),
            Err(_) => return false,
        }
    }
    true
}

/// Writes the fields of an atom's references into its bytes, which stand at an address, and leaves all other bytes.
///
/// Where values don't fit their fields, it answers the one at the least place, and nothing is written. It takes
/// no memory.
#[tactic(auto, using(crate::proofs::LeastLemmas::verdicts))]
pub fn patch_atom(bytes: &mut [u8], address: u64, mets: &[Met]) -> Result<(), RangeFault>
    requires fields { AreFields address (length bytes.old) mets.now }
    ensures patched { OnOk result (ArePatched address mets.now bytes.old bytes.new) }
    ensures fault { IfErr result (IsFirstFault address bytes.old mets.now) }
    ensures unwritten { OnErr result (bytes.new ≡ bytes.old) }
{
    if let Some(found) = least_fault(bytes, address, mets) {
        return Err(found.fault);
    }
    let _written = write_fields(bytes, address, mets);
    Ok(())
}
