//! Fields that lie apart.

ghost use Rattle.std.specs.Prelude.{◌≡◌, ◌+◌, ◌≤◌, ◌↔◌, All, IsTrue};
ghost use Rattle.std.specs.List.{AllPairs};
ghost use Rattle.mo_types.specs.Rows.{field_size};
ghost use Rattle.patch.specs.Patched.{size_of};
ghost use Rattle.test_work.specs.Order.{AreFieldsInOrder, IsAfter, IsBefore};

use mo_types::RefKind;
use patch::Met;

fn width_of(kind: RefKind) -> u64
    ensures { result ≡ field_size kind }
{
    match kind {
        RefKind::Pointer | RefKind::Diff64 | RefKind::GotPointer => 8,
        _ => 4,
    }
}

// Whether a field ends at a place or before it.
fn ends_by(met: &Met, end: u64) -> bool
    ensures { IsTrue result ↔ (met.now.place + size_of met.now ≤ end) }
{
    width_of(met.kind) <= end && met.place <= end - width_of(met.kind)
}

fn are_within(size: u64, mets: &[Met]) -> bool
    ensures { IsTrue result ↔ All (λ met. met.place + size_of met ≤ size) mets.now }
{
    mets.iter().all(|met| ends_by(met, size))
}

// Whether each field stands behind the one before it.
fn rise(mets: &[Met]) -> bool
    ensures { IsTrue result ↔ AllPairs IsBefore mets.now }
{
    for i in 1..mets.len() {
        if !ends_by(&mets[i - 1], mets[i].place) {
            return false;
        }
    }
    true
}

// Whether each field stands in front of the one before it.
fn fall(mets: &[Met]) -> bool
    ensures { IsTrue result ↔ AllPairs IsAfter mets.now }
{
    for i in 1..mets.len() {
        if !ends_by(&mets[i], mets[i - 1].place) {
            return false;
        }
    }
    true
}

/// Whether the fields of references lie apart in so many bytes, which begin at an address and end below 2^64, and stand
/// there by rising or by falling place: then `patch_atom` may be called. It takes one pass.
pub fn fields_are_in_order(address: u64, size: usize, mets: &[Met]) -> bool
    ensures { IsTrue result ↔ AreFieldsInOrder address size mets.now }
{
    if address > u64::MAX - size as u64 || !are_within(size as u64, mets) {
        return false;
    }
    rise(mets) || fall(mets)
}
