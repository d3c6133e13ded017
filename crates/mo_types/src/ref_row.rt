//! References in few bytes.

ghost use Rattle.std.specs.Prelude.{◌≡◌, ℕ, List, length, IfSome};
ghost use Rattle.mo_types.specs.declared.key.FileId.{FileId};
ghost use Rattle.mo_types.specs.declared.reference.Ref.{Ref};
ghost use Rattle.mo_types.specs.inner.RefRows as rows;

use crate::key::{AtomKey, FileId};
use crate::reference::{Ref, RefKind, Target};

// Two of them share a cache line.
const _: () = prove!(size_of::<Row>() == 32);

/// What a reference has but its ends and its file, in numbers of 32 bits.
#[derive(Clone, Copy, Debug)]
pub struct Spot {
    pub offset: u32,
    pub place: u32,
    pub file_place: u32,
    pub addend: i32,
    pub section: u16,
    pub kind: RefKind,
}

/// A reference of a list.
#[derive(Clone, Copy, Debug)]
pub enum Row {
    /// To the symbol of an index.
    Name(Spot, u32),
    /// To the symbol of an index, less that of another one.
    Difference(Spot, u32, u32),
    /// Any other one, by its index among those that are kept whole.
    Other(usize),
}

// The spot of a reference, where its numbers have 32 bits.
fn spot_of(reference: &Ref) -> Option<Spot>
    ensures { IfSome result (λ spot. rows.ref_at reference.now.atom.file spot reference.now.target reference.now.minus ≡ reference.now) }
{
    Some(Spot {
        offset: u32::try_from(reference.atom.offset).ok()?,
        place: u32::try_from(reference.place).ok()?,
        file_place: u32::try_from(reference.file_place).ok()?,
        addend: i32::try_from(reference.addend).ok()?,
        section: reference.atom.section,
        kind: reference.kind,
    })
}

// The row of a reference at a spot, where its ends are symbols.
#[tactic(auto, unfolding(crate::specs::inner::RefRows::ref_of))]
fn row_at(spot: Spot, target: Target, minus: Option<Target>) -> Option<Row>
    ensures same { IfSome result (λ row. (file : FileId) (others : List Ref) → rows.ref_of file others row ≡ rows.ref_at file spot target minus) }
    ensures within { IfSome result (λ row. (count : ℕ) → rows.IsRowWithin count row) }
{
    let Target::Name(symbol) = target else {
        return None;
    };
    match minus {
        None => Some(Row::Name(spot, symbol)),
        Some(Target::Name(minus)) => Some(Row::Difference(spot, symbol, minus)),
        Some(Target::Local(..)) => None,
    }
}

/// The row of a reference of a file, where it needs none of those that are kept whole.
#[tactic(auto, unfolding(crate::specs::inner::RefRows::ref_of))]
pub fn row_of(file: FileId, reference: &Ref) -> Option<Row>
    ensures same { IfSome result (λ row. (others : List Ref) → rows.ref_of file others row ≡ reference.now) }
    ensures within { IfSome result (λ row. (count : ℕ) → rows.IsRowWithin count row) }
{
    if reference.atom.file != file {
        return None;
    }
    row_at(spot_of(reference)?, reference.target, reference.minus)
}

#[inline(always)]
fn ref_at(file: FileId, spot: Spot, target: Target, minus: Option<Target>) -> Ref
    ensures { result ≡ rows.ref_at file spot target minus }
{
    Ref {
        atom: AtomKey {
            file,
            section: spot.section,
            offset: u64::from(spot.offset),
        },
        place: u64::from(spot.place),
        file_place: u64::from(spot.file_place),
        kind: spot.kind,
        target,
        minus,
        addend: i64::from(spot.addend),
    }
}

/// The reference of a row.
#[tactic(auto, unfolding(crate::specs::inner::RefRows::ref_of))]
#[inline(always)]
pub fn ref_of(file: FileId, others: &[Ref], row: Row) -> Ref
    requires { rows.IsRowWithin (length others.now) row }
    ensures { result ≡ rows.ref_of file others.now row }
{
    match row {
        Row::Name(spot, symbol) => ref_at(file, spot, Target::Name(symbol), None),
        Row::Difference(spot, symbol, minus) => {
            ref_at(file, spot, Target::Name(symbol), Some(Target::Name(minus)))
        }
        Row::Other(index) => others[index],
    }
}
