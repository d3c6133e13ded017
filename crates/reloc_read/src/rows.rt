//! The rows of the table of relocations (`mach-o/arm64/reloc.h`).

ghost use Rattle.std.specs.Prelude.{◌≡◌, ◌≤◌, IfSome};
ghost use Rattle.mo_types.specs.RelocationRules as rules;
ghost use Rattle.mo_types.specs.Rows as rows;
ghost use Rattle.reloc_read.specs.Fields.{IsSmall};
ghost use Rattle.reloc_read.specs.RelocRow.{IsRead};

use mo_format::reloc::{
    ARM64_RELOC_ADDEND, ARM64_RELOC_AUTHENTICATED_POINTER, ARM64_RELOC_BRANCH26,
    ARM64_RELOC_GOT_LOAD_PAGE21, ARM64_RELOC_GOT_LOAD_PAGEOFF12, ARM64_RELOC_PAGE21,
    ARM64_RELOC_PAGEOFF12, ARM64_RELOC_POINTER_TO_GOT, ARM64_RELOC_SUBTRACTOR,
    ARM64_RELOC_TLVP_LOAD_PAGE21, ARM64_RELOC_TLVP_LOAD_PAGEOFF12, ARM64_RELOC_UNSIGNED,
};
use mo_types::{FieldRange, RawReloc, RefKind};

/// What a row of the table says: its field and kind, by its relocations.
#[derive(Clone, Copy)]
pub struct RelocRow {
    pub field: FieldRange,
    pub first: Option<RawReloc>,
    pub last: RawReloc,
    pub kind: RefKind,
}

const _: () = prove!(size_of::<RelocRow>() == 48);

/// Whether a relocation says what is taken from the next one (`arm64/reloc.h`: `ARM64_RELOC_SUBTRACTOR`).
pub fn is_subtractor(reloc: &RawReloc) -> bool
    ensures { result ≡ rows.is_subtractor reloc.now }
{
    reloc.kind == ARM64_RELOC_SUBTRACTOR
}

/// Whether a relocation is one of a signed pointer (`arm64/reloc.h`: `ARM64_RELOC_AUTHENTICATED_POINTER`).
pub fn is_authenticated(reloc: &RawReloc) -> bool
    ensures { result ≡ rows.is_authenticated reloc.now }
{
    reloc.kind == ARM64_RELOC_AUTHENTICATED_POINTER
}

/// Whether the relocation is the first of two that make up one row.
pub fn is_first(reloc: &RawReloc) -> bool
    ensures { result ≡ rows.is_first reloc.now }
{
    reloc.kind == ARM64_RELOC_SUBTRACTOR || reloc.kind == ARM64_RELOC_ADDEND
}

/// Whether the second relocation may follow the first.
pub fn is_second(first: &RawReloc, reloc: &RawReloc) -> bool
    ensures { result ≡ rows.is_second first.now reloc.now }
{
    reloc.address == first.address
        && if is_subtractor(first) {
            reloc.kind == ARM64_RELOC_UNSIGNED
        } else {
            reloc.kind == ARM64_RELOC_BRANCH26
                || reloc.kind == ARM64_RELOC_PAGE21
                || reloc.kind == ARM64_RELOC_PAGEOFF12
        }
}

/// The relocation just before a place, where it is the first of two.
pub fn first_before(relocs: &[RawReloc], at: usize) -> Option<RawReloc>
    ensures { result ≡ rows.first_before relocs.now at }
{
    if at == 0 {
        return None;
    }
    match relocs.get(at - 1) {
        Some(reloc) if is_first(reloc) => Some(*reloc),
        _ => None,
    }
}

/// The relocation at a place, where it ends a row.
pub fn last_at(relocs: &[RawReloc], at: usize) -> Option<RawReloc>
    ensures { result ≡ rows.last_at relocs.now at }
{
    match relocs.get(at) {
        Some(reloc) if !is_first(reloc) && !is_authenticated(reloc) => Some(*reloc),
        _ => None,
    }
}

fn is_distance(reloc: &RawReloc) -> bool
    ensures { result ≡ rows.is_distance reloc.now }
{
    reloc.pcrel && reloc.length == 2 && reloc.external
}

fn is_value(length: u8, reloc: &RawReloc) -> bool
    ensures { result ≡ rows.is_value length reloc.now }
{
    !reloc.pcrel && reloc.length == length && reloc.external
}

// The kind where the flags are as they should be.
fn when(test: bool, kind: RefKind) -> Option<RefKind>
    ensures { result ≡ rows.when test kind }
{
    if test { Some(kind) } else { None }
}

fn kind_alone(reloc: &RawReloc) -> Option<RefKind>
    ensures { result ≡ rows.kind_alone reloc.now }
{
    match reloc.kind {
        ARM64_RELOC_UNSIGNED => when(!reloc.pcrel && reloc.length == 3, RefKind::Pointer),
        ARM64_RELOC_BRANCH26 => when(is_distance(reloc), RefKind::Branch),
        ARM64_RELOC_PAGE21 => when(is_distance(reloc), RefKind::Page),
        ARM64_RELOC_PAGEOFF12 => when(is_value(2, reloc), RefKind::PageOff),
        ARM64_RELOC_GOT_LOAD_PAGE21 => when(is_distance(reloc), RefKind::GotPage),
        ARM64_RELOC_GOT_LOAD_PAGEOFF12 => when(is_value(2, reloc), RefKind::GotPageOff),
        ARM64_RELOC_POINTER_TO_GOT if is_distance(reloc) => Some(RefKind::GotDelta),
        ARM64_RELOC_POINTER_TO_GOT => when(is_value(3, reloc), RefKind::GotPointer),
        ARM64_RELOC_TLVP_LOAD_PAGE21 => when(is_distance(reloc), RefKind::TlvPage),
        ARM64_RELOC_TLVP_LOAD_PAGEOFF12 => when(is_value(2, reloc), RefKind::TlvPageOff),
        _ => None,
    }
}

fn kind_of_difference(subtractor: &RawReloc, reloc: &RawReloc) -> Option<RefKind>
    ensures { result ≡ rows.kind_of_difference subtractor.now reloc.now }
{
    if subtractor.pcrel
        || !subtractor.external
        || reloc.pcrel
        || subtractor.length != reloc.length
    {
        return None;
    }
    match reloc.length {
        2 => Some(RefKind::Diff32),
        3 => Some(RefKind::Diff64),
        _ => None,
    }
}

/// What a row becomes, of its relocation and the one before it.
#[tactic(auto, unfolding(mo_types::specs::Rows::kind_of))]
pub fn kind_of(first: Option<RawReloc>, reloc: &RawReloc) -> Option<RefKind>
    ensures { result ≡ rows.kind_of first reloc.now }
{
    match first {
        Some(first) if is_subtractor(&first) => kind_of_difference(&first, reloc),
        _ => kind_alone(reloc),
    }
}

/// What the row that ends at a place becomes.
#[tactic(auto, unfolding(mo_types::specs::Rows::kind_at))]
pub fn kind_at(relocs: &[RawReloc], at: usize) -> Option<RefKind>
    ensures { result ≡ rows.kind_at relocs.now at }
{
    match last_at(relocs, at) {
        Some(reloc) => kind_of(first_before(relocs, at), &reloc),
        None => None,
    }
}

/// The bytes of a field.
fn field_size(kind: RefKind) -> u64
    ensures value { result ≡ rows.field_size kind }
    ensures low { 4 ≤ result }
    ensures high { result ≤ 8 }
{
    match kind {
        RefKind::Pointer | RefKind::Diff64 | RefKind::GotPointer => 8,
        _ => 4,
    }
}

/// Whether a field is part of an instruction.
pub fn is_instruction(kind: RefKind) -> bool
    ensures { result ≡ rows.is_instruction kind }
{
    !matches!(
        kind,
        RefKind::Pointer
            | RefKind::Diff32
            | RefKind::Diff64
            | RefKind::GotDelta
            | RefKind::GotPointer
    )
}

// The field of a row of this kind.
fn field_of(address: u32, kind: RefKind) -> FieldRange
    ensures offset { result.offset ≡ address }
    ensures size { result.size ≡ rows.field_size kind }
    ensures small { IsSmall result }
{
    FieldRange {
        offset: u64::from(address),
        size: field_size(kind),
    }
}

/// What the row that ends at a place says, where it has a field; `r_address` is signed, and there is no field below
/// the section.
#[tactic(auto, using(crate::proofs::RowLemmas::reads))]
pub fn row_at(relocs: &[RawReloc], at: usize) -> Option<RelocRow>
    ensures { IsRead relocs.now at result }
{
    let last = last_at(relocs, at)?;
    let first = first_before(relocs, at);
    let kind = kind_of(first, &last)?;
    if last.address >= 1 << 31 {
        return None;
    }
    Some(RelocRow {
        field: field_of(last.address, kind),
        first,
        last,
        kind,
    })
}

/// The field of the row that ends at a place.
#[tactic(auto, using(crate::proofs::RowLemmas::fields))]
pub fn field_at(relocs: &[RawReloc], at: usize) -> Option<FieldRange>
    ensures value { result ≡ rules.field_at relocs.now at }
    ensures small { IfSome result IsSmall }
{
    Some(row_at(relocs, at)?.field)
}
