//! The relocations of an entry's fields in a table of all entries, of 16 bytes each.

ghost use Rattle.std.specs.Prelude.{◌≡◌, ◌+◌, ◌*◌, ◌/◌, ◌%◌, ◌^◌, ◌<◌, Some, true, false, is_none, if◌then◌else◌};
ghost use Rattle.std.specs.Option.{option_map};
ghost use Rattle.mo_types.specs.Rows.{when};
ghost use Rattle.unwind_read.specs.EntryRows as rows;
ghost use Rattle.unwind_read.specs.EntryRows.{relocs_in};
ghost use Rattle.unwind_read.specs.Pointers as pointers;

use crate::pointers::EntryRelocs;
use mo_format::reloc::ARM64_RELOC_UNSIGNED;
use mo_types::RawReloc;

/// What the pointer of a field names (`reloc.h`: `r_extern`), where there is one.
#[derive(Clone, Copy, Debug, PartialEq, Eq)]
pub enum Named {
    Nothing,
    BySection,
    BySymbol,
}

/// The pointers of an entry's fields: the number that each has (`reloc.h`: `r_symbolnum`), and what it names.
#[derive(Clone, Copy, Debug, PartialEq, Eq)]
pub struct EntryRow {
    pub function: u32,
    pub personality: u32,
    pub lsda: u32,
    pub function_named: Named,
    pub personality_named: Named,
    pub lsda_named: Named,
}

/// No field has one.
pub const EMPTY: EntryRow = EntryRow {
    function: 0,
    personality: 0,
    lsda: 0,
    function_named: Named::Nothing,
    personality_named: Named::Nothing,
    lsda_named: Named::Nothing,
};

fn is_nothing(named: Named) -> bool
    ensures { result ≡ rows.is_nothing named }
{
    matches!(named, Named::Nothing)
}

fn is_empty(row: &EntryRow) -> bool
    ensures { result ≡ rows.is_empty row.now }
{
    is_nothing(row.function_named)
        && is_nothing(row.personality_named)
        && is_nothing(row.lsda_named)
}

fn named_of(reloc: &RawReloc) -> Named
    ensures { result ≡ rows.named_of reloc.now }
{
    if reloc.external {
        Named::BySymbol
    } else {
        Named::BySection
    }
}

fn pointer_with(address: u32, number: u32, external: bool) -> RawReloc
    ensures { result ≡ rows.pointer_with address number external }
{
    RawReloc {
        address,
        number,
        pcrel: false,
        length: 3,
        external,
        kind: ARM64_RELOC_UNSIGNED,
    }
}

fn pointer_of(address: u32, number: u32, named: Named) -> Option<RawReloc>
    ensures { result ≡ rows.pointer_of address number named }
{
    match named {
        Named::Nothing => None,
        Named::BySection => Some(pointer_with(address, number, false)),
        Named::BySymbol => Some(pointer_with(address, number, true)),
    }
}

/// The relocations of the entry with a number from 0, from its row.
#[tactic(auto, using(crate::proofs::EntryRowLemmas::reads), unfolding(crate::specs::EntryRows::relocs_in))]
pub fn relocs_in(row: &EntryRow, at: usize) -> EntryRelocs
    requires { rows.is_empty row.now ≡ false → 32 * at + 24 < 2 ^ 32 }
    ensures { result ≡ relocs_in at row.now }
{
    if is_empty(row) {
        return EntryRelocs {
            function: None,
            personality: None,
            lsda: None,
        };
    }
    let start = (32 * at) as u32;
    EntryRelocs {
        function: pointer_of(start, row.function, row.function_named),
        personality: pointer_of(start + 16, row.personality, row.personality_named),
        lsda: pointer_of(start + 24, row.lsda, row.lsda_named),
    }
}

// A row with the pointer of the function, where it has none.
#[tactic(auto, using(crate::proofs::EntryRowLemmas::functions))]
fn with_function(row: &EntryRow, reloc: &RawReloc) -> Option<EntryRow>
    requires pointer { pointers.is_pointer reloc.now ≡ true }
    requires field { reloc.now.address % 32 ≡ 0 }
    ensures { option_map (relocs_in (reloc.now.address / 32)) result ≡ pointers.row_with (relocs_in (reloc.now.address / 32) row.now) reloc.now }
{
    if !is_nothing(row.function_named) {
        return None;
    }
    Some(EntryRow {
        function: reloc.number,
        function_named: named_of(reloc),
        ..*row
    })
}

// The same of the personality.
#[tactic(auto, using(crate::proofs::EntryRowLemmas::personalities))]
fn with_personality(row: &EntryRow, reloc: &RawReloc) -> Option<EntryRow>
    requires pointer { pointers.is_pointer reloc.now ≡ true }
    requires field { reloc.now.address % 32 ≡ 16 }
    ensures { option_map (relocs_in (reloc.now.address / 32)) result ≡ pointers.row_with (relocs_in (reloc.now.address / 32) row.now) reloc.now }
{
    if !is_nothing(row.personality_named) {
        return None;
    }
    Some(EntryRow {
        personality: reloc.number,
        personality_named: named_of(reloc),
        ..*row
    })
}

// The same of the lsda.
#[tactic(auto, using(crate::proofs::EntryRowLemmas::lsdas))]
fn with_lsda(row: &EntryRow, reloc: &RawReloc) -> Option<EntryRow>
    requires pointer { pointers.is_pointer reloc.now ≡ true }
    requires field { reloc.now.address % 32 ≡ 24 }
    ensures { option_map (relocs_in (reloc.now.address / 32)) result ≡ pointers.row_with (relocs_in (reloc.now.address / 32) row.now) reloc.now }
{
    if !is_nothing(row.lsda_named) {
        return None;
    }
    Some(EntryRow {
        lsda: reloc.number,
        lsda_named: named_of(reloc),
        ..*row
    })
}

/// A row with one more relocation, which is a pointer in its entry; `None` where it isn't that of a field, or not the
/// first one.
#[tactic(auto, using(crate::proofs::EntryRowLemmas::no_field))]
pub fn row_with(row: &EntryRow, reloc: &RawReloc) -> Option<EntryRow>
    requires { pointers.is_pointer reloc.now ≡ true }
    ensures { option_map (relocs_in (reloc.now.address / 32)) result ≡ pointers.row_with (relocs_in (reloc.now.address / 32) row.now) reloc.now }
{
    match reloc.address % 32 {
        0 => with_function(row, reloc),
        16 => with_personality(row, reloc),
        24 => with_lsda(row, reloc),
        _ => None,
    }
}
