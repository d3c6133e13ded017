//! What relocations name.

ghost use Rattle.std.specs.Prelude.{◌≡◌, ◌≤◌, ◌&&◌, ℕ, false, IfSome};
ghost use Rattle.std.specs.Option.{option_copied, option_map_or};
ghost use Rattle.mo_types.specs.RelocationRules as rules;
ghost use Rattle.mo_types.specs.Rows as rows;
ghost use Rattle.reloc_read.specs.Fields.{IsSmall};
ghost use Rattle.reloc_read.specs.RelocRow.{IsRow};

use crate::numbers::field_number;
use crate::rows::{RelocRow, is_subtractor};
use mo_types::{FieldRange, Object, RawReloc, Section, Symbol, SymbolKind};

/// The section of a number from 1.
pub fn section_numbered(sections: &[Section], number: u32) -> Option<&Section>
    ensures { option_copied result ≡ rules.section_numbered sections.now number }
{
    if number == 0 {
        return None;
    }
    sections.get(number as usize - 1)
}

fn is_in_dropped(sections: &[Section], kind: &SymbolKind) -> bool
    ensures { result ≡ rules.is_in_dropped sections.now kind.now }
{
    let SymbolKind::Defined { section, .. } = *kind else {
        return false;
    };
    match section_numbered(sections, u32::from(section)) {
        Some(section) => section.is_dropped(),
        None => false,
    }
}

// Whether no relocation may name the symbol.
fn is_unnameable(sections: &[Section], symbol: &Symbol) -> bool
    ensures { result ≡ rules.is_unnameable sections.now symbol.now }
{
    matches!(symbol.kind, SymbolKind::Passed)
        || !symbol.external && is_in_dropped(sections, &symbol.kind)
}

fn is_within(section: &Section, address: u64) -> bool
    ensures { result ≡ rules.is_within section.now address }
{
    section.address <= address && address - section.address <= section.size
}

fn is_outside(sections: &[Section], number: u32, address: u64) -> bool
    ensures { result ≡ rules.is_outside sections.now number address }
{
    match section_numbered(sections, number) {
        Some(section) => section.is_dropped() || !is_within(section, address),
        None => true,
    }
}

fn is_bad_target(object: &Object, section: &Section, field: FieldRange, reloc: &RawReloc) -> bool
    requires { IsSmall field }
    ensures { result ≡ rules.is_bad_target object.now section.now.bytes field reloc.now }
{
    let sections = object.sections.as_slice();
    if !reloc.external {
        let address = field_number(section.bytes.as_slice(), field);
        return is_outside(sections, reloc.number, address);
    }
    match object.symbols.get(reloc.number as usize) {
        Some(symbol) => is_unnameable(sections, symbol),
        None => true,
    }
}

// Whether what a row subtracts is nothing that it may name.
fn is_bad_minus(object: &Object, section: &Section, row: &RelocRow) -> bool
    requires { IsSmall row.now.field }
    ensures { result ≡ option_map_or (λ first. rows.is_subtractor first && rules.is_bad_target object.now section.now.bytes row.now.field first)
        row.now.first false }
{
    match row.first {
        Some(first) => is_subtractor(&first) && is_bad_target(object, section, row.field, &first),
        None => false,
    }
}

/// The relocation of a row that names nothing that it may name.
#[tactic(auto, using(crate::proofs::RowLemmas::field_small))]
pub fn target_fault(object: &Object, section: &Section, at: usize, row: &RelocRow) -> Option<usize>
    requires { IsRow section.now.relocs at row.now }
    ensures value { (number : ℕ) → result ≡ rules.target_fault object.now number section.now at }
    ensures within { IfSome result (λ index. index ≤ at) }
{
    if is_bad_minus(object, section, row) {
        return Some(at.saturating_sub(1));
    }
    if is_bad_target(object, section, row.field, &row.last) {
        return Some(at);
    }
    None
}
