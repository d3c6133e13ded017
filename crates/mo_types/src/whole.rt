ghost use Rattle.std.specs.Prelude.{◌≡◌, ◌↔◌, ◌+◌, ◌-◌, ◌*◌, ◌%◌, ◌<◌, ◌^◌, length, slice_index, true, All, IsTrue, IfSome, if◌then◌else◌};
ghost use Rattle.std.specs.Option.{option_copied};
ghost use Rattle.mo_types.specs.RelocationRules as rules;
ghost use Rattle.mo_types.specs.Whole as whole;

use crate::object::{Object, RawReloc, Section, Symbol, SymbolKind};

/// The section of a number from 1, or `None` exactly where there is none.
pub(crate) fn section_numbered(sections: &[Section], number: u32) -> Option<&Section>
    ensures { option_copied result ≡ rules.section_numbered sections.now number }
{
    if number == 0 {
        return None;
    }
    sections.get(number as usize - 1)
}

fn are_numbered(relocs: &[RawReloc]) -> bool
    ensures { IsTrue result ↔ All (λ reloc. reloc.number < 2 ^ 24) relocs.now }
{
    relocs.iter().all(|reloc| reloc.number < 1 << 24)
}

fn has_whole_literals(section: &Section) -> bool
    ensures { IsTrue result ↔ (IfSome (whole.literal_size section.now.kind) (λ size. section.now.size % size ≡ 0)) }
{
    match section.literal_size() {
        Some(size) => section.size % size == 0,
        None => true,
    }
}

fn has_whole_strings(section: &Section) -> bool
    requires { whole.is_strings section.now.kind ≡ true → length section.now.bytes ≡ section.now.size }
    ensures { IsTrue result ↔ (IsTrue (whole.is_strings section.now.kind) → 0 < section.now.size → slice_index section.now.bytes (section.now.size - 1) ≡ 0) }
{
    if !section.is_strings() || section.size == 0 {
        return true;
    }
    let strings = section.bytes.as_slice();
    strings[strings.len() - 1] == 0
}

fn has_room(section: &Section) -> bool
    ensures { IsTrue result ↔ ((section.now.address + section.now.size < 2 ^ 63) × (section.now.file_offset + section.now.size < 2 ^ 64)
        × (section.now.reloc_offset + 8 * length section.now.relocs < 2 ^ 64)) }
{
    let address = section.address;
    let size = section.size;
    let contents = section.file_offset;
    let relocs = section.reloc_offset;
    let entries = section.relocs.len() as u128;
    u128::from(address) + u128::from(size) < 1 << 63
        && u128::from(contents) + u128::from(size) < 1 << 64
        && u128::from(relocs) + 8 * entries < 1 << 64
}

fn has_its_bytes(section: &Section) -> bool
    ensures { IsTrue result ↔ (length section.now.bytes ≡ (if whole.is_zerofill section.now.kind then 0 else section.now.size)) }
{
    let size = if section.is_zerofill() {
        0
    } else {
        section.size
    };
    section.bytes.len() as u64 == size
}

fn is_whole_section(section: &Section) -> bool
    ensures { IsTrue result ↔ whole.IsWholeSection section.now }
{
    has_its_bytes(section)
        && has_room(section)
        && has_whole_literals(section)
        && has_whole_strings(section)
        && are_numbered(section.relocs.as_slice())
}

fn is_defined_within(sections: &[Section], kind: &SymbolKind) -> bool
    ensures { IsTrue result ↔ whole.IsDefinedWithin sections.now kind.now }
{
    let SymbolKind::Defined { section, value } = *kind else {
        return true;
    };
    if section == 0 || usize::from(section) > sections.len() {
        return false;
    }
    let within = &sections[usize::from(section) - 1];
    within.address <= value && value - within.address <= within.size
}

fn are_whole_sections(sections: &[Section]) -> bool
    ensures { IsTrue result ↔ All whole.IsWholeSection sections.now }
{
    sections.iter().all(is_whole_section)
}

fn are_defined_within(sections: &[Section], symbols: &[Symbol]) -> bool
    ensures { IsTrue result ↔ All (λ symbol. whole.IsDefinedWithin sections.now symbol.kind) symbols.now }
{
    symbols
        .iter()
        .all(|symbol| is_defined_within(sections, &symbol.kind))
}

impl Object {
    ghost use Rattle.std.specs.Prelude.{◌↔◌, ◌≡◌, IsTrue};
    ghost use Rattle.std.specs.Option.{option_copied};
    ghost use Rattle.mo_types.specs.RelocationRules as rules;
    ghost use Rattle.mo_types.specs.Whole.{IsWhole};

    /// Its section of a number from 1, or `None` exactly where there is none.
    pub fn section(&self, number: u32) -> Option<&Section>
        ensures { option_copied result ≡ rules.section_numbered self.now.sections number }
    {
        section_numbered(self.sections.as_slice(), number)
    }

    /// Whether the object is whole, as what the reader of objects gives is: its numbers have room, its
    /// sections have their bytes, and its definitions lie in their sections.
    pub fn is_whole(&self) -> bool
        ensures { IsTrue result ↔ IsWhole self.now }
    {
        let sections = self.sections.as_slice();
        let symbols = self.symbols.as_slice();
        sections.len() <= 255
            && symbols.len() < 1 << 32
            && are_whole_sections(sections)
            && are_defined_within(sections, symbols)
    }
}
