//! The reference of a row at which no rule fails.

ghost use Rattle.std.specs.Prelude.{◌≡◌, ◌+◌, ◌≤◌, false};
ghost use Rattle.mo_types.specs.Atoms.{cut_of};
ghost use Rattle.mo_types.specs.RelocationRules as rules;
ghost use Rattle.mo_types.specs.Refs as refs;
ghost use Rattle.reloc_read.specs.Fields.{IsSmall};
ghost use Rattle.reloc_read.specs.LinkedSection.{IsLinked};

use crate::linked_section::{LinkedSection, cut_at};
use crate::numbers::{field_number, field_signed, signed_24};
use crate::rows::{RelocRow, is_subtractor};
use mo_types::{AtomKey, FieldRange, RawReloc, Ref, Target};

// The atom and offset of an address in a linked section.
#[tactic(auto, using(crate::proofs::LinkedLemmas::linked))]
fn place_of(linked: &LinkedSection, address: u64) -> Target
    requires linked { IsLinked linked.now }
    requires low { linked.now.section.now.address ≤ address }
    ensures { result ≡ refs.place_of linked.now.cut.object.now linked.now.cut.file (linked.now.index + 1) address linked.now.section.now }
{
    let offset = address - linked.section.address;
    let start = cut_at(linked, offset);
    let atom = AtomKey {
        file: linked.cut.file,
        section: linked.index as u16 + 1,
        offset: start,
    };
    Target::Local(atom, offset - start)
}

// Where a relocation that keeps the rule of targets leads.
#[tactic(auto, using(crate::proofs::NoFaultLemmas::target_section, crate::proofs::LinkedLemmas::stands_at))]
fn target_of(linked: &LinkedSection, field: FieldRange, reloc: &RawReloc) -> Option<Target>
    requires linked { IsLinked linked.now }
    requires small { IsSmall field }
    requires good { rules.is_bad_target linked.now.cut.object.now linked.now.section.now.bytes field reloc.now ≡ false }
    ensures { result ≡ refs.target_of linked.now.cut.object.now linked.now.cut.file linked.now.section.now.bytes field reloc.now }
{
    if reloc.external {
        return Some(Target::Name(reloc.number));
    }
    if reloc.number == 0 {
        return None;
    }
    let index = reloc.number as usize - 1;
    let section = linked.cut.object.sections.as_slice().get(index)?;
    let address = field_number(linked.section.bytes.as_slice(), field);
    let target = LinkedSection {
        cut: linked.cut,
        index,
        section,
    };
    Some(place_of(&target, address))
}

fn minus_of(first: Option<RawReloc>) -> Option<Target>
    ensures { result ≡ refs.minus_of first }
{
    match first {
        Some(first) if is_subtractor(&first) => Some(Target::Name(first.number)),
        _ => None,
    }
}

fn addend_of(bytes: &[u8], field: FieldRange, first: Option<RawReloc>, reloc: &RawReloc) -> i64
    requires { IsSmall field }
    ensures { result ≡ refs.addend_of bytes.now field first reloc.now }
{
    if reloc.kind != 0 {
        return match first {
            Some(addend) => signed_24(addend.number),
            None => 0,
        };
    }
    if reloc.external {
        field_signed(bytes, field)
    } else {
        0
    }
}

/// The reference of a row that keeps the rules, by the cut of the atom that holds its field.
#[tactic(auto, using(crate::proofs::LinkedLemmas::linked))]
pub fn reference(linked: &LinkedSection, row: &RelocRow, cut: u64) -> Option<Ref>
    requires linked { IsLinked linked.now }
    requires small { IsSmall row.now.field }
    requires fits { row.now.field.offset + row.now.field.size ≤ linked.now.section.now.size }
    requires good { rules.is_bad_target linked.now.cut.object.now linked.now.section.now.bytes row.now.field row.now.last ≡ false }
    requires cut { cut ≡ cut_of linked.now.cut.object.now (linked.now.index + 1) linked.now.section.now row.now.field.offset }
    requires low { cut ≤ row.now.field.offset }
    ensures { result ≡ refs.reference linked.now.cut.object.now linked.now.cut.file (linked.now.index + 1) linked.now.section.now
        row.now.first row.now.last row.now.kind row.now.field }
{
    let field = row.field;
    let target = target_of(linked, field, &row.last)?;
    let bytes = linked.section.bytes.as_slice();
    Some(Ref {
        atom: AtomKey {
            file: linked.cut.file,
            section: linked.index as u16 + 1,
            offset: cut,
        },
        place: field.offset - cut,
        file_place: linked.section.file_offset + field.offset,
        kind: row.kind,
        target,
        minus: minus_of(row.first),
        addend: addend_of(bytes, field, row.first, &row.last),
    })
}
