//! What is read once of a layout, so that an atom's address tells where it is.
ghost use Rattle.std.specs.Prelude.{◌≡◌, IfSome, Some};
ghost use Rattle.std.specs.Option.{option_map};
ghost use Rattle.sect_place.specs.Addresses.{address_in};
ghost use Rattle.sect_place.specs.declared.layout.PlacedSection.{PlacedSection};
ghost use Rattle.islands.specs.Rows as rows;
ghost use Rattle.islands.specs.Text as text;
ghost use Rattle.islands.specs.inner.Ground as spec;

use crate::text::{in_code, in_text, is_code};
use mo_format::loader::S_SYMBOL_STUBS;
use mo_types::{AtomKey, OutSection};
use sect_place::{Layout, PlacedSection, Segment};

/// What is read once of a layout.
#[derive(Clone, Copy, Debug)]
pub(crate) struct Ground {
    /// Where `__TEXT` ends in memory. What stands before is in it.
    pub end: u128,
    /// Where the header stands.
    pub header: u64,
    /// Where the stubs stand, if there are any.
    pub stubs: Option<u64>,
    /// Where the first section of `__text` stands, if there is any.
    pub code: Option<Span>,
}

/// Addresses from one to another, which isn't one of them.
#[derive(Clone, Copy, Debug)]
pub(crate) struct Span {
    pub from: u64,
    pub to: u128,
}

/// What is read of a layout.
pub(crate) fn ground_of(layout: &Layout) -> Ground
    ensures { spec.IsGround layout.now result }
{
    let segments = layout.segments.as_slice();
    Ground {
        end: end_of(segments),
        header: header_place(segments),
        stubs: stubs_place(layout.sections.as_slice()),
        code: code_span(layout.sections.as_slice()),
    }
}

// Where `__TEXT` ends in memory.
fn end_of(segments: &[Segment]) -> u128
    ensures { result ≡ spec.text_end segments.now }
{
    for segment in segments {
        if segment.name.as_slice() == b"__TEXT".as_slice() {
            return u128::from(segment.address) + u128::from(segment.vmsize);
        }
    }
    0
}

// Where the stubs stand.
fn stubs_place(sections: &[PlacedSection]) -> Option<u64>
    ensures { result ≡ option_map (λ (p : PlacedSection). p.address) (rows.stubs_in sections.now) }
{
    for placed in sections {
        if is_stubs(&placed.section) {
            return Some(placed.address);
        }
    }
    None
}

// Where the first section of `__text` stands.
fn code_span(sections: &[PlacedSection]) -> Option<Span>
    ensures { IfSome result (spec.IsCodeSpan sections.now) }
{
    for placed in sections {
        if is_code(&placed.section) {
            return Some(Span {
                from: placed.address,
                to: u128::from(placed.address) + u128::from(placed.size),
            });
        }
    }
    None
}

// Where the header stands.
fn header_place(segments: &[Segment]) -> u64
    ensures { result ≡ rows.header_in segments.now }
{
    for segment in segments {
        if segment.name.as_slice() == b"__TEXT".as_slice() {
            return segment.address;
        }
    }
    0
}

// Whether a section is that of the stubs.
fn is_stubs(section: &OutSection) -> bool
    ensures { result ≡ rows.is_stubs section.now }
{
    section.segment.as_slice() == b"__TEXT".as_slice()
        && section.name.as_slice() == b"__stubs".as_slice()
        && u32::from(section.kind) == S_SYMBOL_STUBS
        && section.atoms.len() == 0
}

/// Whether an atom of the layout stands in `__text`, whose address is known.
pub(crate) fn stands_in_code(layout: &Layout, ground: &Ground, key: &AtomKey, at: u64) -> bool
    requires layout { spec.IsTold layout.now }
    requires ground { spec.IsGround layout.now ground.now }
    requires at { address_in layout.now.placed key.now ≡ Some at }
    ensures { result ≡ text.in_code layout.now key.now }
{
    if let Some(span) = ground.code {
        if span.from < at && u128::from(at) < span.to {
            return true;
        }
    }
    in_code(layout, key)
}

/// Whether it stands in `__TEXT`.
pub(crate) fn stands_in_text(layout: &Layout, ground: &Ground, key: &AtomKey, at: u64) -> bool
    requires layout { spec.IsTold layout.now }
    requires ground { spec.IsGround layout.now ground.now }
    requires at { address_in layout.now.placed key.now ≡ Some at }
    ensures { result ≡ text.in_text layout.now key.now }
{
    if u128::from(at) < ground.end {
        return true;
    }
    in_text(layout, key)
}
