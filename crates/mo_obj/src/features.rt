//! What an object may have that the linker doesn't.

ghost use Rattle.std.specs.Prelude.{◌≡◌};
ghost use Rattle.std.specs.List.{list_any};
ghost use Rattle.mo_obj.specs.Features as features;

use mo_format::loader::{
    S_8BYTE_LITERALS, S_16BYTE_LITERALS, S_ATTR_PURE_INSTRUCTIONS, S_MOD_INIT_FUNC_POINTERS,
    S_REGULAR, S_THREAD_LOCAL_REGULAR, S_THREAD_LOCAL_VARIABLES, S_THREAD_LOCAL_ZEROFILL,
};
use mo_types::{Feature, Object, Section, Symbol, SymbolKind};

fn has_other_type(section: &Section) -> bool
    ensures { result ≡ features.has_other_type section.now }
{
    !matches!(
        u32::from(section.kind),
        S_REGULAR..=S_8BYTE_LITERALS
            | S_MOD_INIT_FUNC_POINTERS
            | S_16BYTE_LITERALS
            | S_THREAD_LOCAL_REGULAR
            | S_THREAD_LOCAL_ZEROFILL
            | S_THREAD_LOCAL_VARIABLES
    )
}

fn is_in(segment: &[u8], section: &Section) -> bool
    ensures { result ≡ features.is_in segment.now section.now }
{
    section.segment.as_slice() == segment
}

fn is_objc(section: &Section) -> bool
    ensures { result ≡ features.is_objc section.now }
{
    section.name.as_slice().starts_with(b"__objc_")
}

fn is_overaligned(section: &Section) -> bool
    ensures { result ≡ features.is_overaligned section.now }
{
    section.align > 14
}

fn is_overaligned_common(symbol: &Symbol) -> bool
    ensures { result ≡ features.is_overaligned_common symbol.now.kind }
{
    match symbol.kind {
        SymbolKind::Common { align, .. } => align > 14,
        _ => false,
    }
}

fn is_odd_code(section: &Section) -> bool
    ensures { result ≡ features.is_odd_code section.now }
{
    section.attributes & S_ATTR_PURE_INSTRUCTIONS != 0
        && (!is_in(b"__TEXT", section) || u32::from(section.kind) != S_REGULAR)
}

fn is_thread_local(section: &Section) -> bool
    ensures { result ≡ features.is_thread_local section.now }
{
    matches!(
        u32::from(section.kind),
        S_THREAD_LOCAL_REGULAR | S_THREAD_LOCAL_ZEROFILL | S_THREAD_LOCAL_VARIABLES
    )
}

fn has_odd_segment(section: &Section) -> bool
    ensures { result ≡ features.has_odd_segment section.now }
{
    is_in(b"__LINKEDIT", section)
        || is_in(b"__PAGEZERO", section)
        || is_thread_local(section) && !is_in(b"__DATA", section)
}

fn is_text_zerofill(section: &Section) -> bool
    ensures { result ≡ features.is_text_zerofill section.now }
{
    section.is_zerofill() && is_in(b"__TEXT", section)
}

fn is_external_absolute(symbol: &Symbol) -> bool
    ensures { result ≡ features.is_external_absolute symbol.now }
{
    symbol.external && matches!(symbol.kind, SymbolKind::Absolute)
}

fn any_other_type(sections: &[Section]) -> bool
    ensures { result ≡ features.any_kept features.has_other_type sections.now }
{
    sections
        .iter()
        .any(|section| !section.is_dropped() && has_other_type(section))
}

fn any_objc(sections: &[Section]) -> bool
    ensures { result ≡ features.any_kept features.is_objc sections.now }
{
    sections
        .iter()
        .any(|section| !section.is_dropped() && is_objc(section))
}

fn any_overaligned_section(sections: &[Section]) -> bool
    ensures { result ≡ features.any_kept features.is_overaligned sections.now }
{
    sections
        .iter()
        .any(|section| !section.is_dropped() && is_overaligned(section))
}

fn any_overaligned_common(symbols: &[Symbol]) -> bool
    ensures { result ≡ list_any (λ symbol. features.is_overaligned_common symbol.kind) symbols.now }
{
    symbols.iter().any(is_overaligned_common)
}

fn any_overaligned(object: &Object) -> bool
    ensures { result ≡ features.any_overaligned object.now }
{
    any_overaligned_section(object.sections.as_slice())
        || any_overaligned_common(object.symbols.as_slice())
}

fn any_odd_code(sections: &[Section]) -> bool
    ensures { result ≡ features.any_kept features.is_odd_code sections.now }
{
    sections
        .iter()
        .any(|section| !section.is_dropped() && is_odd_code(section))
}

fn any_odd_segment(sections: &[Section]) -> bool
    ensures { result ≡ features.any_kept features.has_odd_segment sections.now }
{
    sections.iter().any(|section| !section.is_dropped() && has_odd_segment(section))
}

fn any_text_zerofill(sections: &[Section]) -> bool
    ensures { result ≡ features.any_kept features.is_text_zerofill sections.now }
{
    sections.iter().any(|section| !section.is_dropped() && is_text_zerofill(section))
}

fn any_external_absolute(symbols: &[Symbol]) -> bool
    ensures { result ≡ list_any features.is_external_absolute symbols.now }
{
    symbols.iter().any(is_external_absolute)
}

// A feature of relocations or of absolute symbols.
fn last_feature(object: &Object, relocs: Option<Feature>) -> Option<Feature>
    ensures { result ≡ features.last_feature object.now relocs }
{
    if any_external_absolute(object.symbols.as_slice()) {
        Some(Feature::Absolute)
    } else {
        relocs
    }
}

/// The first of the features that stands, where `foreign` says that a symbol is of a kind that isn't linked,
/// and `relocs` what a relocation has.
#[tactic(auto, unfolding(crate::specs::Features::first_feature))]
pub fn first_feature(object: &Object, foreign: bool, relocs: Option<Feature>) -> Option<Feature>
    ensures { result ≡ features.first_feature object.now foreign relocs }
{
    let sections = object.sections.as_slice();
    if any_other_type(sections) {
        Some(Feature::SectionType)
    } else if any_objc(sections) {
        Some(Feature::ObjcSection)
    } else if any_overaligned(object) {
        Some(Feature::Alignment)
    } else if any_odd_code(sections) {
        Some(Feature::CodeSegment)
    } else if any_odd_segment(sections) {
        Some(Feature::SegmentName)
    } else if any_text_zerofill(sections) {
        Some(Feature::TextZerofill)
    } else if foreign {
        Some(Feature::SymbolKind)
    } else {
        last_feature(object, relocs)
    }
}
