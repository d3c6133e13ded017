//! Relocations that the linker doesn't have.

ghost use Rattle.std.specs.Prelude.{◌≡◌};
ghost use Rattle.std.specs.List.{list_any};
ghost use Rattle.mo_types.specs.RelocationRules as rules;
ghost use Rattle.mo_types.specs.Refs as refs;
ghost use Rattle.mo_types.specs.Rows as rows;
ghost use Rattle.reloc_read.specs.Checked as checks;
ghost use Rattle.reloc_read.specs.Features as features;

use crate::rows::{first_before, is_authenticated, is_subtractor, last_at};
use mo_types::{Feature, Object, RawReloc, Section, Symbol, SymbolKind};

fn any_authenticated(relocs: &[RawReloc]) -> bool
    ensures { result ≡ list_any rows.is_authenticated relocs.now }
{
    relocs.iter().any(|reloc| is_authenticated(reloc))
}

// Whether a relocation of a linked section is an authenticated pointer.
#[tactic(auto, unfolding(mo_types::specs::Refs::has_authenticated))]
fn has_authenticated(object: &Object) -> bool
    ensures { result ≡ refs.has_authenticated object.now }
{
    object.sections.as_slice().iter().any(|section| !section.is_dropped()
        && any_authenticated(section.relocs.as_slice()))
}

fn is_absolute(symbol: &Symbol) -> bool
    ensures { result ≡ rules.is_absolute symbol.now.kind }
{
    matches!(symbol.kind, SymbolKind::Absolute)
}

fn names_absolute(symbols: &[Symbol], reloc: &RawReloc) -> bool
    ensures { result ≡ refs.names_absolute symbols.now reloc.now }
{
    if !reloc.external {
        return false;
    }
    match symbols.get(reloc.number as usize) {
        Some(symbol) => is_absolute(symbol),
        None => false,
    }
}

// Whether the row that ends at a place names a symbol that is a number and no place.
fn row_names_absolute(symbols: &[Symbol], relocs: &[RawReloc], at: usize) -> bool
    ensures { result ≡ features.row_names_absolute_at symbols.now relocs.now at }
{
    let Some(reloc) = last_at(relocs, at) else {
        return false;
    };
    match first_before(relocs, at) {
        Some(first) if is_subtractor(&first) && names_absolute(symbols, &first) => true,
        _ => names_absolute(symbols, &reloc),
    }
}

#[tactic(auto, using(crate::proofs::FeatureLemmas::scans))]
fn any_absolute(symbols: &[Symbol], section: &Section) -> bool
    ensures { result ≡ features.any_absolute symbols.now section.now }
{
    let relocs = section.relocs.as_slice();
    for at in 0..relocs.len() {
        if row_names_absolute(symbols, relocs, at) {
            return true;
        }
    }
    false
}

// Whether a symbol is a number and no place.
fn has_absolute_symbol(symbols: &[Symbol]) -> bool
    ensures { result ≡ list_any (λ symbol. rules.is_absolute symbol.kind) symbols.now }
{
    symbols.iter().any(is_absolute)
}

#[tactic(auto, unfolding(mo_types::specs::Refs::has_absolute))]
fn any_section_names_absolute(object: &Object) -> bool
    ensures { result ≡ refs.has_absolute object.now }
{
    let symbols = object.symbols.as_slice();
    object.sections.as_slice().iter().any(|section| !section.is_dropped()
        && any_absolute(symbols, section))
}

// Whether a relocation of a linked section names a symbol that is a number and no place. The relocations are asked
// only where there is such a symbol.
#[tactic(auto, using(crate::proofs::FeatureLemmas::unnamed))]
fn has_absolute(object: &Object) -> bool
    ensures { result ≡ refs.has_absolute object.now }
{
    if !has_absolute_symbol(object.symbols.as_slice()) {
        return false;
    }
    any_section_names_absolute(object)
}

/// The first feature of an object's relocations that the linker doesn't have.
pub fn feature_of(object: &Object) -> Option<Feature>
    ensures { result ≡ checks.feature_of object.now }
{
    if has_absolute(object) {
        return Some(Feature::Absolute);
    }
    if has_authenticated(object) {
        return Some(Feature::PointerAuth);
    }
    None
}
