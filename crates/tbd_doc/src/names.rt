//! The names in a document's items.

ghost use Rattle.std.specs.Prelude.{◌≡◌, ◌++◌, ◌∷◌, [], All, IfOk, IfSome, filter, map};
ghost use Rattle.std.specs.List.{flat_map};
ghost use Rattle.tbd_doc.specs.Exports as spec;
ghost use Rattle.tbd_doc.specs.Nodes.{fields_of};
ghost use Rattle.tbd_doc.specs.inner.Places.{IsNode, field_at, tree_at};
ghost use Rattle.tbd_doc.specs.inner.Texts.{counted_names, names_of, text_list};

use crate::nodes::{fields, items, text, value};
use crate::texts::has_text;
use mo_types::{Bytes, OutOfMemory};
use std::alloc::Global;
use tbd_yaml::YamlEvent;

/// What names of an item are wanted.
#[derive(Clone, Copy, Debug, PartialEq, Eq)]
pub enum NameKind {
    /// The libraries that it re-exports.
    Library,
    /// What it exports.
    Exported,
    /// What it exports weakly.
    Weak,
}

fn with_text(events: &[YamlEvent], at: usize, names: Vec<Bytes>) -> Result<Vec<Bytes>, OutOfMemory>
    requires { IsNode events.now at }
    ensures { IfOk result (λ more. more.items ≡ names.items ++ text_list (tree_at events.now at)) }
{
    match text(events, at) {
        Some(text) => {
            let mut names = names;
            names.push(text.clone()?)?;
            Ok(names)
        }
        None => Ok(names),
    }
}

// A name is no symbol where it is a directive to the linker.
fn is_symbol(name: &[u8]) -> bool
    ensures { result ≡ spec.is_symbol name.now }
{
    !name.starts_with(b"$ld$")
}

fn with_symbol(symbol: &Bytes, names: Vec<Bytes>) -> Result<Vec<Bytes>, OutOfMemory>
    ensures { IfOk result (λ more. more.items ≡ names.items ++ filter spec.is_symbol (symbol.now ∷ [])) }
{
    if !is_symbol(symbol.as_slice()) {
        return Ok(names);
    }
    let mut names = names;
    names.push(symbol.clone()?)?;
    Ok(names)
}

fn with_symbol_at(
    events: &[YamlEvent],
    at: usize,
    names: Vec<Bytes>,
) -> Result<Vec<Bytes>, OutOfMemory>
    requires { IsNode events.now at }
    ensures { IfOk result (λ more. more.items ≡ names.items ++ filter spec.is_symbol (text_list (tree_at events.now at))) }
{
    match text(events, at) {
        Some(symbol) => with_symbol(symbol, names),
        None => Ok(names),
    }
}

fn prefixed(alloc: Global, prefix: &[u8], name: &[u8]) -> Result<Bytes, OutOfMemory>
    ensures { IfOk result (λ whole. whole ≡ prefix.now ++ name.now) }
{
    let mut whole = Vec::with_capacity(alloc, prefix.len() + name.len())?;
    whole.extend_from_slice(prefix)?;
    whole.extend_from_slice(name)?;
    Bytes::from_vec(whole)
}

fn with_prefixed_at(
    alloc: Global,
    events: &[YamlEvent],
    at: usize,
    prefix: &[u8],
    names: Vec<Bytes>,
) -> Result<Vec<Bytes>, OutOfMemory>
    requires { IsNode events.now at }
    ensures { IfOk result (λ more. more.items ≡ names.items ++ map (λ name. prefix.now ++ name) (text_list (tree_at events.now at))) }
{
    match text(events, at) {
        Some(name) => {
            let mut names = names;
            names.push(prefixed(alloc, prefix, name.as_slice())?)?;
            Ok(names)
        }
        None => Ok(names),
    }
}

#[tactic(auto, using(crate::proofs::NameLemmas::gathers))]
fn with_all_texts(
    events: &[YamlEvent],
    places: &[usize],
    names: Vec<Bytes>,
) -> Result<Vec<Bytes>, OutOfMemory>
    requires { All (IsNode events.now) places.now }
    ensures { IfOk result (λ more. more.items ≡ names.items ++ flat_map (λ place. text_list (tree_at events.now place)) places.now) }
{
    let mut names = names;
    for place in places {
        names = with_text(events, *place, names)?;
    }
    Ok(names)
}

#[tactic(auto, using(crate::proofs::NameLemmas::gathers))]
fn with_all_symbols(
    events: &[YamlEvent],
    places: &[usize],
    names: Vec<Bytes>,
) -> Result<Vec<Bytes>, OutOfMemory>
    requires { All (IsNode events.now) places.now }
    ensures { IfOk result (λ more. more.items ≡ names.items ++ flat_map (λ place. filter spec.is_symbol (text_list (tree_at events.now place))) places.now) }
{
    let mut names = names;
    for place in places {
        names = with_symbol_at(events, *place, names)?;
    }
    Ok(names)
}

#[tactic(auto, using(crate::proofs::NameLemmas::gathers))]
fn with_all_prefixed(
    alloc: Global,
    events: &[YamlEvent],
    places: &[usize],
    prefix: &[u8],
    names: Vec<Bytes>,
) -> Result<Vec<Bytes>, OutOfMemory>
    requires { All (IsNode events.now) places.now }
    ensures { IfOk result (λ more. more.items
        ≡ names.items ++ flat_map (λ place. map (λ name. prefix.now ++ name) (text_list (tree_at events.now place))) places.now) }
{
    let mut names = names;
    for place in places {
        names = with_prefixed_at(alloc, events, *place, prefix, names)?;
    }
    Ok(names)
}

#[tactic(auto, unfolding(crate::specs::Exports::library_names))]
fn with_libraries(
    alloc: Global,
    events: &[YamlEvent],
    fields: &[usize],
    names: Vec<Bytes>,
) -> Result<Vec<Bytes>, OutOfMemory>
    requires { All (IsNode events.now) fields.now }
    ensures { IfOk result (λ more. more.items ≡ names.items ++ spec.library_names (map (field_at events.now) fields.now)) }
{
    let Some(at) = value(events, fields, b"libraries") else {
        return Ok(names);
    };
    let items = items(alloc, events, at)?;
    with_all_texts(events, items.as_slice(), names)
}

#[tactic(auto, unfolding(crate::specs::Exports::symbols_under))]
fn with_symbols_under(
    alloc: Global,
    events: &[YamlEvent],
    fields: &[usize],
    key: &[u8],
    names: Vec<Bytes>,
) -> Result<Vec<Bytes>, OutOfMemory>
    requires { All (IsNode events.now) fields.now }
    ensures { IfOk result (λ more. more.items ≡ names.items ++ spec.symbols_under key.now (map (field_at events.now) fields.now)) }
{
    let Some(at) = value(events, fields, key) else {
        return Ok(names);
    };
    let items = items(alloc, events, at)?;
    with_all_symbols(events, items.as_slice(), names)
}

#[tactic(auto, unfolding(crate::specs::Exports::prefixed_under))]
fn with_prefixed_under(
    alloc: Global,
    events: &[YamlEvent],
    fields: &[usize],
    key: &[u8],
    prefix: &[u8],
    names: Vec<Bytes>,
) -> Result<Vec<Bytes>, OutOfMemory>
    requires { All (IsNode events.now) fields.now }
    ensures { IfOk result (λ more. more.items ≡ names.items ++ spec.prefixed_under prefix.now key.now (map (field_at events.now) fields.now)) }
{
    let Some(at) = value(events, fields, key) else {
        return Ok(names);
    };
    let items = items(alloc, events, at)?;
    with_all_prefixed(alloc, events, items.as_slice(), prefix, names)
}

#[tactic(auto, using(crate::proofs::NameLemmas::chains))]
fn with_symbol_names(
    alloc: Global,
    events: &[YamlEvent],
    fields: &[usize],
    names: Vec<Bytes>,
) -> Result<Vec<Bytes>, OutOfMemory>
    requires { All (IsNode events.now) fields.now }
    ensures { IfOk result (λ more. more.items ≡ names.items ++ spec.symbol_names (map (field_at events.now) fields.now)) }
{
    let names = with_symbols_under(alloc, events, fields, b"symbols", names)?;
    let names = with_symbols_under(alloc, events, fields, b"weak-symbols", names)?;
    let names = with_symbols_under(alloc, events, fields, b"thread-local-symbols", names)?;
    Ok(names)
}

#[tactic(auto, using(crate::proofs::NameLemmas::chains))]
fn with_class_names(
    alloc: Global,
    events: &[YamlEvent],
    fields: &[usize],
    names: Vec<Bytes>,
) -> Result<Vec<Bytes>, OutOfMemory>
    requires { All (IsNode events.now) fields.now }
    ensures { IfOk result (λ more. more.items ≡ names.items ++ spec.class_names (map (field_at events.now) fields.now)) }
{
    let classes = b"objc-classes";
    let names = with_prefixed_under(alloc, events, fields, classes, b"_OBJC_CLASS_$_", names)?;
    let names = with_prefixed_under(alloc, events, fields, classes, b"_OBJC_METACLASS_$_", names)?;
    let types = b"objc-eh-types";
    let names = with_prefixed_under(alloc, events, fields, types, b"_OBJC_EHTYPE_$_", names)?;
    let ivars = b"objc-ivars";
    let names = with_prefixed_under(alloc, events, fields, ivars, b"_OBJC_IVAR_$_", names)?;
    Ok(names)
}

#[tactic(auto, using(crate::proofs::NameLemmas::chains), unfolding(crate::specs::Exports::exported_names))]
fn with_exported(
    alloc: Global,
    events: &[YamlEvent],
    fields: &[usize],
    names: Vec<Bytes>,
) -> Result<Vec<Bytes>, OutOfMemory>
    requires { All (IsNode events.now) fields.now }
    ensures { IfOk result (λ more. more.items ≡ names.items ++ spec.exported_names (map (field_at events.now) fields.now)) }
{
    let names = with_symbol_names(alloc, events, fields, names)?;
    let names = with_class_names(alloc, events, fields, names)?;
    Ok(names)
}

#[tactic(auto, unfolding(crate::specs::Exports::weak_names))]
fn with_names(
    alloc: Global,
    events: &[YamlEvent],
    fields: &[usize],
    kind: NameKind,
    names: Vec<Bytes>,
) -> Result<Vec<Bytes>, OutOfMemory>
    requires { All (IsNode events.now) fields.now }
    ensures { IfOk result (λ more. more.items ≡ names.items ++ names_of kind (map (field_at events.now) fields.now)) }
{
    match kind {
        NameKind::Library => with_libraries(alloc, events, fields, names),
        NameKind::Exported => with_exported(alloc, events, fields, names),
        NameKind::Weak => with_symbols_under(alloc, events, fields, b"weak-symbols", names),
    }
}

fn with_counted(
    alloc: Global,
    events: &[YamlEvent],
    at: usize,
    target: &[u8],
    kind: NameKind,
    names: Vec<Bytes>,
) -> Result<Vec<Bytes>, OutOfMemory>
    requires { IsNode events.now at }
    ensures { IfOk result (λ more. more.items ≡ names.items ++ counted_names kind target.now (fields_of (tree_at events.now at))) }
{
    let fields = fields(alloc, events, at)?;
    if !has_text(alloc, events, fields.as_slice(), b"targets", target)? {
        return Ok(names);
    }
    with_names(alloc, events, fields.as_slice(), kind, names)
}

#[tactic(auto, using(crate::proofs::NameLemmas::gathers))]
fn with_all_counted(
    alloc: Global,
    events: &[YamlEvent],
    places: &[usize],
    target: &[u8],
    kind: NameKind,
    names: Vec<Bytes>,
) -> Result<Vec<Bytes>, OutOfMemory>
    requires { All (IsNode events.now) places.now }
    ensures { IfOk result (λ more. more.items
        ≡ names.items ++ flat_map (λ place. counted_names kind target.now (fields_of (tree_at events.now place))) places.now) }
{
    let mut names = names;
    for place in places {
        names = with_counted(alloc, events, *place, target, kind, names)?;
    }
    Ok(names)
}

/// The names of a kind that the items under a key give where they count for a target, behind other names.
#[tactic(auto, unfolding(crate::specs::Exports::counted))]
pub fn with_names_under(
    alloc: Global,
    events: &[YamlEvent],
    fields: &[usize],
    key: &[u8],
    target: &[u8],
    kind: NameKind,
    names: Vec<Bytes>,
) -> Result<Vec<Bytes>, OutOfMemory>
    requires { All (IsNode events.now) fields.now }
    ensures { IfOk result (λ more. more.items
        ≡ names.items ++ flat_map (names_of kind) (spec.counted target.now key.now (map (field_at events.now) fields.now))) }
{
    let Some(at) = value(events, fields, key) else {
        return Ok(names);
    };
    let items = items(alloc, events, at)?;
    with_all_counted(alloc, events, items.as_slice(), target, kind, names)
}
