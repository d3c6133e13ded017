//! The forms of a document's values.

ghost use Rattle.std.specs.Prelude.{◌≡◌, All, IfOk, IfSome, map};
ghost use Rattle.std.specs.List.{list_all};
ghost use Rattle.std.specs.Option.{option_map};
ghost use Rattle.tbd_doc.specs.Forms as spec;
ghost use Rattle.tbd_doc.specs.inner.Places.{IsNode, field_at, tree_at};

use crate::nodes::{fields, is_list, is_map, items, text, value};
use crate::texts::{are_texts_at, has_nul, hold_nul, text_under};
use mo_cmd::version;
use mo_types::{Bytes, OutOfMemory};
use std::alloc::Global;
use tbd_yaml::YamlEvent;

/// What the items of a list under a key of a document are about.
#[derive(Clone, Copy, Debug, PartialEq, Eq)]
pub enum ItemKind {
    Reexport,
    Export,
}

fn is_install(text: Option<&Bytes>) -> bool
    ensures { result ≡ spec.is_install (option_map (λ text. text.now) text.entry) }
{
    match text {
        Some(text) => !has_nul(text.as_slice()),
        None => false,
    }
}

fn is_version_text(text: Option<&Bytes>) -> bool
    ensures { result ≡ spec.is_version_text (option_map (λ text. text.now) text.entry) }
{
    match text {
        Some(text) => version(text.as_slice()).is_some(),
        None => false,
    }
}

fn is_version(events: &[YamlEvent], value: Option<usize>) -> bool
    requires { IfSome value (IsNode events.now) }
    ensures { result ≡ spec.is_version (option_map (tree_at events.now) value) }
{
    match value {
        None => true,
        Some(at) => is_version_text(text(events, at)),
    }
}

#[tactic(auto, unfolding(crate::specs::Forms::is_reexport))]
fn is_reexport(alloc: Global, events: &[YamlEvent], fields: &[usize]) -> Result<bool, OutOfMemory>
    requires { All (IsNode events.now) fields.now }
    ensures { IfOk result (λ test. test ≡ spec.is_reexport (map (field_at events.now) fields.now)) }
{
    let targets = are_texts_at(alloc, events, fields, b"targets")?;
    let libraries = are_texts_at(alloc, events, fields, b"libraries")?;
    let nul = hold_nul(alloc, events, value(events, fields, b"libraries"))?;
    Ok(targets && libraries && !nul)
}

#[tactic(auto, unfolding(crate::specs::Forms::have_symbols))]
fn have_symbols(alloc: Global, events: &[YamlEvent], fields: &[usize]) -> Result<bool, OutOfMemory>
    requires { All (IsNode events.now) fields.now }
    ensures { IfOk result (λ test. test ≡ spec.have_symbols (map (field_at events.now) fields.now)) }
{
    let symbols = are_texts_at(alloc, events, fields, b"symbols")?;
    let weak = are_texts_at(alloc, events, fields, b"weak-symbols")?;
    let thread_local = are_texts_at(alloc, events, fields, b"thread-local-symbols")?;
    Ok(symbols && weak && thread_local)
}

#[tactic(auto, unfolding(crate::specs::Forms::have_classes))]
fn have_classes(alloc: Global, events: &[YamlEvent], fields: &[usize]) -> Result<bool, OutOfMemory>
    requires { All (IsNode events.now) fields.now }
    ensures { IfOk result (λ test. test ≡ spec.have_classes (map (field_at events.now) fields.now)) }
{
    let classes = are_texts_at(alloc, events, fields, b"objc-classes")?;
    let types = are_texts_at(alloc, events, fields, b"objc-eh-types")?;
    let ivars = are_texts_at(alloc, events, fields, b"objc-ivars")?;
    Ok(classes && types && ivars)
}

#[tactic(auto, unfolding(crate::specs::Forms::is_export))]
fn is_export(alloc: Global, events: &[YamlEvent], fields: &[usize]) -> Result<bool, OutOfMemory>
    requires { All (IsNode events.now) fields.now }
    ensures { IfOk result (λ test. test ≡ spec.is_export (map (field_at events.now) fields.now)) }
{
    let targets = are_texts_at(alloc, events, fields, b"targets")?;
    let symbols = have_symbols(alloc, events, fields)?;
    let classes = have_classes(alloc, events, fields)?;
    Ok(targets && symbols && classes)
}

fn has_form(
    alloc: Global,
    events: &[YamlEvent],
    fields: &[usize],
    kind: ItemKind,
) -> Result<bool, OutOfMemory>
    requires { All (IsNode events.now) fields.now }
    ensures { IfOk result (λ test. test ≡ spec.has_form kind (map (field_at events.now) fields.now)) }
{
    match kind {
        ItemKind::Reexport => is_reexport(alloc, events, fields),
        ItemKind::Export => is_export(alloc, events, fields),
    }
}

fn is_item(
    alloc: Global,
    events: &[YamlEvent],
    at: usize,
    kind: ItemKind,
) -> Result<bool, OutOfMemory>
    requires { IsNode events.now at }
    ensures { IfOk result (λ test. test ≡ spec.is_item kind (tree_at events.now at)) }
{
    if !is_map(events, at) {
        return Ok(false);
    }
    let fields = fields(alloc, events, at)?;
    has_form(alloc, events, fields.as_slice(), kind)
}

fn all_items(
    alloc: Global,
    events: &[YamlEvent],
    places: &[usize],
    kind: ItemKind,
) -> Result<bool, OutOfMemory>
    requires { All (IsNode events.now) places.now }
    ensures { IfOk result (λ test. test ≡ list_all (λ place. spec.is_item kind (tree_at events.now place)) places.now) }
{
    for place in places {
        if !is_item(alloc, events, *place, kind)? {
            return Ok(false);
        }
    }
    Ok(true)
}

fn are_items(
    alloc: Global,
    events: &[YamlEvent],
    value: Option<usize>,
    kind: ItemKind,
) -> Result<bool, OutOfMemory>
    requires { IfSome value (IsNode events.now) }
    ensures { IfOk result (λ test. test ≡ spec.are_items kind (option_map (tree_at events.now) value)) }
{
    let Some(at) = value else {
        return Ok(true);
    };
    if !is_list(events, at) {
        return Ok(false);
    }
    let items = items(alloc, events, at)?;
    all_items(alloc, events, items.as_slice(), kind)
}

fn have_versions(events: &[YamlEvent], fields: &[usize]) -> bool
    requires { All (IsNode events.now) fields.now }
    ensures { result ≡ spec.have_versions (map (field_at events.now) fields.now) }
{
    is_version(events, value(events, fields, b"current-version"))
        && is_version(events, value(events, fields, b"compatibility-version"))
}

fn have_items(alloc: Global, events: &[YamlEvent], fields: &[usize]) -> Result<bool, OutOfMemory>
    requires { All (IsNode events.now) fields.now }
    ensures { IfOk result (λ test. test ≡ spec.have_items (map (field_at events.now) fields.now)) }
{
    let libraries = value(events, fields, b"reexported-libraries");
    let libraries = are_items(alloc, events, libraries, ItemKind::Reexport)?;
    let exports = value(events, fields, b"exports");
    let exports = are_items(alloc, events, exports, ItemKind::Export)?;
    let reexports = value(events, fields, b"reexports");
    let reexports = are_items(alloc, events, reexports, ItemKind::Export)?;
    Ok(libraries && exports && reexports)
}

/// Whether the keys of a document have values of their forms.
#[tactic(auto, unfolding(crate::specs::Forms::is_well_formed))]
pub fn is_well_formed(
    alloc: Global,
    events: &[YamlEvent],
    fields: &[usize],
) -> Result<bool, OutOfMemory>
    requires { All (IsNode events.now) fields.now }
    ensures { IfOk result (λ test. test ≡ spec.is_well_formed (map (field_at events.now) fields.now)) }
{
    let targets = are_texts_at(alloc, events, fields, b"targets")?;
    let install = is_install(text_under(events, fields, b"install-name"));
    let versions = have_versions(events, fields);
    let items = have_items(alloc, events, fields)?;
    Ok(targets && install && versions && items)
}
