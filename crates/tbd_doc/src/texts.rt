//! Lists of scalars.

ghost use Rattle.std.specs.Prelude.{◌≡◌, ◌==◌, All, IfOk, IfSome, map};
ghost use Rattle.std.specs.List.{list_all, list_any};
ghost use Rattle.std.specs.Option.{option_and_then, option_map};
ghost use Rattle.std.specs.Str.{bytes_eq};
ghost use Rattle.tbd_doc.specs.Forms as forms;
ghost use Rattle.tbd_doc.specs.Nodes as spec;
ghost use Rattle.tbd_doc.specs.Nodes.{text_of, texts_under};
ghost use Rattle.tbd_doc.specs.inner.Places.{IsNode, field_at, tree_at};
ghost use Rattle.tbd_doc.specs.inner.Texts.{text_passes};

use crate::nodes::{is_list, is_scalar, items, text, value};
use mo_types::{Bytes, OutOfMemory};
use std::alloc::Global;
use tbd_yaml::YamlEvent;

/// Whether a text has a NUL.
pub fn has_nul(text: &[u8]) -> bool
    ensures { result ≡ forms.has_nul text.now }
{
    text.iter().any(|byte| *byte == 0)
}

fn nul_at(events: &[YamlEvent], at: usize) -> bool
    requires { IsNode events.now at }
    ensures { result ≡ text_passes forms.has_nul (tree_at events.now at) }
{
    match text(events, at) {
        Some(found) => has_nul(found.as_slice()),
        None => false,
    }
}

fn text_stands(events: &[YamlEvent], at: usize, wanted: &[u8]) -> bool
    requires { IsNode events.now at }
    ensures { result ≡ text_passes (bytes_eq wanted.now) (tree_at events.now at) }
{
    match text(events, at) {
        Some(found) => wanted == found.as_slice(),
        None => false,
    }
}

fn all_scalars(events: &[YamlEvent], places: &[usize]) -> bool
    requires { All (IsNode events.now) places.now }
    ensures { result ≡ list_all (λ place. forms.is_scalar (tree_at events.now place)) places.now }
{
    for place in places {
        if !is_scalar(events, *place) {
            return false;
        }
    }
    true
}

fn any_nul(events: &[YamlEvent], places: &[usize]) -> bool
    requires { All (IsNode events.now) places.now }
    ensures { result ≡ list_any (λ place. text_passes forms.has_nul (tree_at events.now place)) places.now }
{
    for place in places {
        if nul_at(events, *place) {
            return true;
        }
    }
    false
}

fn any_text(events: &[YamlEvent], places: &[usize], wanted: &[u8]) -> bool
    requires { All (IsNode events.now) places.now }
    ensures { result ≡ list_any (λ place. text_passes (bytes_eq wanted.now) (tree_at events.now place)) places.now }
{
    for place in places {
        if text_stands(events, *place, wanted) {
            return true;
        }
    }
    false
}

/// Whether the value of a key is a list of scalars, where it is there.
fn are_texts(alloc: Global, events: &[YamlEvent], value: Option<usize>) -> Result<bool, OutOfMemory>
    requires { IfSome value (IsNode events.now) }
    ensures { IfOk result (λ test. test ≡ forms.are_texts (option_map (tree_at events.now) value)) }
{
    let Some(at) = value else {
        return Ok(true);
    };
    if !is_list(events, at) {
        return Ok(false);
    }
    let items = items(alloc, events, at)?;
    Ok(all_scalars(events, items.as_slice()))
}

/// Whether a text of the list that the value of a key is has a NUL.
pub fn hold_nul(
    alloc: Global,
    events: &[YamlEvent],
    value: Option<usize>,
) -> Result<bool, OutOfMemory>
    requires { IfSome value (IsNode events.now) }
    ensures { IfOk result (λ test. test ≡ list_any forms.has_nul (texts_under (option_map (tree_at events.now) value))) }
{
    let Some(at) = value else {
        return Ok(false);
    };
    let items = items(alloc, events, at)?;
    Ok(any_nul(events, items.as_slice()))
}

/// Whether the list that the value of a key is has a text.
fn hold_text(
    alloc: Global,
    events: &[YamlEvent],
    value: Option<usize>,
    wanted: &[u8],
) -> Result<bool, OutOfMemory>
    requires { IfSome value (IsNode events.now) }
    ensures { IfOk result (λ test. test ≡ list_any (bytes_eq wanted.now) (texts_under (option_map (tree_at events.now) value))) }
{
    let Some(at) = value else {
        return Ok(false);
    };
    let items = items(alloc, events, at)?;
    Ok(any_text(events, items.as_slice(), wanted))
}

/// Whether the list under a key of a map has a text.
#[tactic(auto, unfolding(crate::specs::Forms::has_text))]
pub fn has_text(
    alloc: Global,
    events: &[YamlEvent],
    fields: &[usize],
    key: &[u8],
    wanted: &[u8],
) -> Result<bool, OutOfMemory>
    requires { All (IsNode events.now) fields.now }
    ensures { IfOk result (λ test. test ≡ forms.has_text key.now (map (field_at events.now) fields.now) wanted.now) }
{
    hold_text(alloc, events, value(events, fields, key), wanted)
}

/// Whether a list of scalars stands under a key of a map, or nothing.
pub fn are_texts_at(
    alloc: Global,
    events: &[YamlEvent],
    fields: &[usize],
    key: &[u8],
) -> Result<bool, OutOfMemory>
    requires { All (IsNode events.now) fields.now }
    ensures { IfOk result (λ test. test ≡ forms.are_texts_at key.now (map (field_at events.now) fields.now)) }
{
    are_texts(alloc, events, value(events, fields, key))
}

/// The text under a key of a map, where it is a scalar.
#[tactic(auto, unfolding(crate::specs::Nodes::text_under))]
pub fn text_under<'a>(events: &'a [YamlEvent], fields: &[usize], key: &[u8]) -> Option<&'a Bytes>
    requires { All (IsNode events.now) fields.now }
    ensures { option_map (λ text. text.now) result ≡ spec.text_under key.now (map (field_at events.now) fields.now) }
{
    match value(events, fields, key) {
        Some(at) => text(events, at),
        None => None,
    }
}
