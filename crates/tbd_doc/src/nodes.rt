//! The nodes of a document, by the places of their first events in the walk through its tree.

ghost use Rattle.std.specs.Prelude.{◌≡◌, ◌+◌, ◌-◌, ◌<◌, ◌^◌, ◌==◌, ◌&&◌, ◌++◌, [], ◌∷◌, All, IfOk, IfSome, drop, if◌then◌else◌, length, map, slice_get, Some};
ghost use Rattle.std.specs.Option.{option_map};
ghost use Rattle.tbd_doc.specs.Forms as forms;
ghost use Rattle.tbd_doc.specs.Nodes.{fields_of, items_of, text_of, value_of};
ghost use Rattle.tbd_doc.specs.inner.Places as spec;
ghost use Rattle.tbd_doc.specs.inner.Places.{IsNode, field_at, key_in, nodes_from, tree_at};

use mo_types::{Bytes, OutOfMemory};
use std::alloc::Global;
use tbd_yaml::YamlEvent;

fn is_end(event: &YamlEvent) -> bool
    ensures { result ≡ spec.is_end event.now }
{
    matches!(event, YamlEvent::End)
}

fn is_node(event: &YamlEvent) -> bool
    ensures { result ≡ spec.is_node event.now }
{
    match event {
        YamlEvent::Scalar(_) | YamlEvent::BeginList | YamlEvent::BeginMap => true,
        YamlEvent::Key(_) | YamlEvent::End => false,
    }
}

// Whether an event ends the block whose nodes are searched for.
fn stops(depth: usize, event: &YamlEvent) -> bool
    ensures { result ≡ (depth == 0 && spec.is_end event.now) }
{
    depth == 0 && is_end(event)
}

// Whether an event begins a node of the block.
fn finds(depth: usize, event: &YamlEvent) -> bool
    ensures { result ≡ (depth == 0 && spec.is_node event.now) }
{
    depth == 0 && is_node(event)
}

// How many blocks are open behind an event.
fn depth_after(depth: usize, event: &YamlEvent) -> usize
    requires { depth < 2 ^ 63 }
    ensures { result ≡ spec.depth_after depth event.now }
{
    match event {
        YamlEvent::End => depth.saturating_sub(1),
        YamlEvent::Scalar(_) | YamlEvent::Key(_) => depth,
        YamlEvent::BeginList | YamlEvent::BeginMap => depth + 1,
    }
}

fn with_place(places: Vec<usize>, here: bool, at: usize) -> Result<Vec<usize>, OutOfMemory>
    ensures { IfOk result (λ more. more.items ≡ (if here then places.items ++ at ∷ [] else places.items)) }
{
    let mut places = places;
    if here {
        places.push(at)?;
    }
    Ok(places)
}

// The places of the nodes within the block that begins at a place.
#[tactic(auto, using(crate::proofs::SearchLemmas::searching))]
fn children(alloc: Global, events: &[YamlEvent], at: usize) -> Result<Vec<usize>, OutOfMemory>
    requires { at < length events.now }
    ensures { IfOk result (λ places. places.items ≡ nodes_from 0 (at + 1) (drop (at + 1) events.now)) }
{
    let mut places = Vec::new(alloc);
    let mut depth = 0;
    let mut next = at + 1;
    while next < events.len() {
        let event = &events[next];
        if stops(depth, event) {
            return Ok(places);
        }
        places = with_place(places, finds(depth, event), next)?;
        depth = depth_after(depth, event);
        next += 1;
    }
    Ok(places)
}

// The event at a place.
fn event_at(events: &[YamlEvent], at: usize) -> &YamlEvent
    requires { at < length events.now }
    ensures { Some result.now ≡ slice_get events.now at }
{
    &events[at]
}

// The first event of the node at a place.
fn first_event(events: &[YamlEvent], at: usize) -> &YamlEvent
    requires { IsNode events.now at }
    ensures { result.now ≡ spec.first_event (tree_at events.now at) }
{
    event_at(events, at)
}

/// Whether a list begins at a place.
pub fn is_list(events: &[YamlEvent], at: usize) -> bool
    requires { IsNode events.now at }
    ensures { result ≡ forms.is_list (tree_at events.now at) }
{
    matches!(first_event(events, at), YamlEvent::BeginList)
}

/// Whether a map begins at a place.
pub fn is_map(events: &[YamlEvent], at: usize) -> bool
    requires { IsNode events.now at }
    ensures { result ≡ forms.is_map (tree_at events.now at) }
{
    matches!(first_event(events, at), YamlEvent::BeginMap)
}

/// Whether a scalar stands at a place.
pub fn is_scalar(events: &[YamlEvent], at: usize) -> bool
    requires { IsNode events.now at }
    ensures { result ≡ forms.is_scalar (tree_at events.now at) }
{
    matches!(first_event(events, at), YamlEvent::Scalar(_))
}

/// The text at a place, if a scalar stands there.
pub fn text(events: &[YamlEvent], at: usize) -> Option<&Bytes>
    requires { IsNode events.now at }
    ensures { option_map (λ text. text.now) result ≡ text_of (tree_at events.now at) }
{
    match first_event(events, at) {
        YamlEvent::Scalar(text) => Some(text),
        _ => None,
    }
}

/// The places of the items of a list; other nodes have none.
#[tactic(auto, using(crate::proofs::SearchLemmas::found))]
pub fn items(alloc: Global, events: &[YamlEvent], at: usize) -> Result<Vec<usize>, OutOfMemory>
    requires { IsNode events.now at }
    ensures items { IfOk result (λ places. map (tree_at events.now) places.items ≡ items_of (tree_at events.now at)) }
    ensures nodes { IfOk result (λ places. All (IsNode events.now) places.items) }
{
    if !is_list(events, at) {
        return Ok(Vec::new(alloc));
    }
    children(alloc, events, at)
}

/// The places of the values of a map; other nodes have none.
#[tactic(auto, using(crate::proofs::SearchLemmas::found))]
pub fn fields(alloc: Global, events: &[YamlEvent], at: usize) -> Result<Vec<usize>, OutOfMemory>
    requires { IsNode events.now at }
    ensures fields { IfOk result (λ places. map (field_at events.now) places.items ≡ fields_of (tree_at events.now at)) }
    ensures nodes { IfOk result (λ places. All (IsNode events.now) places.items) }
{
    if !is_map(events, at) {
        return Ok(Vec::new(alloc));
    }
    children(alloc, events, at)
}

// The key of the value at a place.
#[tactic(auto, using(crate::proofs::SearchLemmas::keys))]
fn key_at(events: &[YamlEvent], at: usize) -> &[u8]
    ensures { result.now ≡ key_in (drop (at - 1) events.now) }
{
    match events.get(at.saturating_sub(1)) {
        Some(YamlEvent::Key(key)) => key.as_slice(),
        _ => b"",
    }
}

/// The place of the value under a key, among the fields of a map.
#[tactic(auto, using(crate::proofs::SearchLemmas::values))]
pub fn value(events: &[YamlEvent], fields: &[usize], key: &[u8]) -> Option<usize>
    requires { All (IsNode events.now) fields.now }
    ensures value { option_map (tree_at events.now) result ≡ value_of key.now (map (field_at events.now) fields.now) }
    ensures node { IfSome result (IsNode events.now) }
{
    for place in fields {
        if key_at(events, *place) == key {
            return Some(*place);
        }
    }
    None
}
