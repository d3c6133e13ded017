//! What a line adds to its block.

ghost use Rattle.std.specs.Prelude.{◌≡◌, ◌+◌, ◌≤◌, drop, if◌then◌else◌, length, None, Ok, Some, IfSome};
ghost use Rattle.std.specs.Option.{option_map};
ghost use Rattle.mo_types.specs.Gives.{Gives};
ghost use Rattle.yaml_text.specs.Scalars as scalars;
ghost use Rattle.yaml_text.specs.FaultText.{IsYamlFault};
ghost use Rattle.tbd_yaml.specs.Blocks as spec;
ghost use Rattle.yaml_text.specs.inner.Units.{keyed_in};

use crate::block::{Block, BlockStack, Form};
use crate::body::{Body, FlowList};
use crate::places::{placed, with_block};
use mo_types::{Bytes, Rule};
use std::alloc::Global;
use yaml_text::{
    EventList, FlowPlace, FlowStart, FlowState, KeyText, YamlEvent, YamlFault, begins_with, behind,
    behind_mark, blanks, flow_of, is_bare, is_item, key_of, scalar_of, spaces,
};

/// Adds a key to the innermost map.
#[tactic(auto, unfolding(crate::specs::Blocks::with_key))]
fn with_key(number: u32, name: Bytes, body: Body) -> Result<Body, YamlFault>
    ensures { Gives IsYamlFault result (spec.with_key number name body) }
{
    let mut body = body;
    let Some(block) = body.blocks.pop() else {
        return Err(YamlFault::At {
            line: number,
            rule: Rule::Indent,
        });
    };
    let mut block = block;
    if !block.keys.insert(name.clone()?)? {
        return Err(YamlFault::At {
            line: number,
            rule: Rule::Key,
        });
    }
    body.blocks.push(block)?;
    body.events.push(YamlEvent::Key(name))?;
    Ok(body)
}

fn flow_left(opened: u32, closed: bool, wants: bool) -> Option<FlowList>
    ensures { result ≡ (if closed then None else Some (record { opened = opened; wants = wants })) }
{
    if closed {
        None
    } else {
        Some(FlowList { opened, wants })
    }
}

/// Goes on with a flow list, over the rest of a line.
pub fn with_flow(
    alloc: Global,
    place: FlowPlace,
    line: &Bytes,
    start: FlowStart,
    wants: bool,
    body: Body,
) -> Result<Body, YamlFault>
    requires { start.at ≤ length line.now }
    ensures { Gives IsYamlFault result (spec.with_flow place wants start.spaced (drop start.at line.now) body) }
{
    let Body {
        events,
        blocks,
        awaits,
        flow: _,
    } = body;
    let state = flow_of(alloc, place, line, start, wants, events)?;
    let FlowState {
        events,
        wants,
        closed,
        escaped: _,
        spoiled: _,
    } = state;
    Ok(Body {
        events,
        blocks,
        awaits,
        flow: flow_left(place.opened, closed, wants),
    })
}

/// Adds the value at the end of a line.
#[tactic(auto, using(yaml_text::proofs::PlainLemmas::keys), unfolding(crate::specs::Blocks::with_value))]
fn with_value(
    alloc: Global,
    number: u32,
    line: &Bytes,
    at: usize,
    body: Body,
) -> Result<Body, YamlFault>
    requires { at ≤ length line.now }
    ensures { Gives IsYamlFault result (spec.with_value number (drop at line.now) body) }
{
    let mut body = body;
    if begins_with(b'[', &line.as_slice()[at..]) {
        body.events.push(YamlEvent::BeginList)?;
        let place = FlowPlace {
            opened: number,
            line: number,
        };
        let start = FlowStart {
            at: at + 1,
            spaced: false,
        };
        with_flow(alloc, place, line, start, true, body)
    } else {
        let scalar = scalar_of(alloc, line, at, number)?;
        body.events.push(YamlEvent::Scalar(scalar))?;
        Ok(body)
    }
}

#[tactic(auto, using(yaml_text::proofs::PlainLemmas::keys))]
fn with_rest(
    alloc: Global,
    number: u32,
    line: &Bytes,
    at: usize,
    body: Body,
) -> Result<Body, YamlFault>
    requires { at ≤ length line.now }
    ensures { Gives IsYamlFault result (spec.with_rest number (drop at line.now) body) }
{
    let rest = &line.as_slice()[at..];
    if is_bare(rest) {
        let mut body = body;
        body.awaits = true;
        return Ok(body);
    }
    with_value(alloc, number, line, at + blanks(rest), body)
}

fn with_pair(
    alloc: Global,
    number: u32,
    line: &Bytes,
    key: Option<KeyText>,
    body: Body,
) -> Result<Body, YamlFault>
    requires { IfSome key (λ key. key.rest ≤ length line.now) }
    ensures { Gives IsYamlFault result (spec.with_pair number (option_map (keyed_in line.now) key) body) }
{
    match key {
        None => Err(YamlFault::At {
            line: number,
            rule: Rule::Key,
        }),
        Some(key) => {
            let KeyText { name, rest } = key;
            let body = with_key(number, name, body)?;
            with_rest(alloc, number, line, rest, body)
        }
    }
}

fn with_item_at(
    alloc: Global,
    number: u32,
    line: &Bytes,
    at: usize,
    body: Body,
) -> Result<Body, YamlFault>
    requires { at ≤ length line.now }
    ensures { Gives IsYamlFault result (spec.with_item_of number at (drop at line.now) (scalars.key_of (drop at line.now)) body) }
{
    let key = key_of(alloc, line, at)?;
    if key.is_none() {
        return with_value(alloc, number, line, at, body);
    }
    let body = with_block(alloc, at, Form::Map, body)?;
    with_pair(alloc, number, line, key, body)
}

/// Adds the item that stands at a place in a line.
#[tactic(auto, using(crate::proofs::BlockLemmas::items))]
fn with_item(
    alloc: Global,
    number: u32,
    line: &Bytes,
    at: usize,
    body: Body,
) -> Result<Body, YamlFault>
    requires { at + 2 ≤ length line.now }
    ensures { Gives IsYamlFault result (spec.with_item number at (drop at line.now) body) }
{
    let rest = behind_mark(line, at);
    if is_bare(rest) {
        return Err(YamlFault::At {
            line: number,
            rule: Rule::Key,
        });
    }
    with_item_at(alloc, number, line, at + 2 + blanks(rest), body)
}

fn is_map(blocks: &BlockStack) -> bool
    ensures { result ≡ spec.is_map blocks.now }
{
    match blocks.last() {
        None => false,
        Some(block) => matches!(block.form, Form::Map),
    }
}

/// Adds what stands on a line behind its indentation to the innermost block.
#[tactic(auto, using(crate::proofs::BlockLemmas::entries), unfolding(crate::specs::Blocks::with_entry))]
fn with_entry(
    alloc: Global,
    number: u32,
    line: &Bytes,
    column: usize,
    body: Body,
) -> Result<Body, YamlFault>
    requires { column ≤ length line.now }
    ensures { Gives IsYamlFault result (spec.with_entry number column (drop column line.now) body) }
{
    let item = is_item(behind(line, column));
    if is_map(&body.blocks) == item {
        return Err(YamlFault::At {
            line: number,
            rule: Rule::Key,
        });
    }
    if item {
        with_item(alloc, number, line, column, body)
    } else {
        let key = key_of(alloc, line, column)?;
        with_pair(alloc, number, line, key, body)
    }
}

/// Adds a line that is neither blank nor a mark.
#[tactic(auto, unfolding(crate::specs::Blocks::with_line))]
pub fn with_line(alloc: Global, number: u32, line: &Bytes, body: Body) -> Result<Body, YamlFault>
    ensures { Gives IsYamlFault result (spec.with_line number line.now body) }
{
    let column = spaces(line.as_slice());
    let text = &line.as_slice()[column..];
    if begins_with(b'\t', text) {
        return Err(YamlFault::At {
            line: number,
            rule: Rule::Tab,
        });
    }
    let body = placed(alloc, number, column, is_item(text), body)?;
    with_entry(alloc, number, line, column, body)
}
