//! Which block a line belongs to.

ghost use Rattle.std.specs.Prelude.{◌≡◌, if◌then◌else◌, Ok};
ghost use Rattle.mo_types.specs.Gives.{Gives};
ghost use Rattle.yaml_text.specs.FaultText.{IsYamlFault};
ghost use Rattle.tbd_yaml.specs.Blocks as spec;

use crate::block::{Block, BlockStack, Form};
use crate::body::Body;
use crate::key_set::KeySet;
use mo_types::{Bytes, Rule};
use std::alloc::Global;
use yaml_text::{EventList, YamlEvent, YamlFault};

fn is_key_list(form: Form) -> bool
    ensures { result ≡ spec.is_key_list form }
{
    matches!(form, Form::KeyList)
}

fn goes_on(column: usize, item: bool, block: &Block) -> bool
    ensures { result ≡ spec.goes_on column item block.now }
{
    block.column == column && (item || !is_key_list(block.form))
}

/// Ends the blocks that a line's indentation leaves.
#[tactic(auto, using(crate::proofs::BlockLemmas::closes))]
fn closed_to(
    number: u32,
    column: usize,
    item: bool,
    blocks: BlockStack,
    events: EventList,
) -> Result<(BlockStack, EventList), YamlFault>
    ensures { Gives IsYamlFault result (spec.closed_to number column item blocks events) }
{
    let mut blocks = blocks;
    let mut events = events;
    while let Some(block) = blocks.pop() {
        if block.column < column {
            break;
        }
        if goes_on(column, item, &block) {
            blocks.push(block)?;
            return Ok((blocks, events));
        }
        events.push(YamlEvent::End)?;
    }
    Err(YamlFault::At {
        line: number,
        rule: Rule::Indent,
    })
}

fn begins_block(column: usize, item: bool, blocks: &BlockStack) -> bool
    ensures { result ≡ spec.begins_block column item blocks.now }
{
    match blocks.last() {
        None => true,
        Some(block) => block.column < column || (block.column == column && item),
    }
}

fn list_form(column: usize, blocks: &BlockStack) -> Form
    ensures { result ≡ spec.list_form column blocks.now }
{
    match blocks.last() {
        None => Form::List,
        Some(block) => {
            if block.column == column {
                Form::KeyList
            } else {
                Form::List
            }
        }
    }
}

fn opening(form: Form) -> YamlEvent
    ensures { result ≡ spec.opening form }
{
    match form {
        Form::Map => YamlEvent::BeginMap,
        _ => YamlEvent::BeginList,
    }
}

/// Begins a block.
pub fn with_block(alloc: Global, column: usize, form: Form, body: Body) -> Result<Body, YamlFault>
    ensures { Gives IsYamlFault result (Ok (spec.with_block column form body)) }
{
    let mut body = body;
    body.events.push(opening(form))?;
    body.blocks.push(Block {
        column,
        form,
        keys: KeySet::new(alloc),
    })?;
    body.awaits = false;
    Ok(body)
}

/// Makes a value that didn't come the empty scalar.
pub fn answered(body: Body) -> Result<Body, YamlFault>
    ensures { Gives IsYamlFault result (Ok (spec.answered body)) }
{
    let mut body = body;
    if body.awaits {
        body.events.push(YamlEvent::Scalar(Bytes::new()))?;
    }
    body.awaits = false;
    Ok(body)
}

fn closing(number: u32, column: usize, item: bool, body: Body) -> Result<Body, YamlFault>
    ensures { Gives IsYamlFault result (spec.closing number column item body) }
{
    let Body {
        events,
        blocks,
        awaits,
        flow,
    } = body;
    let (blocks, events) = closed_to(number, column, item, blocks, events)?;
    Ok(Body {
        events,
        blocks,
        awaits,
        flow,
    })
}

fn form_of(column: usize, item: bool, blocks: &BlockStack) -> Form
    ensures { result ≡ (if item then spec.list_form column blocks.now else Form.Map) }
{
    if item {
        list_form(column, blocks)
    } else {
        Form::Map
    }
}

/// Makes the block of a line the innermost one.
#[tactic(auto, unfolding(crate::specs::Blocks::placed))]
pub fn placed(
    alloc: Global,
    number: u32,
    column: usize,
    item: bool,
    body: Body,
) -> Result<Body, YamlFault>
    ensures { Gives IsYamlFault result (spec.placed number column item body) }
{
    if body.awaits && begins_block(column, item, &body.blocks) {
        let form = form_of(column, item, &body.blocks);
        return with_block(alloc, column, form, body);
    }
    let body = answered(body)?;
    closing(number, column, item, body)
}
