//! A text that is read, line by line.

ghost use Rattle.std.specs.Prelude.{◌≡◌, Ok};
ghost use Rattle.mo_types.specs.Gives.{Gives};
ghost use Rattle.yaml_text.specs.FaultText.{IsYamlFault};
ghost use Rattle.std.specs.Str as strings;
ghost use Rattle.tbd_yaml.specs.File as files;

use crate::body::{Body, FlowList, new_body};
use crate::docs::docs_with;
use crate::entries::{with_flow, with_line};
use mo_types::{Bytes, Items, Rule};
use std::alloc::Global;
use yaml_text::{DocList, FlowPlace, FlowStart, YamlFault, YamlFile, is_bare, is_end, tag_of};

/// A document that is open.
#[derive(Drop)]
pub struct OpenDoc {
    pub tag: Bytes,
    pub body: Body,
}

/// A text up to some line: the documents that have ended, and the open one.
#[derive(Drop)]
pub struct Reading {
    pub docs: DocList,
    pub last: Option<OpenDoc>,
}

/// A text before its first line.
pub fn new_reading(alloc: Global) -> Reading
    ensures { result ≡ files.new_reading }
{
    Reading {
        docs: Items::new(alloc),
        last: None,
    }
}

fn with_doc(alloc: Global, tag: Bytes, reading: Reading) -> Result<Reading, YamlFault>
    ensures { Gives IsYamlFault result (Ok (files.with_doc tag reading)) }
{
    let Reading { docs, last } = reading;
    let docs = docs_with(docs, last)?;
    Ok(Reading {
        docs,
        last: Some(OpenDoc {
            tag,
            body: new_body(alloc),
        }),
    })
}

fn with_text(
    alloc: Global,
    number: u32,
    line: &Bytes,
    reading: Reading,
) -> Result<Reading, YamlFault>
    ensures { Gives IsYamlFault result (files.with_text number line.now reading.last reading) }
{
    let Reading { docs, last } = reading;
    match last {
        None => Err(YamlFault::At {
            line: number,
            rule: Rule::Open,
        }),
        Some(open) => {
            let OpenDoc { tag, body } = open;
            let body = with_line(alloc, number, line, body)?;
            Ok(Reading {
                docs,
                last: Some(OpenDoc { tag, body }),
            })
        }
    }
}

#[tactic(auto, unfolding(crate::specs::File::with_block_line))]
fn with_block_line(
    alloc: Global,
    number: u32,
    line: &Bytes,
    reading: Reading,
) -> Result<Reading, YamlFault>
    ensures { Gives IsYamlFault result (files.with_block_line number line.now reading) }
{
    if is_bare(line.as_slice()) {
        return Ok(reading);
    }
    match tag_of(alloc, line.as_slice())? {
        Some(tag) => with_doc(alloc, tag, reading),
        None => with_text(alloc, number, line, reading),
    }
}

/// The flow list that is open.
pub fn flow_in(reading: &Reading) -> Option<FlowList>
    ensures { result ≡ files.flow_in reading.now.last }
{
    match &reading.last {
        None => None,
        Some(open) => open.body.flow,
    }
}

fn with_flow_line(
    alloc: Global,
    number: u32,
    line: &Bytes,
    list: FlowList,
    reading: Reading,
) -> Result<Reading, YamlFault>
    ensures { Gives IsYamlFault result (files.with_flow_line number line.now list reading.last reading) }
{
    let Reading { docs, last } = reading;
    match last {
        None => Ok(Reading { docs, last: None }),
        Some(open) => {
            let OpenDoc { tag, body } = open;
            let place = FlowPlace {
                opened: list.opened,
                line: number,
            };
            let start = FlowStart {
                at: 0,
                spaced: true,
            };
            let body = with_flow(alloc, place, line, start, list.wants, body)?;
            Ok(Reading {
                docs,
                last: Some(OpenDoc { tag, body }),
            })
        }
    }
}

#[tactic(auto, using(crate::proofs::ReadLemmas::utf8))]
fn is_utf8(text: &[u8]) -> bool
    ensures { result ≡ strings.is_utf8 text.now }
{
    match std::str::from_utf8(text) {
        Ok(_) => true,
        Err(_) => false,
    }
}

/// Reads a line.
#[tactic(auto, unfolding(crate::specs::File::with_next))]
pub fn with_next(
    alloc: Global,
    number: u32,
    line: &Bytes,
    reading: Reading,
) -> Result<Reading, YamlFault>
    ensures { Gives IsYamlFault result (files.with_next number line.now reading) }
{
    if !is_utf8(line.as_slice()) {
        return Err(YamlFault::At {
            line: number,
            rule: Rule::Utf8,
        });
    }
    match flow_in(&reading) {
        None => with_block_line(alloc, number, line, reading),
        Some(list) => with_flow_line(alloc, number, line, list, reading),
    }
}

/// Whether a line ends the reading.
#[tactic(auto, unfolding(crate::specs::File::ends))]
pub fn ends(line: &[u8], reading: &Reading) -> bool
    ensures { result ≡ files.ends line.now reading.now }
{
    is_end(line) && is_utf8(line) && flow_in(reading).is_none()
}

/// The file that was read up to the line of a number.
#[tactic(auto, unfolding(crate::specs::File::finished))]
pub fn finished(lines: u32, reading: Reading) -> Result<YamlFile, YamlFault>
    ensures { Gives IsYamlFault result (files.finished lines reading) }
{
    if let Some(list) = flow_in(&reading) {
        return Err(YamlFault::At {
            line: list.opened,
            rule: Rule::Flow,
        });
    }
    if reading.last.is_none() {
        return Err(YamlFault::At {
            line: lines.max(1),
            rule: Rule::Open,
        });
    }
    let Reading { docs, last } = reading;
    Ok(YamlFile {
        docs: docs_with(docs, last)?,
    })
}
