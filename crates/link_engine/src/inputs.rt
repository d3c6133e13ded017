//! The inputs of a command: their bytes, and what they are.
ghost use Rattle.std.specs.Prelude.{◌≡◌, ◌<◌, ◌^◌, length, true, All, IfOk};
ghost use Rattle.file_cache.specs.Kept.{seen};
ghost use Rattle.lib_bind.specs.Named.{are_named};
ghost use Rattle.link_engine.specs.Asks.{FetchesInputs};
ghost use Rattle.link_engine.specs.Input as spec;
ghost use Rattle.link_engine.specs.Read.{contents_as};
ghost use Rattle.link_engine.specs.Verdict.{contents_with};
ghost use Rattle.link_steps.specs.Steps.{ReturnsAs};
ghost use Rattle.input_files.specs.Sources.{AreInOrder};

use crate::stop::{Stop, fetch_fault, load_fault};
use command_line::{Command, CommandInput};
use file_cache::FileCache;
use input_fetch::{Content, ContentList, fetch_inputs};
use input_files::{Input, InputList, Inputs};
use input_read::{Opened, open_inputs};
use lib_bind::StubFileList;
use link_steps::StepFault;
use mo_outside::{Files, Gate};
use mo_types::OutOfMemory;
use std::alloc::Global;
use std::thread::Threads;

/// The bytes of a command's inputs, for which files are asked, all of them before the first is read.
pub fn fetch<F: Files>(
    alloc: Global,
    files: &mut F,
    cache: &mut FileCache,
    command: &Command,
) -> Result<ContentList, StepFault<Stop>>
    requires few { length command.now.inputs < 2 ^ 16 }
    ensures exact { FetchesInputs F.answers command.now result
        (seen F.holds F.asked F.faults files.old cache.old) (seen F.holds F.asked F.faults files.new cache.new) }
    ensures size { IfOk result (λ found. length found ≡ length command.now.inputs) }
{
    fetch_inputs(alloc, files, cache, command).map_err(fetch_fault)
}

fn input_at(
    all: bool,
    at: u16,
    input: &CommandInput,
    content: &Content,
) -> Result<Input, OutOfMemory>
    ensures { IfOk result (λ made. made ≡ spec.input_at all at input.now content.now) }
{
    Ok(Input {
        position: at,
        label: content.label.clone()?,
        bytes: content.bytes.clone()?,
        forced: all || input.forced,
    })
}

// The inputs of the command with the bytes that were found, by rising positions.
#[tactic(auto, using(crate::proofs::InputLemmas::makes))]
fn inputs_with(
    alloc: Global,
    command: &Command,
    found: &[Content],
) -> Result<InputList, OutOfMemory>
    requires size { length found.now ≡ length command.now.inputs }
    requires few { length command.now.inputs < 2 ^ 16 }
    ensures exact { IfOk result (λ made. made ≡ spec.inputs_with command.now found.now) }
    ensures order { IfOk result AreInOrder }
    ensures below { IfOk result (λ made. All (λ input. input.position < length command.now.inputs) made) }
{
    let mut made = InputList::new(alloc);
    for (at, input) in command.inputs.as_slice().iter().enumerate() {
        made.push(input_at(command.all_load, at as u16, input, &found[at])?)?;
    }
    Ok(made)
}

/// What the inputs are, each read by one of so many workers: those of which files are loaded, and the stub libraries;
/// or the refusal of the first input that has one. Their bytes are let go.
pub fn read<R: Threads + Sync, G: Gate + Sync>(
    rt: &R,
    alloc: Global,
    gate: &G,
    threads: u32,
    command: &Command,
    found: ContentList,
) -> Result<(Inputs, StubFileList), StepFault<Stop>>
    requires size { length found ≡ length command.now.inputs }
    requires few { length command.now.inputs < 2 ^ 16 }
    ensures exact { ReturnsAs contents_as (contents_with command.now found) result }
    ensures named { IfOk result (λ read. are_named (length command.now.inputs) 0 read.1 ≡ true) }
{
    let inputs = inputs_with(alloc, command, found.as_slice())?;
    let Opened {
        sources,
        objects,
        stubs,
    } = open_inputs(rt, alloc, gate, threads, inputs.as_slice()).map_err(load_fault)?;
    Ok((Inputs { sources, objects }, stubs))
}
