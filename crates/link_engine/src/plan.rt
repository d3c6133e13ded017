//! The link up to writing: one line for each step, in the order in which refusals count.
ghost use Rattle.std.specs.Prelude.{ℕ, ◌≡◌, ◌<◌, ◌^◌, List, Ok, length};
ghost use Rattle.file_cache.specs.Kept.{seen};
ghost use Rattle.link_engine.specs.Answered.{Ran};
ghost use Rattle.link_engine.specs.Lines as lines;
ghost use Rattle.link_engine.specs.Verdict as spec;
ghost use Rattle.link_steps.specs.Asking.{Acts};
ghost use Rattle.link_steps.specs.Steps.{Yields};

use crate::bind::bind;
use crate::files::{image_of, load_rounds};
use crate::inputs::{fetch, read};
use crate::stop::Stop;
use crate::words::{few_inputs, line_of};
use command_line::Command;
use file_cache::FileCache;
use input_fetch::ContentList;
use input_files::Inputs;
use lib_bind::Libraries;
use link_steps::StepFault;
use mo_cmd::CommandLine;
use mo_outside::{FileList, Files, Gate};
use mo_types::{ArgList, Bytes};
use std::alloc::Global;
use std::thread::Threads;

/// What a link writes.
#[derive(Debug, Drop)]
pub struct Plan {
    /// The files, each a path with its bytes, in the order in which they are written.
    pub files: FileList,
    /// What is put on the messages once all files are written.
    pub line: Bytes,
}

/// What is to be written for the words and the files, or why nothing is: the first of the steps that stops. No path is asked
/// for of which something is kept.
pub fn make_plan<R: Threads + Sync, F: Files, G: Gate + Sync>(
    rt: &R,
    alloc: Global,
    gate: &G,
    words: &ArgList,
    files: &mut F,
    cache: &mut FileCache,
) -> Result<Plan, StepFault<Stop>>
    ensures { Ran F.answers (λ look. spec.plan_by look words.now) result
        (seen F.holds F.asked F.faults files.old cache.old) (seen F.holds F.asked F.faults files.new cache.new) }
{
    let line = line_of(alloc, words)?;
    plan_for(rt, alloc, gate, &line, files, cache)
}

// The plan for a command line that was read.
fn plan_for<R: Threads + Sync, F: Files, G: Gate + Sync>(
    rt: &R,
    alloc: Global,
    gate: &G,
    line: &CommandLine,
    files: &mut F,
    cache: &mut FileCache,
) -> Result<Plan, StepFault<Stop>>
    ensures { Ran F.answers (λ look. lines.after_command look line.now.command) result
        (seen F.holds F.asked F.faults files.old cache.old) (seen F.holds F.asked F.faults files.new cache.new) }
{
    few_inputs(&line.command)?;
    let found = fetch(alloc, files, cache, &line.command)?;
    plan_from(rt, alloc, gate, line, found, files, cache)
}

// The plan for the bytes of the inputs.
fn plan_from<R: Threads + Sync, F: Files, G: Gate + Sync>(
    rt: &R,
    alloc: Global,
    gate: &G,
    line: &CommandLine,
    found: ContentList,
    files: &mut F,
    cache: &mut FileCache,
) -> Result<Plan, StepFault<Stop>>
    requires size { length found ≡ length line.now.command.inputs }
    requires few { length line.now.command.inputs < 2 ^ 16 }
    ensures { Ran F.answers (λ look. lines.after_inputs look line.now.command found) result
        (seen F.holds F.asked F.faults files.old cache.old) (seen F.holds F.asked F.faults files.new cache.new) }
{
    let (inputs, stubs) = read(rt, alloc, gate, line.threads, &line.command, found)?;
    let libs = bind(alloc, files, cache, &line.command, stubs)?;
    plan_with(rt, alloc, gate, line, inputs, &libs)
}

// The plan for what is bound; no file is asked any more.
fn plan_with<R: Threads + Sync, G: Gate + Sync>(
    rt: &R,
    alloc: Global,
    gate: &G,
    line: &CommandLine,
    inputs: Inputs,
    libs: &Libraries,
) -> Result<Plan, StepFault<Stop>>
    ensures { (start : List (List ℕ)) → Acts (lines.after_libraries line.now.command inputs.inputs libs.now) start result start }
{
    let named = load_rounds(rt, alloc, gate, line.threads, &line.command, inputs, libs)?;
    let image = image_of(rt, alloc, gate, line.threads, &line.command, libs, &named)?;
    plan_of(alloc, &line.command, image)
}

// The image is written to the command's output, and no line is put.
fn plan_of(alloc: Global, command: &Command, image: Bytes) -> Result<Plan, StepFault<Stop>>
    ensures { Yields (Ok (spec.plan_of command.now image)) result }
{
    let mut files = FileList::new(alloc);
    files.push((command.output.clone()?, image))?;
    Ok(Plan {
        files,
        line: Bytes::new(),
    })
}
