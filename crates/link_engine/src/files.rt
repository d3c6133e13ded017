//! The files that a link loads, and the image to which they link.
ghost use Rattle.std.specs.Prelude.{◌≡◌, All, IfOk};
ghost use Rattle.link_engine.specs.Verdict.{IsImage, files_for};
ghost use Rattle.link_files.specs.Names.{wanted};
ghost use Rattle.link_steps.specs.Steps.{Meets, ReturnsAs};
ghost use Rattle.input_files.specs.Files.{HasUnwinds, IsLow};
ghost use Rattle.mo_types.specs.Loaded.{IsWholeLoaded};
ghost use Rattle.name_ids.specs.Names.{AreNames, numbers_of};

use crate::stop::{Stop, load_fault, refused};
use command_line::Command;
use input_files::Inputs;
use lib_bind::Libraries;
use link_files::{link_files, wanted_names};
use link_steps::StepFault;
use member_rounds::load;
use mo_outside::Gate;
use mo_types::Bytes;
use name_ids::NamedFiles;
use std::alloc::Global;
use std::thread::Threads;

/// The files that are loaded, round by round, until no more are asked for, with the numbers of their names and of those that
/// the command line wants; or the refusal of the first round that has one.
pub fn load_rounds<R: Threads + Sync, G: Gate + Sync>(
    rt: &R,
    alloc: Global,
    gate: &G,
    threads: u32,
    command: &Command,
    inputs: Inputs,
    libs: &Libraries,
) -> Result<NamedFiles, StepFault<Stop>>
    ensures exact { ReturnsAs (λ named. named.loaded) (files_for command.now inputs.inputs libs.now) result }
    ensures whole { IfOk result (λ named. IsWholeLoaded named.loaded) }
    ensures low { IfOk result (λ named. All IsLow named.loaded.files) }
    ensures unwinds { IfOk result (λ named. All HasUnwinds named.loaded.files) }
    ensures names { IfOk result (λ named. AreNames named.loaded.files (wanted command.now) named.numbered.names) }
    ensures numbers { IfOk result (λ named. named.numbered.numbers ≡ numbers_of named.numbered.names named.loaded.files) }
{
    let wanted = wanted_names(alloc, command)?;
    load(rt, alloc, gate, threads, inputs, libs, &wanted).map_err(load_fault)
}

/// The image to which the loaded files link, or the first refusal.
pub fn image_of<R: Threads + Sync, G: Gate + Sync>(
    rt: &R,
    alloc: Global,
    gate: &G,
    threads: u32,
    command: &Command,
    libs: &Libraries,
    named: &NamedFiles,
) -> Result<Bytes, StepFault<Stop>>
    requires whole { IsWholeLoaded named.now.loaded }
    requires low { All IsLow named.now.loaded.files }
    requires unwinds { All HasUnwinds named.now.loaded.files }
    requires names { AreNames named.now.loaded.files (wanted command.now) named.now.numbered.names }
    requires numbers { named.now.numbered.numbers ≡ numbers_of named.now.numbered.names named.now.loaded.files }
    ensures { Meets (IsImage command.now libs.now named.now.loaded.files) result }
{
    link_files(rt, alloc, gate, threads, command, libs, named).map_err(refused)
}
