//! The command line of the words.
ghost use Rattle.std.specs.Prelude.{◌≡◌, ◌<◌, ◌^◌, length, IfOk};
ghost use Rattle.link_engine.specs.Command.{command_of_line, commanded, crowd_stop, linked_rows};
ghost use Rattle.link_steps.specs.Steps.{Finds, ReturnsAs};
ghost use Rattle.mo_cmd.specs.Command.{workers_by};

use crate::stop::Stop;
use command_line::Command;
use link_steps::StepFault;
use mo_cmd::{CommandLine, Rows, UsageFault, read_words};
use mo_types::{ArgList, Refusal, Which};
use std::alloc::Global;

// What the link has yet: the options of other forms count as unknown.
const LINKED: Rows = Rows::Stripping;

// Each input has a position, a number of 16 bits.
const INPUTS: usize = 1 << 16;

/// The command of the words of a command line after the program's name, and how many workers they name.
pub fn line_of(alloc: Global, words: &ArgList) -> Result<CommandLine, StepFault<Stop>>
    ensures command { ReturnsAs command_of_line (commanded words.now) result }
    ensures workers { IfOk result (λ line. line.threads ≡ workers_by linked_rows words.now) }
{
    match read_words(alloc, LINKED, words) {
        Ok(line) => Ok(line),
        Err(UsageFault::At { word, rule }) => Err(StepFault::Stop(Stop::Usage { word, rule })),
        Err(UsageFault::OutOfMemory) => Err(StepFault::OutOfMemory),
    }
}

/// A command has fewer than 2^16 inputs.
pub fn few_inputs(command: &Command) -> Result<(), StepFault<Stop>>
    ensures exact { Finds (crowd_stop command.now) result }
    ensures few { IfOk result (λ _. length command.now.inputs < 2 ^ 16) }
{
    if command.inputs.len() >= INPUTS {
        return Err(StepFault::Stop(Stop::Refused(Refusal::Limit {
            which: Which::Inputs,
        })));
    }
    Ok(())
}
