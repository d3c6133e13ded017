//! Reading words: their parts, the fault of the first part that has one, and the command.

ghost use Rattle.std.specs.Prelude.{◌≡◌, ◌<◌, All, IfOk, length};
ghost use Rattle.mo_types.specs.Gives.{Gives};
ghost use Rattle.mo_cmd.specs.Command as command;
ghost use Rattle.mo_cmd.specs.Command.{IsUsage, command_by, command_in, whole_command_of, workers_by};
ghost use Rattle.mo_cmd.specs.Sorted.{IsSorted, sorted_items};

use crate::build::{Numbers, Switches, has_input, numbers_of, switches_of, whole_of};
use crate::faults::first_fault;
use crate::lists::command_from;
use crate::parts::{Rows, parts_of};
use crate::sorted::Sorted;
use crate::usage_fault::UsageFault;
use command_line::Command;
use mo_types::{Arg, ArgList, UsageRule};
use std::alloc::Global;

/// A command line: the command, of which alone the image is made, and how many workers make it, 1 to 64.
#[derive(Debug, Drop)]
pub struct CommandLine {
    pub command: Command,
    pub threads: u32,
}

fn or_no_input(has_input: bool, fault: Option<UsageFault>) -> Option<UsageFault>
    ensures { result ≡ command.or_no_input has_input fault }
{
    if fault.is_some() || has_input {
        return fault;
    }
    Some(UsageFault::At {
        word: 0,
        rule: UsageRule::NoInput,
    })
}

fn line_fault(
    words: &[Arg],
    sorted: &Sorted,
    switches: Switches,
    numbers: Numbers,
) -> Option<UsageFault>
    requires sorted { IsSorted sorted.now }
    requires within { All (λ part. part.at < length words.now) sorted.now.parts }
    ensures { result ≡ command.line_fault words.now sorted.now.parts switches numbers (command.has_input (sorted_items words.now sorted.now)) }
{
    let whole = whole_of(sorted, switches, numbers);
    let fault = first_fault(whole, words, sorted.parts.as_slice());
    or_no_input(has_input(sorted), fault)
}

#[tactic(auto, using(crate::proofs::ReadLemmas::reading))]
fn read_by(alloc: Global, rows: Rows, words: &[Arg]) -> Result<CommandLine, UsageFault>
    ensures command { Gives IsUsage (command_in result) (command_by rows words.now) }
    ensures workers { IfOk result (λ line. line.threads ≡ workers_by rows words.now) }
{
    let parts = parts_of(alloc, rows, words)?;
    let sorted = Sorted::new(alloc, parts)?;
    let switches = switches_of(words, &sorted);
    let numbers = numbers_of(words, &sorted);
    match line_fault(words, &sorted, switches, numbers) {
        Some(fault) => Err(fault),
        None => Ok(CommandLine {
            command: command_from(alloc, words, &sorted, switches, numbers)?,
            threads: numbers.threads,
        }),
    }
}

/// Reads the words of a command line after the program's name (ld(1)), by the options that a form of the link has: any
/// other one is unknown. The fault of the least word decides.
pub fn read_words(alloc: Global, rows: Rows, words: &ArgList) -> Result<CommandLine, UsageFault>
    ensures command { Gives IsUsage (command_in result) (command_by rows words.now) }
    ensures workers { IfOk result (λ line. line.threads ≡ workers_by rows words.now) }
{
    read_by(alloc, rows, words.as_slice())
}

/// Reads the command of the words of a command line after the program's name, by all options.
pub fn read_all_words(alloc: Global, words: &ArgList) -> Result<Command, UsageFault>
    ensures { Gives IsUsage result (whole_command_of words.now) }
{
    match read_words(alloc, Rows::All, words) {
        Ok(line) => Ok(line.command),
        Err(fault) => Err(fault),
    }
}
