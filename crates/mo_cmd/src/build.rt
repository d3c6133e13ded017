ghost use Rattle.std.specs.Prelude.{◌≡◌, ℕ, List, codes};
ghost use Rattle.std.specs.Option.{option_map};
ghost use Rattle.mo_cmd.specs.Command as command;
ghost use Rattle.mo_cmd.specs.Numbers as number;
ghost use Rattle.mo_cmd.specs.Sorted.{IsSorted, sorted_items};

use crate::faults::Whole;
use crate::numbers::{functions, pad, reach, threads, version};
use crate::options::{CommandField, CommandOption};
use crate::parts::Part;
use crate::sorted::Sorted;
use crate::values::nth_value;
use mo_types::Arg;

/// What a command line turns on.
#[derive(Clone, Copy, Debug)]
pub struct Switches {
    pub dylib: bool,
    pub all_load: bool,
    pub dead_strip: bool,
    pub dynamic: bool,
    pub opcodes: bool,
    pub fold: bool,
    pub export_given: bool,
}

/// The numbers of a command line.
#[derive(Clone, Copy, Debug)]
pub struct Numbers {
    pub min: u32,
    pub sdk: u32,
    pub current: u32,
    pub compatible: u32,
    pub headerpad: u32,
    pub threads: u32,
    pub reach: u32,
    pub generate: u32,
}

/// A value of the last item of a field, by its number.
#[tactic(auto, using(crate::proofs::ItemLemmas::lasts))]
pub fn last_value<'w>(
    words: &'w [Arg],
    sorted: &Sorted,
    field: CommandField,
    number: usize,
) -> Option<&'w [u8]>
    requires { IsSorted sorted.now }
    ensures { option_map (λ text. text.now) result ≡ option_map (command.value_number number) (command.last_values field (sorted_items words.now sorted.now)) }
{
    match sorted.last(field) {
        Some(part) => Some(nth_value(words, part, number)),
        None => None,
    }
}

#[tactic(auto, using(crate::proofs::ItemLemmas::given_count))]
fn is_given(sorted: &Sorted, field: CommandField) -> bool
    requires { IsSorted sorted.now }
    ensures { (words : List (List ℕ)) → result ≡ command.is_given field (sorted_items words sorted.now) }
{
    !sorted.of(field).is_empty()
}

fn option_of(part: Option<Part>) -> Option<CommandOption>
    ensures { result ≡ option_map (λ part. part.option) part }
{
    match part {
        Some(part) => Some(part.option),
        None => None,
    }
}

#[tactic(auto, using(crate::proofs::ItemLemmas::last_option_same))]
fn last_option(sorted: &Sorted, field: CommandField) -> Option<CommandOption>
    requires { IsSorted sorted.now }
    ensures { (words : List (List ℕ)) → result ≡ command.last_option field (sorted_items words sorted.now) }
{
    option_of(sorted.last(field))
}

fn is_dylib(option: Option<CommandOption>) -> bool
    ensures { result ≡ command.is_dylib option }
{
    matches!(option, Some(CommandOption::Dylib))
}

fn is_opcodes(option: Option<CommandOption>) -> bool
    ensures { result ≡ command.is_opcodes option }
{
    matches!(option, Some(CommandOption::NoFixupChains))
}

fn is_text(wanted: &[u8], text: Option<&[u8]>) -> bool
    ensures { result ≡ command.is_text wanted.now (option_map (λ text. text.now) text.entry) }
{
    match text {
        Some(text) => text == wanted,
        None => false,
    }
}

/// What the items of a command line turn on.
pub fn switches_of(words: &[Arg], sorted: &Sorted) -> Switches
    requires { IsSorted sorted.now }
    ensures { result ≡ command.switches_of (sorted_items words.now sorted.now) }
{
    let undefined = last_value(words, sorted, CommandField::Undefined, 0);
    let folding = last_value(words, sorted, CommandField::Folding, 0);
    Switches {
        dylib: is_dylib(last_option(sorted, CommandField::Kind)),
        all_load: is_given(sorted, CommandField::AllLoad),
        dead_strip: is_given(sorted, CommandField::DeadStrip),
        dynamic: is_text(b"dynamic_lookup", undefined),
        opcodes: is_opcodes(last_option(sorted, CommandField::Fixups)),
        fold: is_text(b"all", folding),
        export_given: is_given(sorted, CommandField::ExportFiles)
            || is_given(sorted, CommandField::Exports),
    }
}

fn version_or(default: u32, text: Option<&[u8]>) -> u32
    ensures { result ≡ command.number_or number.version_of default (option_map (λ text. text.now) text.entry) }
{
    match text {
        Some(text) => version(text).unwrap_or(default),
        None => default,
    }
}

fn pad_or(default: u32, text: Option<&[u8]>) -> u32
    ensures { result ≡ command.number_or number.pad_of default (option_map (λ text. text.now) text.entry) }
{
    match text {
        Some(text) => pad(text).unwrap_or(default),
        None => default,
    }
}

fn threads_or(default: u32, text: Option<&[u8]>) -> u32
    ensures { result ≡ command.number_or number.threads_of default (option_map (λ text. text.now) text.entry) }
{
    match text {
        Some(text) => threads(text).unwrap_or(default),
        None => default,
    }
}

fn reach_or(default: u32, text: Option<&[u8]>) -> u32
    ensures { result ≡ command.number_or number.reach_of default (option_map (λ text. text.now) text.entry) }
{
    match text {
        Some(text) => reach(text).unwrap_or(default),
        None => default,
    }
}

fn functions_or(default: u32, text: Option<&[u8]>) -> u32
    ensures { result ≡ command.number_or number.functions_of default (option_map (λ text. text.now) text.entry) }
{
    match text {
        Some(text) => functions(text).unwrap_or(default),
        None => default,
    }
}

/// The numbers that the items of a command line give.
pub fn numbers_of(words: &[Arg], sorted: &Sorted) -> Numbers
    requires { IsSorted sorted.now }
    ensures { result ≡ command.numbers_of (sorted_items words.now sorted.now) }
{
    Numbers {
        min: version_or(
            0x000b_0000,
            last_value(words, sorted, CommandField::Platform, 1),
        ),
        sdk: version_or(
            0x000b_0000,
            last_value(words, sorted, CommandField::Platform, 2),
        ),
        current: version_or(0, last_value(words, sorted, CommandField::Current, 0)),
        compatible: version_or(0, last_value(words, sorted, CommandField::Compatible, 0)),
        headerpad: pad_or(0x20, last_value(words, sorted, CommandField::Headerpad, 0)),
        threads: threads_or(4, last_value(words, sorted, CommandField::Threads, 0)),
        reach: reach_or(
            134_217_728,
            last_value(words, sorted, CommandField::Reach, 0),
        ),
        generate: functions_or(0, last_value(words, sorted, CommandField::Generate, 0)),
    }
}

fn index_of(part: Option<Part>) -> Option<usize>
    ensures { result ≡ command.index_of part }
{
    match part {
        Some(part) => Some(part.at),
        None => None,
    }
}

fn narrow_of(opcodes: bool, pad: u32, last: Option<Part>) -> Option<usize>
    ensures { result ≡ command.narrow_of opcodes pad last }
{
    if opcodes && pad < 16 {
        index_of(last)
    } else {
        None
    }
}

/// What a rule on one part needs to know of the whole command line.
pub fn whole_of(sorted: &Sorted, switches: Switches, numbers: Numbers) -> Whole
    requires { IsSorted sorted.now }
    ensures { result ≡ command.whole_of sorted.now.parts switches numbers }
{
    Whole {
        dylib: switches.dylib,
        narrow: narrow_of(
            switches.opcodes,
            numbers.headerpad,
            sorted.last(CommandField::Headerpad),
        ),
    }
}

/// Whether an item names an input.
pub fn has_input(sorted: &Sorted) -> bool
    requires { IsSorted sorted.now }
    ensures { (words : List (List ℕ)) → result ≡ command.has_input (sorted_items words sorted.now) }
{
    is_given(sorted, CommandField::Inputs) || is_given(sorted, CommandField::Generate)
}
