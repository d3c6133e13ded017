ghost use Rattle.std.specs.Prelude.{◌≡◌, IfOk, map, codes, unwrap_or};
ghost use Rattle.std.specs.Option.{option_map};
ghost use Rattle.mo_cmd.specs.Command as command;
ghost use Rattle.mo_cmd.specs.Items.{value_of, values_at};
ghost use Rattle.mo_cmd.specs.Sorted.{IsSorted, sorted_items};

use crate::build::{Numbers, Switches, last_value};
use crate::faults::is_reexport;
use crate::options::{CommandField, CommandOption};
use crate::parts::Part;
use crate::sorted::Sorted;
use crate::values::nth_value;
use command_line::{Command, CommandInput, CommandInputList, InputForm};
use mo_types::{Arg, Bytes, Items, NameList, OutOfMemory};
use std::alloc::Global;

/// The paths and names of a command line.
#[derive(Debug, Drop)]
pub struct Texts {
    pub output: Bytes,
    pub entry: Bytes,
    pub install: Bytes,
    pub syslibroot: Option<Bytes>,
    pub map: Option<Bytes>,
}

/// The lists of names and directories of a command line.
#[derive(Debug, Drop)]
pub struct Names {
    pub roots: NameList,
    pub flats: NameList,
    pub rpaths: NameList,
    pub library_dirs: NameList,
    pub framework_dirs: NameList,
}

/// What a command line says of exported names.
#[derive(Debug, Drop)]
pub struct Exports {
    pub export_files: NameList,
    pub exports: NameList,
    pub unexport_files: NameList,
    pub unexports: NameList,
}

// The first value of each part.
#[tactic(auto, using(crate::proofs::ListLemmas::lists))]
fn values_of(alloc: Global, words: &[Arg], parts: &[Part]) -> Result<NameList, OutOfMemory>
    ensures { IfOk result (λ names. names ≡ map (λ part. value_of (values_at words.now part)) parts.now) }
{
    let mut names = Items::new(alloc);
    for part in parts {
        names.push(Bytes::from_slice(alloc, nth_value(words, *part, 0))?)?;
    }
    Ok(names)
}

#[tactic(auto, using(crate::proofs::ItemLemmas::all_same))]
fn all_values(
    alloc: Global,
    words: &[Arg],
    sorted: &Sorted,
    field: CommandField,
) -> Result<NameList, OutOfMemory>
    requires { IsSorted sorted.now }
    ensures { IfOk result (λ names. names ≡ command.all_values field (sorted_items words.now sorted.now)) }
{
    values_of(alloc, words, sorted.of(field))
}

/// The lists of names and directories that the items of a command line give.
pub fn names_of(alloc: Global, words: &[Arg], sorted: &Sorted) -> Result<Names, OutOfMemory>
    requires { IsSorted sorted.now }
    ensures { IfOk result (λ names. names ≡ command.names_of (sorted_items words.now sorted.now)) }
{
    Ok(Names {
        roots: all_values(alloc, words, sorted, CommandField::Roots)?,
        flats: all_values(alloc, words, sorted, CommandField::Flats)?,
        rpaths: all_values(alloc, words, sorted, CommandField::Rpaths)?,
        library_dirs: all_values(alloc, words, sorted, CommandField::LibraryDirs)?,
        framework_dirs: all_values(alloc, words, sorted, CommandField::FrameworkDirs)?,
    })
}

/// What the items of a command line say of exported names.
pub fn exports_of(alloc: Global, words: &[Arg], sorted: &Sorted) -> Result<Exports, OutOfMemory>
    requires { IsSorted sorted.now }
    ensures { IfOk result (λ exports. exports ≡ command.exports_of (sorted_items words.now sorted.now)) }
{
    Ok(Exports {
        export_files: all_values(alloc, words, sorted, CommandField::ExportFiles)?,
        exports: all_values(alloc, words, sorted, CommandField::Exports)?,
        unexport_files: all_values(alloc, words, sorted, CommandField::UnexportFiles)?,
        unexports: all_values(alloc, words, sorted, CommandField::Unexports)?,
    })
}

fn text_or(alloc: Global, text: Option<&[u8]>, default: &[u8]) -> Result<Bytes, OutOfMemory>
    ensures { IfOk result (λ copy. copy ≡ unwrap_or (option_map (λ text. text.now) text.entry) default.now) }
{
    match text {
        Some(text) => Bytes::from_slice(alloc, text),
        None => Bytes::from_slice(alloc, default),
    }
}

fn text_of(alloc: Global, text: Option<&[u8]>) -> Result<Option<Bytes>, OutOfMemory>
    ensures { IfOk result (λ copy. copy ≡ option_map (λ text. text.now) text.entry) }
{
    match text {
        Some(text) => Ok(Some(Bytes::from_slice(alloc, text)?)),
        None => Ok(None),
    }
}

/// The paths and names that the items of a command line give.
pub fn texts_of(alloc: Global, words: &[Arg], sorted: &Sorted) -> Result<Texts, OutOfMemory>
    requires { IsSorted sorted.now }
    ensures { IfOk result (λ texts. texts ≡ command.texts_of (sorted_items words.now sorted.now)) }
{
    let output = text_or(
        alloc,
        last_value(words, sorted, CommandField::Output, 0),
        b"a.out",
    )?;
    let install = text_or(
        alloc,
        last_value(words, sorted, CommandField::Install, 0),
        output.as_slice(),
    )?;
    Ok(Texts {
        output,
        entry: text_or(
            alloc,
            last_value(words, sorted, CommandField::Entry, 0),
            b"_main",
        )?,
        install,
        syslibroot: text_of(
            alloc,
            last_value(words, sorted, CommandField::Syslibroot, 0),
        )?,
        map: text_of(alloc, last_value(words, sorted, CommandField::Map, 0))?,
    })
}

fn input_form(option: CommandOption) -> InputForm
    ensures { result ≡ command.input_form option }
{
    match option {
        CommandOption::Library
        | CommandOption::WeakLibraryNamed
        | CommandOption::ReexportLibraryNamed => InputForm::Library,
        CommandOption::Framework
        | CommandOption::WeakFramework
        | CommandOption::ReexportFramework => InputForm::Framework,
        _ => InputForm::Path,
    }
}

fn is_weak(option: CommandOption) -> bool
    ensures { result ≡ command.is_weak option }
{
    matches!(
        option,
        CommandOption::WeakLibraryNamed | CommandOption::WeakFramework | CommandOption::WeakLibrary
    )
}

fn is_forced(option: CommandOption) -> bool
    ensures { result ≡ command.is_forced option }
{
    matches!(option, CommandOption::ForceLoad)
}

fn input_of(alloc: Global, option: CommandOption, value: &[u8]) -> Result<CommandInput, OutOfMemory>
    ensures { IfOk result (λ input. input ≡ command.input_of option value.now) }
{
    Ok(CommandInput {
        form: input_form(option),
        value: Bytes::from_slice(alloc, value)?,
        weak: is_weak(option),
        reexport: is_reexport(option),
        forced: is_forced(option),
    })
}

#[tactic(auto, using(crate::proofs::ListLemmas::lists))]
fn inputs_at(alloc: Global, words: &[Arg], parts: &[Part]) -> Result<CommandInputList, OutOfMemory>
    ensures { IfOk result (λ inputs. inputs ≡ map (λ part. command.input_of part.option (value_of (values_at words.now part))) parts.now) }
{
    let mut inputs = Items::new(alloc);
    for part in parts {
        inputs.push(input_of(alloc, part.option, nth_value(words, *part, 0))?)?;
    }
    Ok(inputs)
}

/// The inputs of a command line, in order.
#[tactic(auto, using(crate::proofs::ItemLemmas::inputs_same))]
pub fn inputs_of(
    alloc: Global,
    words: &[Arg],
    sorted: &Sorted,
) -> Result<CommandInputList, OutOfMemory>
    requires { IsSorted sorted.now }
    ensures { IfOk result (λ inputs. inputs ≡ command.inputs_of (sorted_items words.now sorted.now)) }
{
    inputs_at(alloc, words, sorted.of(CommandField::Inputs))
}

/// The command of its parts.
pub fn assembled(
    switches: Switches,
    numbers: Numbers,
    texts: Texts,
    names: Names,
    exports: Exports,
    inputs: CommandInputList,
) -> Command
    ensures { result ≡ command.assembled switches numbers texts names exports inputs }
{
    Command {
        dylib: switches.dylib,
        all_load: switches.all_load,
        dead_strip: switches.dead_strip,
        dynamic: switches.dynamic,
        opcodes: switches.opcodes,
        fold: switches.fold,
        export_given: switches.export_given,
        output: texts.output,
        entry: texts.entry,
        install: texts.install,
        min: numbers.min,
        sdk: numbers.sdk,
        current: numbers.current,
        compatible: numbers.compatible,
        headerpad: numbers.headerpad,
        reach: numbers.reach,
        generate: numbers.generate,
        roots: names.roots,
        flats: names.flats,
        rpaths: names.rpaths,
        library_dirs: names.library_dirs,
        framework_dirs: names.framework_dirs,
        export_files: exports.export_files,
        exports: exports.exports,
        unexport_files: exports.unexport_files,
        unexports: exports.unexports,
        syslibroot: texts.syslibroot,
        map: texts.map,
        inputs,
    }
}

/// The command of a command line without a fault.
#[tactic(auto, unfolding(crate::specs::Command::command_from))]
pub fn command_from(
    alloc: Global,
    words: &[Arg],
    sorted: &Sorted,
    switches: Switches,
    numbers: Numbers,
) -> Result<Command, OutOfMemory>
    requires sorted { IsSorted sorted.now }
    requires switches { switches ≡ command.switches_of (sorted_items words.now sorted.now) }
    requires numbers { numbers ≡ command.numbers_of (sorted_items words.now sorted.now) }
    ensures { IfOk result (λ made. made ≡ command.command_from (sorted_items words.now sorted.now)) }
{
    let texts = texts_of(alloc, words, sorted)?;
    let names = names_of(alloc, words, sorted)?;
    let exports = exports_of(alloc, words, sorted)?;
    let inputs = inputs_of(alloc, words, sorted)?;
    Ok(assembled(switches, numbers, texts, names, exports, inputs))
}
