ghost use Rattle.std.specs.Prelude.{◌≡◌, ◌<◌, length, All, IfOk};
ghost use Rattle.mo_cmd.specs.Parts as parts;

use crate::options::{CommandOption, option_named};
use mo_types::{Arg, Items, OutOfMemory};
use std::alloc::Global;

/// Which rows of the table of options count: each form of the link has those of the forms before it, and a word that its
/// rows don't have is unknown.
#[derive(Clone, Copy, Debug, PartialEq, Eq)]
pub enum Rows {
    /// Objects by their paths, the path of the image and the number of workers.
    Objects,
    /// Archives and libraries with where they are looked for, the machine and the platform, and what becomes of names.
    Libraries,
    /// What isn't reached may be left out.
    Stripping,
    /// Dynamic libraries, what is exported, and the map.
    Exports,
    /// How far branches reach, and functions that are made as inputs.
    Islands,
    /// Fixups as opcodes.
    Opcodes,
    /// All of them: identical code may be folded too.
    All,
}

/// An option or a path of the command line, and the index of its word.
#[derive(Clone, Copy, Debug, PartialEq, Eq)]
pub struct Part {
    pub option: CommandOption,
    pub at: usize,
}

/// The parts of a command line, in the order of their words.
pub type PartList = Items<Part>;

/// Whether a NUL stands in a word.
pub fn has_nul(word: &[u8]) -> bool
    ensures { result ≡ parts.has_nul word.now }
{
    word.contains(&0)
}

fn is_plain(word: &[u8]) -> bool
    ensures { result ≡ parts.is_plain word.now }
{
    match word {
        [] => false,
        [byte, ..] => *byte != b'-',
    }
}

fn is_attached(option: CommandOption, word: &[u8]) -> bool
    ensures { result ≡ parts.is_attached option word.now }
{
    let name = option.name();
    name.len() < word.len() && word.starts_with(name)
}

fn option_attached(word: &[u8]) -> CommandOption
    ensures { result ≡ parts.option_attached word.now }
{
    if is_attached(CommandOption::LibraryDir, word) {
        CommandOption::LibraryDir
    } else if is_attached(CommandOption::FrameworkDir, word) {
        CommandOption::FrameworkDir
    } else if is_attached(CommandOption::Library, word) {
        CommandOption::Library
    } else if is_attached(CommandOption::WeakLibraryNamed, word) {
        CommandOption::WeakLibraryNamed
    } else if is_attached(CommandOption::ReexportLibraryNamed, word) {
        CommandOption::ReexportLibraryNamed
    } else {
        CommandOption::Unknown
    }
}

#[tactic(auto, unfolding(crate::specs::Parts::option_of))]
fn option_of(word: &[u8]) -> CommandOption
    ensures { result ≡ parts.option_of word.now }
{
    if has_nul(word) {
        return CommandOption::Unknown;
    }
    if is_plain(word) {
        return CommandOption::Path;
    }
    match option_named(word) {
        Some(option) => option,
        None => option_attached(word),
    }
}

// The first form of the link that has an option.
fn since(option: CommandOption) -> Rows
    ensures { result ≡ parts.since option }
{
    match option {
        CommandOption::Path
        | CommandOption::Unknown
        | CommandOption::Output
        | CommandOption::Threads => Rows::Objects,
        CommandOption::DeadStrip => Rows::Stripping,
        CommandOption::Dylib
        | CommandOption::InstallName
        | CommandOption::DylibInstallName
        | CommandOption::CurrentVersion
        | CommandOption::DylibCurrentVersion
        | CommandOption::CompatibilityVersion
        | CommandOption::DylibCompatibilityVersion
        | CommandOption::ReexportFramework
        | CommandOption::ReexportLibrary
        | CommandOption::ReexportLibraryNamed
        | CommandOption::ExportedSymbolsList
        | CommandOption::ExportedSymbol
        | CommandOption::UnexportedSymbolsList
        | CommandOption::UnexportedSymbol
        | CommandOption::Map => Rows::Exports,
        CommandOption::BranchReach | CommandOption::Generate => Rows::Islands,
        CommandOption::NoFixupChains => Rows::Opcodes,
        CommandOption::Icf => Rows::All,
        _ => Rows::Libraries,
    }
}

// Where a form of the link stands among all.
fn number(rows: Rows) -> u8
    ensures { result ≡ parts.number rows }
{
    match rows {
        Rows::Objects => 0,
        Rows::Libraries => 1,
        Rows::Stripping => 2,
        Rows::Exports => 3,
        Rows::Islands => 4,
        Rows::Opcodes => 5,
        Rows::All => 6,
    }
}

fn among(rows: Rows, option: CommandOption) -> CommandOption
    ensures { result ≡ parts.among rows option }
{
    if number(since(option)) <= number(rows) {
        option
    } else {
        CommandOption::Unknown
    }
}

/// The parts of a command line, in the order of their words.
#[tactic(auto, using(crate::proofs::PartLemmas::walking))]
pub fn parts_of(alloc: Global, rows: Rows, words: &[Arg]) -> Result<PartList, OutOfMemory>
    ensures exact { IfOk result (λ found. found ≡ parts.parts_of rows words.now) }
    ensures within { IfOk result (λ found. All (λ part. part.at < length words.now) found) }
{
    let mut found = Items::new(alloc);
    let mut skipped = 0;
    for (at, word) in words.iter().enumerate() {
        if skipped > 0 {
            skipped -= 1;
        } else {
            let option = among(rows, option_of(word.as_bytes()));
            found.push(Part { option, at })?;
            skipped = option.values();
        }
    }
    Ok(found)
}
