//! Files whose names have winners, and what is kept of them.
ghost use Rattle.std.specs.Prelude.{◌≡◌};
ghost use Rattle.std.specs.Option.{option_copied};
ghost use Rattle.link_files.specs.Bound.{start_of};

use command_line::Command;
use lib_bind::Libraries;
use mo_types::{Goal, KeyList, Loaded};
use name_ids::NamedFiles;
use resolve::GoalTable;
use slot_needs::Referring;
use slot_plan::Slots;
use symbol_winners::SymbolTable;
use unwind_link::KeptUnwinds;

/// Loaded files with the numbers of their names, with how many workers link them, by which command, and with which libraries.
#[derive(Clone, Copy)]
pub(crate) struct Inputs<'c, 'l, 'f> {
    pub threads: u32,
    pub command: &'c Command,
    pub libs: &'l Libraries,
    pub named: &'f NamedFiles,
}

/// Loaded files with the winners of their names, and with where their symbols and the program's entry lead.
#[derive(Clone, Copy)]
pub(crate) struct Resolved<'a> {
    pub command: &'a Command,
    pub libs: &'a Libraries,
    pub loaded: &'a Loaded,
    pub symbols: &'a SymbolTable<'a>,
    /// The goals of each file's symbols.
    pub goals: &'a GoalTable,
    /// Where the program begins.
    pub entry: &'a Goal,
}

/// What an image has of resolved files: the atoms that are kept, with their unwind entries and the slots that these need.
#[derive(Clone, Copy)]
pub(crate) struct Kept<'a> {
    pub keys: &'a KeyList,
    pub unwinds: &'a KeptUnwinds,
    pub slots: &'a Slots,
}

impl<'a> Resolved<'a> {
    /// What refers to something, where these atoms are kept: their references, and an executable's entry.
    pub fn referring(&self, keys: &'a KeyList) -> Referring<'a>
        ensures loaded { result.loaded.now ≡ self.now.loaded.now }
        ensures goals { result.goals.now ≡ self.now.goals.now }
        ensures symbols { result.symbols.now ≡ self.now.symbols.now }
        ensures keys { result.keys.now ≡ keys.now }
        ensures entry { option_copied result.entry ≡ start_of self.now.command.now self.now.entry.now }
    {
        Referring {
            loaded: self.loaded,
            goals: self.goals,
            symbols: self.symbols,
            keys,
            entry: if self.command.dylib {
                None
            } else {
                Some(self.entry)
            },
        }
    }
}
