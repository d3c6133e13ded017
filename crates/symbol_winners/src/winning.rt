//! The winners of all names.
ghost use Rattle.std.specs.Prelude.{◌≡◌, IfOk};
ghost use Rattle.mo_types.specs.Loaded.{IsWholeLoaded};
ghost use Rattle.name_ids.specs.Names.{numbers_of};
ghost use Rattle.symbol_winners.specs.Found.{AreNamed};
ghost use Rattle.symbol_winners.specs.SymbolTable.{IsSymbolTable};
ghost use Rattle.symbol_winners.specs.Winners.{AreLeast};

use crate::choosing::{bests_of, index_of, winners_of};
use crate::chosen::chosen_by_name;
use crate::exports::rules_of;
use crate::name_set::set_of;
use crate::symbol_table::SymbolTable;
use crate::weak::weak_of;
use command_line::Command;
use literal_merge::representatives;
use mo_types::{Items, Loaded, OutOfMemory};
use name_ids::{NameTable, NumberList};
use std::alloc::Global;

/// Of each name that files have a candidate for, the one with the least word, and what stands for each literal. The words
/// are those of a race of the names, by their numbers.
pub fn winners<'a>(
    alloc: Global,
    loaded: &'a Loaded,
    names: &'a NameTable,
    numbers: &Items<NumberList>,
    words: &[u64],
    command: &'a Command,
) -> Result<SymbolTable<'a>, OutOfMemory>
    requires whole { IsWholeLoaded loaded.now }
    requires named { AreNamed names.now loaded.now.files }
    requires numbers { numbers.now ≡ numbers_of names.now loaded.now.files }
    requires words { AreLeast loaded.now.files names.now words.now }
    ensures symbols { IfOk result (IsSymbolTable command.now loaded.now.files) }
    ensures names { IfOk result (λ symbols. symbols.names ≡ names.entry.now) }
{
    let files = loaded.files.as_slice();
    let table = bests_of(alloc, names, words, files, numbers)?;
    let chosen = chosen_by_name(alloc, table)?;
    let rules = rules_of(alloc, command)?;
    let list = winners_of(alloc, chosen.as_slice(), &rules)?;
    let index = index_of(alloc, names, chosen.as_slice())?;
    let literals = representatives(alloc, loaded)?;
    let weak = weak_of(alloc, files)?;
    let flats = set_of(alloc, command.flats.as_slice())?;
    Ok(SymbolTable::of_lists(Items::from_vec(list), literals, weak, flats, index))
}
