//! Where names, symbols and references lead.
ghost use Rattle.std.specs.Prelude.{◌≡◌, ℕ, ◌<◌, IfOk, List, OnOk, Some, length, slice_get, slice_index_or};
ghost use Rattle.std.specs.Option.{option_copied};
ghost use Rattle.lib_bind.specs.declared.library.LibraryGraph.{LibraryGraph};
ghost use Rattle.command_line.specs.declared.command.Command.{Command as Commanded};
ghost use Rattle.mo_types.specs.declared.loaded.LoadedFile.{LoadedFile as Loads};
ghost use Rattle.resolve.specs.Table.{file_goals, goals_of};
ghost use Rattle.mo_types.specs.Loaded.{IsWholeFile, IsWholeLoaded};
ghost use Rattle.mo_types.specs.declared.object.Symbol.{Symbol as Declared};
ghost use Rattle.name_ids.specs.Names.{number_of, numbers_in, numbers_of};
ghost use Rattle.resolve.specs.Goals as goals;
ghost use Rattle.symbol_winners.specs.SymbolTable.{IsSymbolTable};
ghost use Rattle.resolve.specs.inner.Pools.{ArePlaces, AreTables, Extends, IsAt};
ghost use Rattle.resolve.specs.inner.Scoped as scoped;

use crate::scope::Scope;
use crate::table::{FileGoals, GoalTable, PlaceList};
use command_line::Command;
use lib_bind::{Libraries, provider_of};
use mo_types::{Bytes, Goal, Items, Loaded, LoadedFile, OutOfMemory, Target};
use name_ids::{NameTable, NumberList};
use std::alloc::Global;
use symbol_winners::{SymbolTable, Winner, place_of};

fn winner_goal(symbols: &SymbolTable, winner: &Winner) -> Result<Goal, OutOfMemory>
    ensures { IfOk result (λ goal. goal ≡ goals.winner_goal symbols.now.literals winner.now) }
{
    let atom = symbols.representative(winner.atom);
    if winner.weak && winner.exported {
        return Ok(Goal::WeakSelf(winner.name.clone()?, atom, winner.offset));
    }
    Ok(Goal::Def(atom, winner.offset))
}

// Whether a name is that of the image's header.
fn is_header_symbol(dylib: bool, name: &[u8]) -> bool
    ensures { result ≡ goals.is_header_symbol dylib name.now }
{
    if name == b"___dso_handle".as_slice() {
        return true;
    }
    if dylib {
        name == b"__mh_dylib_header".as_slice()
    } else {
        name == b"__mh_execute_header".as_slice()
    }
}

// Where a name leads that has no winner and isn't the header's.
fn outer_goal(alloc: Global, scope: &Scope, name: &[u8]) -> Result<Goal, OutOfMemory>
    ensures { IfOk result (λ goal. goal ≡ scoped.outer_goal scope.now name.now) }
{
    match provider_of(scope.libs, name) {
        Some(provider) => Ok(Goal::Import {
            name: Bytes::from_slice(alloc, name)?,
            ordinal: provider.ordinal,
            by_weak: provider.weak,
            optional: provider.weak_library || scope.symbols.is_weak(name),
        }),
        None => {
            if scope.command.dynamic || scope.symbols.is_flat(name) {
                Ok(Goal::Flat(Bytes::from_slice(alloc, name)?))
            } else {
                Ok(Goal::Nobody)
            }
        }
    }
}

// Where a name leads, by the winner that was found for it.
fn goal_by(
    alloc: Global,
    scope: &Scope,
    name: &[u8],
    winner: Option<&Winner>,
) -> Result<Goal, OutOfMemory>
    ensures { IfOk result (λ goal. goal ≡ scoped.goal_by scope.now name.now (option_copied winner.entry)) }
{
    match winner {
        Some(winner) => winner_goal(scope.symbols, winner),
        None => {
            if is_header_symbol(scope.command.dylib, name) {
                Ok(Goal::Header)
            } else {
                outer_goal(alloc, scope, name)
            }
        }
    }
}

// Where a name leads.
fn name_goal(alloc: Global, scope: &Scope, name: &[u8]) -> Result<Goal, OutOfMemory>
    ensures { IfOk result (λ goal. goal ≡ scoped.name_goal scope.now name.now) }
{
    goal_by(alloc, scope, name, scope.symbols.winner(name))
}

/// Where a name leads: to its winner, else to the header, else to the first library that provides it, else, where the
/// command allows it, to whatever image has it at run time, else nowhere.
pub fn goal_of_name(
    alloc: Global,
    symbols: &SymbolTable,
    libs: &Libraries,
    loaded: &Loaded,
    command: &Command,
    name: &[u8],
) -> Result<Goal, OutOfMemory>
    requires { IsSymbolTable command.now loaded.now.files symbols.now }
    ensures { IfOk result (λ goal. goal ≡ goals.goal_of_name loaded.now.files libs.now command.now name.now) }
{
    let scope = Scope {
        command,
        libs,
        loaded,
        symbols,
    };
    name_goal(alloc, &scope, name)
}

// Where the name of a number leads.
fn numbered_goal(alloc: Global, scope: &Scope, id: u32) -> Result<Goal, OutOfMemory>
    requires { id < length (scoped.names_of scope.now) }
    ensures { IfOk result (λ goal. (name : List ℕ) → slice_get (scoped.names_of scope.now) id ≡ Some name → goal ≡ scoped.name_goal scope.now name) }
{
    let name = scope.symbols.names().name_of(id);
    goal_by(alloc, scope, name, scope.symbols.winner_numbered(id))
}

// Room for the goals of names and of symbols with numbers, so that no goal is moved.
fn room(names: &NameTable, numbers: &[NumberList]) -> usize {
    let mut room = names.len() as usize;
    for list in numbers {
        room = room.saturating_add(list.len());
    }
    room
}

// Where each name of a scope leads, by the names' numbers, with room for the goals of symbols.
fn name_goals(alloc: Global, scope: &Scope, room: usize) -> Result<Vec<Goal>, OutOfMemory>
    ensures { IfOk result (λ pool. pool.items ≡ scoped.name_goals scope.now) }
{
    let names = scope.symbols.names();
    let mut pool = Vec::with_capacity(alloc, room)?;
    for id in 0..names.len() {
        pool.push(numbered_goal(alloc, scope, id)?)?;
    }
    Ok(pool)
}

// Where a file's symbol of an index leads.
#[tactic(auto, unfolding(crate::specs::Goals::goal_of_symbol))]
fn symbol_goal(
    alloc: Global,
    scope: &Scope,
    file: &LoadedFile,
    index: u32,
) -> Result<Goal, OutOfMemory>
    requires whole { IsWholeFile file.now }
    requires index { index < length file.now.object.symbols }
    ensures { IfOk result (λ goal. (d : Declared) → goal ≡ scoped.symbol_goal scope.now file.now index d) }
{
    let symbol = &file.object.symbols.as_slice()[index as usize];
    if symbol.external {
        return name_goal(alloc, scope, symbol.name.as_slice());
    }
    match place_of(file, index) {
        Some(place) => Ok(Goal::Def(scope.symbols.representative(place.atom), place.offset)),
        None => Ok(Goal::Nobody),
    }
}

// Puts a goal at the end of a pool, and answers its place.
#[tactic(auto, using(crate::proofs::PoolLemmas::extends_more, crate::proofs::PoolLemmas::at_end))]
fn put(pool: &mut Vec<Goal>, goal: Goal) -> Result<u32, OutOfMemory>
    ensures goals { OnOk result (Extends pool.old.items pool.new.items) }
    ensures place { IfOk result (λ place. IsAt pool.new.items place goal) }
{
    let Ok(place) = u32::try_from(pool.len()) else {
        return Err(OutOfMemory);
    };
    pool.push(goal)?;
    Ok(place)
}

// The place of the goal of a file's symbol of an index, whose name has this number: the number itself, or, where no name
// has it, the end of the pool, where the goal is put.
fn put_symbol(
    alloc: Global,
    pool: &mut Vec<Goal>,
    scope: &Scope,
    file: &LoadedFile,
    index: u32,
    number: u32,
) -> Result<u32, OutOfMemory>
    requires whole { IsWholeFile file.now }
    requires index { index < length file.now.object.symbols }
    requires number { (d : Declared) → number ≡ number_of (scoped.names_of scope.now) (slice_index_or file.now.object.symbols index d) }
    requires names { Extends (scoped.name_goals scope.now) pool.old.items }
    ensures goals { OnOk result (Extends pool.old.items pool.new.items) }
    ensures place { IfOk result (λ place. (d : Declared) → IsAt pool.new.items place (scoped.symbol_goal scope.now file.now index d)) }
{
    if number < scope.symbols.names().len() {
        return Ok(number);
    }
    put(pool, symbol_goal(alloc, scope, file, index)?)
}

// The places of the goals of a file's symbols, whose names have these numbers.
fn put_symbols(
    alloc: Global,
    pool: &mut Vec<Goal>,
    scope: &Scope,
    file: &LoadedFile,
    numbers: &[u32],
) -> Result<PlaceList, OutOfMemory>
    requires whole { IsWholeFile file.now }
    requires numbers { numbers.now ≡ numbers_in (scoped.names_of scope.now) file.now }
    requires names { Extends (scoped.name_goals scope.now) pool.old.items }
    ensures goals { OnOk result (Extends pool.old.items pool.new.items) }
    ensures places { IfOk result (λ places. ArePlaces pool.new.items places (scoped.symbol_goals scope.now file.now)) }
{
    let mut places = Vec::with_capacity(alloc, numbers.len())?;
    for (index, number) in numbers.iter().enumerate() {
        places.push(put_symbol(alloc, pool, scope, file, index as u32, *number)?)?;
    }
    Ok(Items::from_vec(places))
}

// The places of the goals of all files' symbols, file by file.
fn put_files(
    alloc: Global,
    pool: &mut Vec<Goal>,
    scope: &Scope,
    numbers: &[NumberList],
) -> Result<Items<PlaceList>, OutOfMemory>
    requires whole { IsWholeLoaded scope.now.loaded.now }
    requires numbers { numbers.now ≡ numbers_of (scoped.names_of scope.now) scope.now.loaded.now.files }
    requires names { Extends (scoped.name_goals scope.now) pool.old.items }
    ensures { IfOk result (λ places. AreTables pool.new.items places (scoped.table_of scope.now)) }
{
    let files = scope.loaded.files.as_slice();
    let mut places = Vec::with_capacity(alloc, files.len())?;
    for (at, file) in files.iter().enumerate() {
        places.push(put_symbols(alloc, pool, scope, file, numbers[at].as_slice())?)?;
    }
    Ok(Items::from_vec(places))
}

/// Where the symbols of each file lead, file by file, each list in the order of its file's table. Each name of the link is
/// looked up once: the goals of the names come first in the pool, by their numbers, so that the place of an external
/// symbol's goal is the number of its name.
pub fn goal_table(
    alloc: Global,
    loaded: &Loaded,
    symbols: &SymbolTable,
    numbers: &Items<NumberList>,
    libs: &Libraries,
    command: &Command,
) -> Result<GoalTable, OutOfMemory>
    requires whole { IsWholeLoaded loaded.now }
    requires symbols { IsSymbolTable command.now loaded.now.files symbols.now }
    requires numbers { numbers.now ≡ numbers_of symbols.now.names loaded.now.files }
    ensures { IfOk result (λ table. goals_of table ≡ goals.goal_table loaded.now.files libs.now command.now) }
{
    let numbers = numbers.as_slice();
    let scope = Scope {
        command,
        libs,
        loaded,
        symbols,
    };
    let mut pool = name_goals(alloc, &scope, room(symbols.names(), numbers))?;
    let places = put_files(alloc, &mut pool, &scope, numbers)?;
    Ok(GoalTable::new(pool, places))
}

/// Where a target of a file's reference leads, by the goals that a table has of the file's symbols: a symbol to its goal there,
/// and nowhere where the file has no such symbol; a place in an atom to the same place in the atom that stands for it.
#[tactic(auto, using(crate::proofs::TargetLemmas::goal_is))]
pub fn goal_of(
    symbols: &SymbolTable,
    file: &FileGoals,
    target: &Target,
) -> Result<Goal, OutOfMemory>
    ensures table { IfOk result (λ goal. goal ≡ goals.target_goal symbols.now.literals (file_goals file.now) target.now) }
    ensures meaning { IfOk result (λ goal. (files : List Loads) (graph : LibraryGraph) (command : Commanded) (one : Loads)
        → IsSymbolTable command files symbols.now → file_goals file.now ≡ goals.goals_of_symbols files graph command one
        → goal ≡ goals.goal_of files graph command one target.now) }
{
    match *target {
        Target::Name(index) => match file.get(index as usize) {
            Some(goal) => Ok(goal.clone()?),
            None => Ok(Goal::Nobody),
        },
        Target::Local(atom, offset) => Ok(Goal::Def(symbols.representative(atom), offset)),
    }
}
