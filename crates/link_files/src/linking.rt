//! From loaded files to their image: a line of steps, each of which may refuse.
ghost use Rattle.std.specs.Prelude.{◌≡◌, All};
ghost use Rattle.link_steps.specs.Steps.{Meets};
ghost use Rattle.mo_types.specs.Loaded.{IsWholeLoaded};
ghost use Rattle.name_ids.specs.Names.{AreNames, numbers_of};
ghost use Rattle.symbol_winners.specs.SymbolTable.{IsSymbolTable};
ghost use Rattle.input_files.specs.Files.{HasUnwinds, IsLow};
ghost use Rattle.link_files.specs.Linked.{AsWon, IsLinked};
ghost use Rattle.link_files.specs.Names.{wanted};

use crate::bound::{all_met, few_imports, needed_slots};
use crate::duplicates::defined_once;
use crate::image::image_of;
use crate::keeping::kept_keys;
use crate::lost::all_defined;
use crate::names::few_atoms;
use crate::racing::raced_words;
use crate::resolved::{Inputs, Kept, Resolved};
use crate::unwinding::{few_personalities, none_by_dwarf};
use command_line::Command;
use lib_bind::Libraries;
use link_steps::StepFault;
use mo_outside::Gate;
use mo_types::{Bytes, Refusal};
use name_ids::{NamedFiles, Numbered};
use resolve::{goal_of_name, goal_table};
use std::alloc::Global;
use std::thread::Threads;
use symbol_winners::{SymbolTable, winners};
use unwind_link::kept_unwinds;

/// The image of loaded files, whose names and those that the command line wants are numbered in any order, written by so many
/// workers; or the first refusal of these: 2^24 atoms; a name with two strong definitions; one that is referred to or wanted
/// and leads nowhere; a frame that only DWARF describes; four personalities; 2^24 imports; a reference that tells an address
/// which another image has; an image of 2^32 bytes; a value that is out of range. The answer is the same for every number of
/// workers.
#[tactic(auto, unfolding(link_steps::specs::Steps::unless))]
pub fn link_files<R: Threads + Sync, G: Gate + Sync>(
    rt: &R,
    alloc: Global,
    gate: &G,
    threads: u32,
    command: &Command,
    libs: &Libraries,
    named: &NamedFiles,
) -> Result<Bytes, StepFault<Refusal>>
    requires whole { IsWholeLoaded named.now.loaded }
    requires low { All IsLow named.now.loaded.files }
    requires unwinds { All HasUnwinds named.now.loaded.files }
    requires names { AreNames named.now.loaded.files (wanted command.now) named.now.numbered.names }
    requires numbers { named.now.numbered.numbers ≡ numbers_of named.now.numbered.names named.now.loaded.files }
    ensures { Meets (IsLinked command.now libs.now named.now.loaded.files) result }
{
    let NamedFiles { loaded, numbered } = named;
    let Numbered { names, numbers } = numbered;
    few_atoms(loaded.files.as_slice())?;
    defined_once(alloc, named)?;
    let words = raced_words(rt, alloc, gate, threads, named)?;
    let symbols = winners(alloc, loaded, names, numbers, words.as_slice(), command)?;
    let inputs = Inputs {
        threads,
        command,
        libs,
        named,
    };
    link_winners(rt, alloc, gate, &inputs, &symbols)
}

// All steps that follow the winners of the names.
#[tactic(auto, unfolding(link_steps::specs::Steps::unless))]
fn link_winners<R: Threads + Sync, G: Gate + Sync>(
    rt: &R,
    alloc: Global,
    gate: &G,
    inputs: &Inputs,
    symbols: &SymbolTable,
) -> Result<Bytes, StepFault<Refusal>>
    requires whole { IsWholeLoaded inputs.now.named.now.loaded }
    requires low { All IsLow inputs.now.named.now.loaded.files }
    requires unwinds { All HasUnwinds inputs.now.named.now.loaded.files }
    requires symbols { IsSymbolTable inputs.now.command.now inputs.now.named.now.loaded.files symbols.now }
    requires numbers { inputs.now.named.now.numbered.numbers ≡ numbers_of symbols.now.names inputs.now.named.now.loaded.files }
    ensures { Meets (AsWon inputs.now.command.now inputs.now.libs.now inputs.now.named.now.loaded.files symbols.now) result }
{
    let Inputs {
        threads,
        command,
        libs,
        named,
    } = *inputs;
    let NamedFiles { loaded, numbered } = named;
    let numbers = &numbered.numbers;
    let goals = goal_table(alloc, loaded, symbols, numbers, libs, command)?;
    let start = command.entry.as_slice();
    let entry = goal_of_name(alloc, symbols, libs, loaded, command, start)?;
    let resolved = Resolved {
        command,
        libs,
        loaded,
        symbols,
        goals: &goals,
        entry: &entry,
    };
    let keys = kept_keys(rt, alloc, gate, threads, &resolved, numbers)?;
    all_defined(alloc, &resolved, &keys)?;
    let unwinds = kept_unwinds(alloc, loaded, &keys)?;
    none_by_dwarf(loaded.files.as_slice(), &unwinds)?;
    let personalities = few_personalities(alloc, &resolved, &unwinds)?;
    let referring = resolved.referring(&keys);
    let slots = needed_slots(alloc, &referring, &personalities)?;
    few_imports(alloc, &referring, &slots)?;
    all_met(&referring)?;
    let kept = Kept {
        keys: &keys,
        unwinds: &unwinds,
        slots: &slots,
    };
    image_of(rt, alloc, gate, threads, &resolved, &kept)
}
