//! Calls of the linker's crates, for scripts in `bench/` to time.
//!
//! The first word names the call, and the others say of what:
//!
//! - `fan WORKERS JOBS STEPS`: jobs of so many steps, shared out by `par_work::fan`
//! - `fill WORKERS ATOMS`: atoms that `image_join::fill` writes into an image
//! - `seal WORKERS BYTES`: an image of so many bytes and its signature that `image_join::seal` seals
//! - `hash WORKERS BYTES`: so many bytes whose pages `sign_adhoc::hash_pages` hashes
//! - `patch ATOMS`: fields that `patch::patch_range` writes, of 4 references an atom
//! - `archive PATH`: an archive that `mo_ar::read_archive` reads
//! - `slots NEEDS GOALS`: needs whose slots `slot_plan::slots` lists
//! - `names FILES NAMES`: names of a thousand external symbols a file, numbered by `name_ids::gather`
//! - `places FILES ATOMS`: files of 250 sections with so many atoms each, laid out by `sect_place`, and a million addresses
//! - `islands COUNT EACH REACH`: so many functions with two branches each, one of which goes far in each so many'th, whose
//!   islands `islands::plan` plans
//! - `closure LIBRARIES NAMES`: libraries with so many names each, which `lib_bind::closure` binds
//! - `unwind FUNCTIONS ENCODINGS EACH`: functions with so many encodings, each of which so many in a row have, whose section
//!   `unwind_out` sizes and writes
//! - `section PATH FUNCTIONS ENCODINGS EACH`: the same, and the section goes to a file
//! - `pointers COUNT NAMES ATOMS`: so many pointers, every second of which is bound to one of so many names, and the others
//!   lead to so many atoms
//! - `chains COUNT NAMES ATOMS`: the same, whose chains `fixup_chain::encode` gives
//! - `imports COUNT`: pointers with so many imports, the first of which can't be on a chain
//! - `kept ATOMS EDGES`, `raced WORKERS ATOMS EDGES`: what so many edges lead to from a thousandth of the atoms, found by
//!   `mark_core::kept_from` and by `mark_race::kept_by`
//! - `entries COUNT KIND`: so many unwind entries, of one of four kinds, read by `unwind_read::unwind_of`
//! - `named COUNT`: a file with so many symbols, every second of which wins its name
//! - `symbols COUNT`: the same, whose symbols `sym_out::write_symbols` writes
//! - `providers LIBRARIES NAMES`: 100,000 names looked up in them by `lib_bind::provider_of`
//! - `image PATH ADDRESS COUNT`: so many pointers of an image, read by `image_read::fixup_at`
//! - `yaml PATH TIMES`: the text of a stub library, read so often by `tbd_yaml::read_yaml`
//! - `stub PATH TIMES`: what it says, read so often by `tbd_doc::read_stubs`
//! - `generate COUNT`: the objects of an input of so many functions, made by `link_gen::generate`
//! - `object PATH COUNT NUMBER`: one of them, which is written to a file
//!
//! A word `then` ends a call's words, and those of another call follow. What each call counted is printed, a line each.
//! The milliseconds that a call took go to standard error, of `fill`, `seal`, `hash`, `patch`, `unwind`, `section`, `chains`,
//! `imports`, `islands`, `kept`, `raced`, `entries`, `symbols` and `generate` the microseconds; `fan`, `image`, `yaml` and `stub` are timed by the program as a whole.
#![tactic(auto)]

mod branches;
mod chains;
mod entries;
mod fields;
mod fixups;
mod given;
mod jobs;
mod keeping;
mod libraries;
mod made;
mod names;
mod needs;
mod objects;
mod once;
mod order;
mod places;
mod plans;
mod seals;
mod symbols;
mod tables;
mod texts;
mod unwinding;

use crate::branches::fill_by;
use crate::chains::{encode_chains, encode_imports, make_pointers};
use crate::entries::read_entries;
use crate::fields::patch_fields;
use crate::fixups::read_fixups;
use crate::jobs::fan_out;
use crate::keeping::{keep, keep_by};
use crate::libraries::{closure_of, providers};
use crate::made::{make_objects, write_object};
use crate::places::places;
use crate::plans::plan_islands;
use crate::seals::{hash_image, seal_image};
use crate::symbols::image_symbols;
use crate::tables::{archive, number_names, slot_lists};
use crate::texts::{read_stub, read_text};
use crate::unwinding::{unwinding, unwinding_to};
use anyhow::{Result, bail};
use std::env;
use std::thread::Threads;

fn numbers_of(rt: &HostRuntime, words: &[String]) -> Result<Vec<u64>> {
    let mut numbers = Vec::new(rt.alloc());
    for word in words {
        numbers.push(word.parse::<u64>()?)?;
    }
    Ok(numbers)
}

fn small(number: u64) -> Result<u32> {
    Ok(u32::try_from(number)?)
}

// Calls on what they make themselves, of two numbers.
fn call_on_pair<T: Threads + Sync>(
    rt: &HostRuntime,
    threads: &T,
    name: &str,
    first: u32,
    second: u32,
) -> Result<()> {
    match name {
        "fill" => fill_by(rt, threads, first, second),
        "seal" => seal_image(rt, threads, first, second),
        "hash" => hash_image(rt, threads, first, second),
        "slots" => slot_lists(rt, first, second),
        "names" => number_names(rt, first, second),
        "places" => places(rt, u16::try_from(first)?, second),
        "closure" => closure_of(rt, u16::try_from(first)?, second),
        "providers" => providers(rt, u16::try_from(first)?, second),
        "kept" => keep(rt, first, second),
        "entries" => read_entries(rt, first, second),
        _ => bail!("want the name of a call of two numbers"),
    }
}

// The same of three numbers.
fn call_on_triple(rt: &HostRuntime, name: &str, first: u32, second: u32, third: u32) -> Result<()> {
    match name {
        "unwind" => {
            let _section = unwinding(rt, first, second, third)?;
            Ok(())
        }
        "pointers" => make_pointers(rt, first, second, third),
        "chains" => encode_chains(rt, first, second, third),
        "islands" => plan_islands(rt, first, second, third),
        _ => bail!("want the name of a call of three numbers"),
    }
}

// The same of one number.
fn call_on_one(rt: &HostRuntime, name: &str, number: u64) -> Result<()> {
    match name {
        "patch" => patch_fields(rt, number),
        "generate" => make_objects(rt, small(number)?),
        "imports" => encode_imports(rt, small(number)?),
        "named" => image_symbols(rt, small(number)?, false),
        "symbols" => image_symbols(rt, small(number)?, true),
        _ => bail!("want the name of a call of one number"),
    }
}

// Calls on what they make themselves.
fn call_on_numbers<T: Threads + Sync>(
    rt: &HostRuntime,
    threads: &T,
    name: &str,
    numbers: &[u64],
) -> Result<()> {
    match numbers {
        [number] => call_on_one(rt, name, *number),
        [first, second] => call_on_pair(rt, threads, name, small(*first)?, small(*second)?),
        [workers, jobs, steps] if name == "fan" => fan_out(
            rt,
            threads,
            small(*workers)?,
            small(*jobs)?,
            small(*steps)?,
        ),
        [workers, atoms, edges] if name == "raced" => {
            keep_by(
                rt,
                threads,
                small(*workers)?,
                small(*atoms)?,
                small(*edges)?,
            )
        }
        [first, second, third] => {
            call_on_triple(rt, name, small(*first)?, small(*second)?, small(*third)?)
        }
        _ => bail!("want the name of a call and its numbers"),
    }
}

// Calls on a file.
fn call_on_file(rt: &HostRuntime, name: &str, path: &str, numbers: &[u64]) -> Result<()> {
    match (name, numbers) {
        ("archive", []) => archive(rt, path),
        ("image", [first, count]) => read_fixups(rt, path, *first, *count),
        ("yaml", [times]) => read_text(rt, path, *times),
        ("stub", [times]) => read_stub(rt, path, *times),
        ("section", [functions, encodings, each]) => unwinding_to(
            rt,
            path,
            small(*functions)?,
            small(*encodings)?,
            small(*each)?,
        ),
        ("object", [count, number]) => write_object(rt, path, *count, *number),
        _ => bail!("want the name of a call, a path and numbers"),
    }
}

fn has_file(name: &str) -> bool {
    name == "archive"
        || name == "image"
        || name == "yaml"
        || name == "stub"
        || name == "section"
        || name == "object"
}

fn call<T: Threads + Sync>(rt: &HostRuntime, threads: &T, words: &[String]) -> Result<()> {
    match words {
        [name, path, rest @ ..] if has_file(name.as_str()) => {
            let numbers = numbers_of(rt, rest)?;
            call_on_file(rt, name.as_str(), path.as_str(), numbers.as_slice())
        }
        [name, rest @ ..] => {
            let numbers = numbers_of(rt, rest)?;
            call_on_numbers(rt, threads, name.as_str(), numbers.as_slice())
        }
        [] => bail!("want the name of a call"),
    }
}

fn main(rt: HostRuntime) -> Result<()> {
    let mut words = Vec::new(rt.alloc());
    for word in env::args(&rt)?.skip(1) {
        words.push(word)?;
    }
    for part in words.split(|word| word.as_str() == "then") {
        call(&rt, &rt, part)?;
    }
    Ok(())
}
