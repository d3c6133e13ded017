//! The symbols of an object.

ghost use Rattle.std.specs.Prelude.{◌≡◌, ◌≤◌, ◌<◌, ◌*◌, ◌+◌, ◌∷◌, ◌++◌, ◌^◌, [], IfOk, OnOk, length, map};
ghost use Rattle.std.specs.List.{flat_map, range_with_len};
ghost use Rattle.mo_format.specs.Symbol.{nlist_bytes};
ghost use Rattle.link_gen.specs.Calls as calls;
ghost use Rattle.link_gen.specs.Symbols as symbols;
ghost use Rattle.link_gen.specs.declared.names.SymbolName.TheVariants.{Function, Weak};

use crate::calls::MadeObject;
use crate::names::{SymbolName, put_string, string_size};
use mo_format::Nlist;
use mo_format::nlist::{N_EXT, N_SECT, N_WEAK_DEF};
use std::alloc::{AllocError, Global};

/// A symbol of a made object.
#[derive(Clone, Copy, Debug, PartialEq, Eq)]
pub struct MadeSymbol {
    pub name: SymbolName,
    /// The offset in the section, in bytes; `None` where another object defines it.
    pub place: Option<u64>,
}

// Appends the object's functions.
#[tactic(auto, using(crate::proofs::Lists::listing))]
fn add_functions(list: &mut Vec<MadeSymbol>, made: MadeObject) -> Result<(), AllocError>
    requires { calls.IsMade made }
    ensures { OnOk result (list.new.items ≡ list.old.items ++ map (symbols.function_symbol made) (range_with_len 0 (calls.function_count made))) }
{
    let first = made.first_function();
    for k in 0..made.function_count() {
        list.push(MadeSymbol {
            name: SymbolName::Function(first + k),
            place: Some(16 * u64::from(k)),
        })?;
    }
    Ok(())
}

// Appends weak functions that the object defines from an offset on.
#[tactic(auto, using(crate::proofs::WeakLemmas::weaks))]
fn add_weaks(list: &mut Vec<MadeSymbol>, start: u64, weaks: &[u32]) -> Result<(), AllocError>
    requires { start + 4 * length weaks.now < 2 ^ 64 }
    ensures { OnOk result (list.new.items ≡ list.old.items ++ symbols.weak_symbols start weaks.now) }
{
    let mut place = start;
    for k in weaks {
        list.push(MadeSymbol {
            name: SymbolName::Weak(*k),
            place: Some(place),
        })?;
        place += 4;
    }
    Ok(())
}

// Appends functions of other objects.
#[tactic(auto, using(crate::proofs::Lists::mapping))]
fn add_outside_functions(list: &mut Vec<MadeSymbol>, outside: &[u32]) -> Result<(), AllocError>
    ensures { OnOk result (list.new.items ≡ list.old.items ++ map symbols.undefined_function outside.now) }
{
    for i in outside {
        list.push(MadeSymbol {
            name: SymbolName::Function(*i),
            place: None,
        })?;
    }
    Ok(())
}

// Appends weak functions of other objects.
#[tactic(auto, using(crate::proofs::Lists::mapping))]
fn add_outside_weaks(list: &mut Vec<MadeSymbol>, outside: &[u32]) -> Result<(), AllocError>
    ensures { OnOk result (list.new.items ≡ list.old.items ++ map symbols.undefined_weak outside.now) }
{
    for k in outside {
        list.push(MadeSymbol {
            name: SymbolName::Weak(*k),
            place: None,
        })?;
    }
    Ok(())
}

/// The symbols that the object defines.
#[tactic(auto, using(crate::proofs::Appends::defining))]
pub fn defined_symbols(
    alloc: Global,
    made: MadeObject,
    weaks: &[u32],
) -> Result<Vec<MadeSymbol>, AllocError>
    requires made { calls.IsMade made }
    requires weaks { weaks.now ≡ calls.own_weaks made }
    requires few { length weaks.now ≤ 4 }
    ensures { IfOk result (λ list. list.items ≡ symbols.defined_symbols made) }
{
    let mut list = Vec::new(alloc);
    add_functions(&mut list, made)?;
    add_main(&mut list, made)?;
    add_weaks(&mut list, 16 * u64::from(made.function_count()), weaks)?;
    Ok(list)
}

// Appends the program's entry, which is the first object's first function.
fn add_main(list: &mut Vec<MadeSymbol>, made: MadeObject) -> Result<(), AllocError>
    ensures { OnOk result (list.new.items ≡ list.old.items ++ symbols.main_symbols made) }
{
    if made.object == 0 {
        list.push(MadeSymbol {
            name: SymbolName::Main,
            place: Some(0),
        })?;
    }
    Ok(())
}

/// Appends the names that other objects define, in the order of their bytes.
#[tactic(auto, using(crate::proofs::Appends::appends))]
pub fn add_undefined(
    list: &mut Vec<MadeSymbol>,
    outside: &[u32],
    outside_weaks: &[u32],
) -> Result<(), AllocError>
    ensures { OnOk result (list.new.items ≡ list.old.items ++ (map symbols.undefined_function outside.now ++ map symbols.undefined_weak outside_weaks.now)) }
{
    add_outside_functions(list, outside)?;
    add_outside_weaks(list, outside_weaks)?;
    Ok(())
}

fn weak_bit(name: SymbolName) -> u16
    ensures { result ≡ symbols.weak_bit name }
{
    match name {
        SymbolName::Weak(_) => N_WEAK_DEF,
        _ => 0,
    }
}

// The entry of a symbol whose name stands at an offset of the strings.
#[tactic(auto, unfolding(crate::specs::Symbols::entry_of))]
fn entry_of(at: u32, symbol: MadeSymbol) -> Nlist
    ensures { result ≡ symbols.entry_of at symbol }
{
    match symbol.place {
        Some(place) => Nlist {
            n_strx: at,
            n_type: N_SECT | N_EXT,
            n_sect: 1,
            n_desc: weak_bit(symbol.name),
            n_value: place,
        },
        None => Nlist {
            n_strx: at,
            n_type: N_EXT,
            n_sect: 0,
            n_desc: 0,
            n_value: 0,
        },
    }
}

/// Appends the entries of symbols, whose names stand one after the other behind the first byte of the strings.
#[tactic(auto, using(crate::proofs::EntryLemmas::entering))]
pub fn put_entries(out: &mut Vec<u8>, list: &[MadeSymbol]) -> Result<(), AllocError>
    requires { length list.now ≤ 1000 }
    ensures { OnOk result (out.new.items ≡ out.old.items ++ flat_map nlist_bytes (symbols.entries_from 1 list.now)) }
{
    let mut at = 1;
    for symbol in list {
        entry_of(at, *symbol).write(out)?;
        at += string_size(symbol.name);
    }
    Ok(())
}

/// The strings: a NUL and the names of all symbols, each with a NUL.
#[tactic(auto, using(crate::proofs::EntryLemmas::stringing), unfolding(crate::specs::Symbols::strings_of))]
pub fn strings_of(alloc: Global, list: &[MadeSymbol]) -> Result<Vec<u8>, AllocError>
    requires { length list.now ≤ 1000 }
    ensures { IfOk result (λ strings. strings.items ≡ symbols.strings_of list.now) }
{
    let mut strings = Vec::with_capacity(alloc, 1 + 9 * list.len())?;
    strings.push(0)?;
    for symbol in list {
        put_string(&mut strings, symbol.name)?;
    }
    Ok(strings)
}
