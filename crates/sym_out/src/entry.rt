//! Entries of a symbol table, and their strings.
ghost use Rattle.std.specs.Prelude.{◌≡◌, ◌+◌, ◌<◌, ◌≤◌, ◌*◌, ◌^◌, ◌∷◌, [], ◌++◌, OnOk, length};
ghost use Rattle.std.specs.List.{AllPairs, flat_map};
ghost use Rattle.std.specs.Cmp.Lexicographic.{slice_cmp};
ghost use Rattle.std.specs.Ordering.{nat_cmp};
ghost use Rattle.std.specs.declared.cmp.Ordering.TheVariants.{Less};
ghost use Rattle.mo_format.specs.Symbol.{nlist_bytes};
ghost use Rattle.sym_out.specs.Entries as spec;
ghost use Rattle.sym_out.specs.Sizes as sizes;
ghost use Rattle.sym_out.specs.inner.Written.{Puts};

use mo_format::Nlist;
use mo_types::OutOfMemory;
use std::marker::Model;

/// A symbol of an image (`nlist.h`: `nlist_64`), with its name in place of where that stands.
#[derive(Drop)]
pub(crate) struct Entry<'a> {
    pub name: &'a [u8],
    pub n_value: u64,
    pub n_desc: u16,
    pub n_type: u8,
    pub n_sect: u8,
}

impl<'a> Model for Entry<'a> {
    ghost use Rattle.sym_out.specs.Entries.{Entry as Spelled};

    ghost Value = { Spelled };

    ghost view = { λ entry. record { name = entry.name.now; n_type = entry.n_type; n_sect = entry.n_sect; n_desc = entry.n_desc; n_value = entry.n_value } };
}

/// A number in a field of 32 bits.
pub(crate) fn in_32(number: usize) -> u32
    ensures { result ≡ spec.in_32 number }
{
    (number % (1 << 32)) as u32
}

/// The place of a name among entries by rising names, or `None` exactly where none has it.
pub(crate) fn place_named(entries: &[Entry], name: &[u8]) -> Option<usize>
    requires { AllPairs (λ (a : spec.Entry) (b : spec.Entry). slice_cmp nat_cmp a.name b.name ≡ Less) entries.now }
    ensures { result ≡ spec.place_named entries.now name.now }
{
    match entries.binary_search_by(|entry| entry.name.cmp(name)) {
        Ok(at) => Some(at),
        Err(_) => None,
    }
}

/// How many bytes the strings of entries have.
#[tactic(auto, using(crate::proofs::Sizing::summing))]
pub(crate) fn strings_size(entries: &[Entry]) -> u128
    ensures size { result ≡ sizes.strings_size entries.now }
    ensures small { result ≤ length entries.now * 2 ^ 64 }
{
    let mut total = 0;
    for entry in entries {
        total += entry.name.len() as u128 + 1;
    }
    total
}

// Appends an entry, whose string stands at a place.
fn put_symbol(symbols: &mut Vec<u8>, at: usize, entry: &Entry) -> Result<(), OutOfMemory>
    ensures { OnOk result (symbols.new.items ≡ symbols.old.items ++ nlist_bytes (spec.nlist_of at entry.now)) }
{
    let symbol = Nlist {
        n_strx: in_32(at),
        n_type: entry.n_type,
        n_sect: entry.n_sect,
        n_desc: entry.n_desc,
        n_value: entry.n_value,
    };
    symbol.write(symbols)?;
    Ok(())
}

// Appends the string of an entry.
fn put_string(strings: &mut Vec<u8>, entry: &Entry) -> Result<(), OutOfMemory>
    ensures { OnOk result (strings.new.items ≡ strings.old.items ++ spec.string_of entry.now) }
{
    strings.extend_from_slice(entry.name)?;
    strings.push(0)?;
    Ok(())
}

/// Appends an entry and its string.
pub(crate) fn put_entry(
    symbols: &mut Vec<u8>,
    strings: &mut Vec<u8>,
    entry: &Entry,
) -> Result<(), OutOfMemory>
    ensures symbol { OnOk result (symbols.new.items ≡ symbols.old.items ++ nlist_bytes (spec.nlist_of (length strings.old.items) entry.now)) }
    ensures string { OnOk result (strings.new.items ≡ strings.old.items ++ spec.string_of entry.now) }
{
    put_symbol(symbols, strings.len(), entry)?;
    put_string(strings, entry)?;
    Ok(())
}

// Appends entries, whose strings stand one behind the other from a place on.
fn put_symbols(symbols: &mut Vec<u8>, start: usize, entries: &[Entry]) -> Result<(), OutOfMemory>
    requires { start + length (flat_map spec.string_of entries.now) < 2 ^ 64 }
    ensures { OnOk result (symbols.new.items ≡ symbols.old.items ++ spec.nlists start entries.now) }
{
    let mut at = start;
    for entry in entries {
        put_symbol(symbols, at, entry)?;
        at += entry.name.len() + 1;
    }
    Ok(())
}

// Appends the strings of entries.
#[tactic(auto, using(crate::proofs::Loops::putting))]
fn put_strings(strings: &mut Vec<u8>, entries: &[Entry]) -> Result<(), OutOfMemory>
    ensures { OnOk result (strings.new.items ≡ strings.old.items ++ flat_map spec.string_of entries.now) }
{
    for entry in entries {
        put_string(strings, entry)?;
    }
    Ok(())
}

/// Appends entries and their strings. Names stand anywhere in memory, and a processor waits less for them where nothing
/// else is done between one and the next.
#[tactic(auto, using(crate::proofs::Writing::puts_both))]
pub(crate) fn put_entries(
    symbols: &mut Vec<u8>,
    strings: &mut Vec<u8>,
    entries: &[Entry],
) -> Result<(), OutOfMemory>
    ensures { OnOk result (Puts entries.now symbols.old.items strings.old.items symbols.new.items strings.new.items) }
{
    let start = strings.len();
    put_strings(strings, entries)?;
    put_symbols(symbols, start, entries)?;
    Ok(())
}

/// Appends zeros, up to a multiple of eight bytes.
pub(crate) fn pad(strings: &mut Vec<u8>) -> Result<(), OutOfMemory>
    ensures { OnOk result (strings.new.items ≡ spec.padded strings.old.items) }
{
    let zeros = [0; 8];
    strings.extend_from_slice(&zeros[..(8 - strings.len() % 8) % 8])?;
    Ok(())
}
