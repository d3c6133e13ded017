//! The symbols of an object (`loader.h`: `symtab_command`; `nlist.h`: `nlist_64`).

ghost use Rattle.std.specs.Prelude.{◌≡◌, ◌+◌, ◌*◌, ◌≤◌, ◌<◌, ◌^◌, true, false, length, All, IsTrue, IfOk, IfSome};
ghost use Rattle.std.specs.Option.{option_map};
ghost use Rattle.mo_types.specs.Gives.{Gives};
ghost use Rattle.mo_types.specs.RelocationRules.{is_within};
ghost use Rattle.mo_types.specs.Whole.{IsDefinedWithin, IsDefinition};
ghost use Rattle.mo_obj.specs.Each.{Each};
ghost use Rattle.mo_obj.specs.Faults.{IsObjFault};
ghost use Rattle.mo_obj.specs.Sections.{IsRoomy};
ghost use Rattle.mo_obj.specs.Symbols as symbols;
ghost use Rattle.mo_obj.specs.Symbols.{IsInPlace, IsTable};

use crate::commands::Frame;
use mo_format::nlist::{
    N_ABS, N_ALT_ENTRY, N_EXT, N_NO_DEAD_STRIP, N_PEXT, N_SECT, N_STAB, N_SYMBOL_RESOLVER, N_TYPE,
    N_UNDF, N_WEAK_DEF, N_WEAK_REF,
};
use mo_format::{Nlist, SymtabCommand};
use mo_strings::Strings;
use mo_types::{Bytes, ObjFault, OutOfMemory, Rule, Section, Symbol, SymbolKind, SymbolList};
use std::alloc::Global;

// The table of an object without one.
const NO_SYMTAB: SymtabCommand = SymtabCommand {
    cmd: 0,
    cmdsize: 0,
    symoff: 0,
    nsyms: 0,
    stroff: 0,
    strsize: 0,
};

fn is_within_file(size: usize, symtab: &SymtabCommand) -> bool
    ensures { result ≡ symbols.is_within_file size symtab.now }
{
    let size = size as u64;
    symtab.cmdsize == 24
        && u64::from(symtab.symoff) + 16 * u64::from(symtab.nsyms) <= size
        && u64::from(symtab.stroff) + u64::from(symtab.strsize) <= size
}

/// The symbol table, where its entries and strings lie within the file.
#[tactic(auto, unfolding(crate::specs::Symbols::symtab_of))]
pub fn symtab_of(bytes: &[u8], frame: Frame) -> Result<SymtabCommand, ObjFault>
    ensures exact { Gives IsObjFault result (symbols.symtab_of bytes.now frame) }
    ensures within { IfOk result (IsTable (length bytes.now)) }
{
    let Some(at) = frame.symtab else {
        return Ok(NO_SYMTAB);
    };
    let fault = ObjFault::Malformed {
        place: at as u64,
        rule: Rule::Symbols,
    };
    if at > bytes.len() || bytes.len() - at < SymtabCommand::SIZE {
        return Err(fault);
    }
    let symtab = SymtabCommand::read(bytes, at);
    if !is_within_file(bytes.len(), &symtab) {
        return Err(fault);
    }
    Ok(symtab)
}

fn is_stab(entry: &Nlist) -> bool
    ensures { result ≡ symbols.is_stab entry.now }
{
    entry.n_type & N_STAB != 0
}

fn is_external(entry: &Nlist) -> bool
    ensures { result ≡ symbols.is_external entry.now }
{
    entry.n_type & N_EXT != 0
}

// Whether an address is one of a section's, or its end.
fn holds(section: &Section, address: u64) -> bool
    requires { section.now.address + section.now.size < 2 ^ 63 }
    ensures { result ≡ is_within section.now address }
{
    section.address <= address && address <= section.address + section.size
}

fn is_defined_within(sections: &[Section], entry: &Nlist) -> bool
    requires { All IsRoomy sections.now }
    ensures exact { result ≡ symbols.is_defined_within sections.now entry.now }
    ensures placed { result ≡ true → IsDefinition sections.now entry.now.n_sect entry.now.n_value }
{
    if entry.n_sect == 0 || usize::from(entry.n_sect) > sections.len() {
        return false;
    }
    let index = usize::from(entry.n_sect) - 1;
    holds(&sections[index], entry.n_value)
}

#[tactic(auto, unfolding(crate::specs::Symbols::kind_of))]
fn is_placed(sections: &[Section], entry: &Nlist) -> bool
    requires { All IsRoomy sections.now }
    ensures exact { result ≡ symbols.is_placed sections.now entry.now }
    ensures placed { result ≡ true → IsDefinedWithin sections.now (symbols.kind_of entry.now) }
{
    is_stab(entry) || entry.n_type & N_TYPE != N_SECT || is_defined_within(sections, entry)
}

fn common_or_undefined(entry: &Nlist) -> SymbolKind
    ensures { result ≡ symbols.common_or_undefined entry.now }
{
    if entry.n_value == 0 {
        return SymbolKind::Undefined;
    }
    SymbolKind::Common {
        align: (entry.n_desc / 0x100 % 0x10) as u8,
        size: entry.n_value,
    }
}

#[tactic(auto, unfolding(crate::specs::Symbols::kind_of))]
fn kind_of(entry: &Nlist) -> SymbolKind
    ensures { result ≡ symbols.kind_of entry.now }
{
    if is_stab(entry) {
        return SymbolKind::Passed;
    }
    match entry.n_type & N_TYPE {
        N_SECT => SymbolKind::Defined {
            section: entry.n_sect,
            value: entry.n_value,
        },
        N_ABS => SymbolKind::Absolute,
        N_UNDF if is_external(entry) => common_or_undefined(entry),
        N_UNDF => SymbolKind::Passed,
        _ => SymbolKind::Undefined,
    }
}

fn symbol_with(entry: &Nlist, name: Bytes) -> Symbol
    ensures { result ≡ symbols.symbol_with entry.now name }
{
    let counts = !is_stab(entry);
    Symbol {
        name,
        kind: kind_of(entry),
        external: counts && is_external(entry),
        hidden: counts && entry.n_type & N_PEXT != 0,
        weak_def: counts && entry.n_desc & N_WEAK_DEF != 0,
        weak_ref: counts && entry.n_desc & N_WEAK_REF != 0,
        no_strip: counts && entry.n_desc & N_NO_DEAD_STRIP != 0,
        alt: entry.n_type & N_TYPE == N_SECT && counts && entry.n_desc & N_ALT_ENTRY != 0,
    }
}

#[tactic(auto, unfolding(crate::specs::Symbols::symbol_of))]
fn symbol_of(
    strings: &Strings,
    sections: &[Section],
    entry: &Nlist,
) -> Result<Option<Symbol>, OutOfMemory>
    requires { All IsRoomy sections.now }
    ensures exact { IfOk result (λ symbol. symbol ≡ symbols.symbol_of strings.now sections.now entry.now) }
    ensures placed { IfOk result (λ symbol. IfSome symbol (IsInPlace sections.now)) }
{
    match strings.get(entry.n_strx as usize)? {
        Some(name) if is_placed(sections, entry) => Ok(Some(symbol_with(entry, name))),
        _ => Ok(None),
    }
}

#[tactic(auto, unfolding(crate::specs::Symbols::entry_at))]
fn entry_at(bytes: &[u8], symtab: &SymtabCommand, i: usize) -> Nlist
    requires table { IsTable (length bytes.now) symtab.now }
    requires index { i < symtab.now.nsyms }
    ensures { result ≡ symbols.entry_at bytes.now symtab.now i }
{
    Nlist::read(bytes, symtab.symoff as usize + 16 * i)
}

#[tactic(auto, unfolding(crate::specs::Symbols::symbol_at))]
fn symbol_at(
    bytes: &[u8],
    symtab: &SymtabCommand,
    strings: &Strings,
    sections: &[Section],
    i: usize,
) -> Result<Symbol, ObjFault>
    requires table { IsTable (length bytes.now) symtab.now }
    requires strings { strings.now ≡ symbols.strings_of bytes.now symtab.now }
    requires index { i < symtab.now.nsyms }
    requires sections { All IsRoomy sections.now }
    ensures exact { Gives IsObjFault result (symbols.symbol_at bytes.now symtab.now sections.now i) }
    ensures placed { IfOk result (IsInPlace sections.now) }
{
    let entry = entry_at(bytes, symtab, i);
    match symbol_of(strings, sections, &entry)? {
        Some(symbol) => Ok(symbol),
        None => Err(ObjFault::Malformed {
            place: u64::from(symtab.symoff) + 16 * i as u64,
            rule: Rule::Symbol,
        }),
    }
}

// The strings of the symbols' names.
fn strings_of(alloc: Global, file: &Bytes, symtab: &SymtabCommand) -> Result<Strings, OutOfMemory>
    requires { IsTable (length file.now) symtab.now }
    ensures { IfOk result (λ strings. strings ≡ symbols.strings_of file.now symtab.now) }
{
    let strings = file.part(symtab.stroff as usize, symtab.strsize as usize)?;
    Strings::new(alloc, strings)
}

// The symbols of the table, whose names are among the strings.
#[tactic(auto, using(crate::proofs::SymbolLemmas::reads), unfolding(crate::specs::Symbols::symbols_of))]
fn symbols_with(
    alloc: Global,
    bytes: &[u8],
    symtab: &SymtabCommand,
    strings: &Strings,
    sections: &[Section],
) -> Result<SymbolList, ObjFault>
    requires table { IsTable (length bytes.now) symtab.now }
    requires strings { strings.now ≡ symbols.strings_of bytes.now symtab.now }
    requires sections { All IsRoomy sections.now }
    ensures exact { Gives IsObjFault result (symbols.symbols_of bytes.now symtab.now sections.now) }
    ensures placed { IfOk result (Each (IsInPlace sections.now)) }
    ensures count { IfOk result (λ list. length list ≡ symtab.now.nsyms) }
{
    let count = symtab.nsyms as usize;
    let mut list = Vec::with_capacity(alloc, count)?;
    for i in 0..count {
        list.push(symbol_at(bytes, symtab, strings, sections, i)?)?;
    }
    Ok(SymbolList::from_vec(list))
}

/// The symbols of the table, in its order. Their names are parts of the file.
pub fn symbols_of(
    alloc: Global,
    file: &Bytes,
    symtab: &SymtabCommand,
    sections: &[Section],
) -> Result<SymbolList, ObjFault>
    requires table { IsTable (length file.now) symtab.now }
    requires sections { All IsRoomy sections.now }
    ensures exact { Gives IsObjFault result (symbols.symbols_of file.now symtab.now sections.now) }
    ensures placed { IfOk result (Each (IsInPlace sections.now)) }
    ensures count { IfOk result (λ list. length list ≡ symtab.now.nsyms) }
{
    let strings = strings_of(alloc, file, symtab)?;
    symbols_with(alloc, file.as_slice(), symtab, &strings, sections)
}

fn is_foreign(entry: &Nlist) -> bool
    ensures { result ≡ symbols.is_foreign entry.now }
{
    let kind = entry.n_type & N_TYPE;
    !is_stab(entry)
        && if kind == N_SECT {
            entry.n_desc & N_SYMBOL_RESOLVER != 0
        } else {
            kind != N_UNDF && kind != N_ABS
        }
}

#[tactic(auto, unfolding(crate::specs::Symbols::is_foreign_at))]
fn is_foreign_at(bytes: &[u8], symtab: &SymtabCommand, i: usize) -> bool
    requires table { IsTable (length bytes.now) symtab.now }
    requires index { i < symtab.now.nsyms }
    ensures { result ≡ symbols.is_foreign_at bytes.now symtab.now i }
{
    is_foreign(&entry_at(bytes, symtab, i))
}

/// Whether a symbol is of a kind that isn't linked.
#[tactic(auto, using(crate::proofs::TableLemmas::searches), unfolding(crate::specs::Symbols::any_foreign))]
pub fn any_foreign(bytes: &[u8], symtab: &SymtabCommand) -> bool
    requires { IsTable (length bytes.now) symtab.now }
    ensures { result ≡ symbols.any_foreign bytes.now symtab.now }
{
    for i in 0..symtab.nsyms as usize {
        if is_foreign_at(bytes, symtab, i) {
            return true;
        }
    }
    false
}
