//! The symbols of an image, written.
ghost use Rattle.std.specs.Prelude.{◌≡◌, ◌<◌, IfOk, IfSome};
ghost use Rattle.std.specs.List.{AllPairs};
ghost use Rattle.std.specs.Cmp.Lexicographic.{slice_cmp};
ghost use Rattle.std.specs.Ordering.{nat_cmp};
ghost use Rattle.std.specs.declared.cmp.Ordering.TheVariants.{Less};
ghost use Rattle.mo_types.specs.Loaded.{IsWholeFile, IsWholeLoaded};
ghost use Rattle.name_ids.specs.Names.{numbers_of};
ghost use Rattle.symbol_winners.specs.Found.{AreNamed};
ghost use Rattle.symbol_winners.specs.declared.winner.Winner.{Winner as Wins};

use crate::given::command;
use crate::order::stand_once;
use anyhow::{Result, bail};
use atom_cut::cut;
use mo_types::{
    Bytes, FileId, GoalList, Items, KeyList, Loaded, LoadedFile, NameList, Object, OutOfMemory,
    Symbol, SymbolList, UnwindList,
};
use name_ids::{NameTable, NumberList, gather};
use reloc_read::refs_of;
use sect_place::{Layout, Placed, PlacedList, PlacedSection, PlacedSectionList, SegmentList};
use slot_plan::{NeedList, Slots, slots};
use std::alloc::Global;
use std::time::Instant;
use sym_out::write_symbols;
use symbol_winners::{SymbolTable, least_words, winners};
use test_objects::{defined, file_id, key, object_of, only, out_section, section, symbol};

// The bytes of an atom.
const SIZE: u64 = 16;

// The bytes of a name.
const NAME: usize = 30;

// Where the code stands in memory.
const TEXT: u64 = 0x1_0000_1000;

// So many names, each with a NUL, in no order.
fn strings_of(alloc: Global, count: u32) -> Result<Bytes, OutOfMemory> {
    let mut strings = Vec::with_capacity(alloc, count as usize * (NAME + 1))?;
    for number in 0..count {
        let mut rest = number.wrapping_mul(0x9e37_79b1);
        strings.extend_from_slice(b"_a_name_of_30_bytes_")?;
        for _digit in 0..10 {
            strings.push(b'0' + (rest % 10) as u8)?;
            rest /= 10;
        }
        strings.push(0)?;
    }
    Bytes::from_vec(strings)
}

// A symbol of each name at an atom of its own, every second of which other files see.
fn symbols_of(alloc: Global, count: u32) -> Result<SymbolList, OutOfMemory> {
    let strings = strings_of(alloc, count)?;
    let mut symbols = Vec::with_capacity(alloc, count as usize)?;
    for number in 0..count {
        let at = number as usize * (NAME + 1);
        if at + NAME <= strings.len() {
            symbols.push(Symbol {
                name: strings.part(at, NAME)?,
                external: number % 2 == 1,
                ..symbol(b"", defined(1, u64::from(number) * SIZE))
            })?;
        }
    }
    Ok(SymbolList::from_vec(symbols))
}

fn code_of(alloc: Global, count: u32) -> Result<Object, OutOfMemory> {
    let code = Bytes::from_vec(vec![in alloc; 0u8; count as usize * SIZE as usize]?)?;
    let text = section(alloc, b"__TEXT", b"__text", 0, 4, code);
    object_of(alloc, text, symbols_of(alloc, count)?)
}

// The file of a whole object.
fn whole_file(alloc: Global, id: FileId, object: Object) -> Result<Option<LoadedFile>, OutOfMemory>
    ensures { IfOk result (λ file. IfSome file IsWholeFile) }
{
    if id.member >= 1 << 20 || object.symbols.len() >= 1 << 24 || !object.is_whole() {
        return Ok(None);
    }
    let atoms = cut(alloc, &object, id)?;
    match refs_of(alloc, &object, &atoms, id) {
        Ok(refs) => Ok(Some(LoadedFile {
            id,
            label: Bytes::from_static(b"main.o"),
            object,
            atoms,
            refs,
            unwinds: UnwindList::new(alloc),
        })),
        Err(_) => Ok(None),
    }
}

fn only_file(alloc: Global, file: LoadedFile) -> Result<Loaded, OutOfMemory>
    requires { IsWholeFile file }
    ensures { IfOk result IsWholeLoaded }
{
    only(alloc, file)
}

// One file with so many symbols.
fn loaded_of(alloc: Global, count: u32) -> Result<Option<Loaded>, OutOfMemory>
    ensures { IfOk result (λ loaded. IfSome loaded IsWholeLoaded) }
{
    match whole_file(alloc, file_id(0), code_of(alloc, count)?)? {
        Some(file) => Ok(Some(only_file(alloc, file)?)),
        None => Ok(None),
    }
}

// The section of so many atoms.
fn text_of(alloc: Global, count: u32) -> Result<PlacedSection, OutOfMemory> {
    let mut keys = Vec::with_capacity(alloc, count as usize)?;
    for number in 0..count {
        keys.push(key(0, 1, u64::from(number) * SIZE))?;
    }
    let keys = KeyList::from_vec(keys);
    Ok(PlacedSection {
        section: out_section(b"__TEXT", b"__text", 0, 4, keys),
        address: TEXT,
        size: 0,
        file_offset: 0,
    })
}

// Where so many atoms stand.
fn layout_of(alloc: Global, count: u32) -> Result<Layout, OutOfMemory> {
    let mut sections = PlacedSectionList::new(alloc);
    sections.push(text_of(alloc, count)?)?;
    let mut placed = Vec::with_capacity(alloc, count as usize)?;
    for number in 0..count {
        let offset = u64::from(number) * SIZE;
        placed.push(Placed {
            atom: key(0, 1, offset),
            address: TEXT + offset,
        })?;
    }
    Ok(Layout {
        segments: SegmentList::new(alloc),
        sections,
        placed: PlacedList::from_vec(alloc, placed)?,
    })
}

// Writes the symbols, if so, and prints the microseconds and the sizes.
fn write(
    rt: &HostRuntime,
    layout: &Layout,
    symbols: &SymbolTable,
    loaded: &Loaded,
    is_wanted: bool,
) -> Result<()>
    requires whole { IsWholeLoaded loaded.now }
    requires winners { AllPairs (λ (a : Wins) (b : Wins). slice_cmp nat_cmp a.name b.name ≡ Less) symbols.now.winners }
{
    let slots = no_slots(rt.alloc())?;
    let bound = GoalList::new(rt.alloc());
    if layout.sections.len() > 255 || !stand_once(layout.placed.as_slice()) || !bound.is_empty() {
        bail!("the layout isn't in order");
    }
    if !is_wanted {
        println!(rt; "{}", symbols.winners().len())?;
        return Ok(());
    }
    let start = Instant::now(rt)?;
    let parts = write_symbols(rt.alloc(), layout, &slots, &bound, symbols, loaded)?;
    eprintln!(rt; "{}", start.elapsed(rt)?.as_micros())?;
    println!(rt;
        "{} {} {} {}",
        parts.symbols.len(),
        parts.strings.len(),
        parts.locals,
        parts.exported
    )?;
    Ok(())
}

fn no_slots(alloc: Global) -> Result<Slots, OutOfMemory> {
    slots(alloc, &NeedList::new(alloc))
}

// The same of files whose names have numbers.
fn write_named(
    rt: &HostRuntime,
    layout: &Layout,
    loaded: &Loaded,
    names: &NameTable,
    numbers: &Items<NumberList>,
    is_wanted: bool,
) -> Result<()>
    requires whole { IsWholeLoaded loaded.now }
    requires named { AreNamed names.now loaded.now.files }
    requires numbers { numbers.now ≡ numbers_of names.now loaded.now.files }
{
    let Ok(command) = command(rt.alloc()) else {
        bail!("the command is none");
    };
    let words = least_words(rt.alloc(), loaded, names, numbers)?;
    let symbols = winners(
        rt.alloc(),
        loaded,
        names,
        numbers,
        words.as_slice(),
        &command,
    )?;
    write(rt, layout, &symbols, loaded, is_wanted)
}

// The same of files.
fn write_loaded(rt: &HostRuntime, layout: &Layout, loaded: &Loaded, is_wanted: bool) -> Result<()>
    requires { IsWholeLoaded loaded.now }
{
    let extra = NameList::new(rt.alloc());
    let Ok(all) = gather(rt.alloc(), loaded, &extra) else {
        bail!("no memory is left, or there are too many names");
    };
    write_named(rt, layout, loaded, &all.names, &all.numbers, is_wanted)
}

/// Makes a file with so many symbols, every second of which wins its name, and writes them, if they are wanted.
pub(crate) fn image_symbols(rt: &HostRuntime, count: u32, is_wanted: bool) -> Result<()> {
    let count = count.min(1 << 22);
    let layout = layout_of(rt.alloc(), count)?;
    let Some(loaded) = loaded_of(rt.alloc(), count)? else {
        bail!("the object isn't whole");
    };
    write_loaded(rt, &layout, &loaded, is_wanted)
}
