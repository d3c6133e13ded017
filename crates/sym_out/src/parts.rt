//! The parts of an image that have its symbols.
ghost use Rattle.std.specs.Prelude.{◌≡◌, ◌<◌, [], IfOk, length};
ghost use Rattle.std.specs.List.{AllPairs};
ghost use Rattle.std.specs.Cmp.Lexicographic.{slice_cmp};
ghost use Rattle.std.specs.Ordering.{nat_cmp};
ghost use Rattle.std.specs.declared.cmp.Ordering.TheVariants.{Less};
ghost use Rattle.mo_types.specs.Goals.{name_of};
ghost use Rattle.mo_types.specs.Loaded.{IsWholeLoaded};
ghost use Rattle.mo_types.specs.declared.goal.Goal.{Goal as Leads};
ghost use Rattle.sect_place.specs.Addresses.{AreOnce};
ghost use Rattle.symbol_winners.specs.declared.winner.Winner.{Winner as Wins};
ghost use Rattle.sym_out.specs.Entries.{strings_bytes, symbols_bytes};
ghost use Rattle.sym_out.specs.Symbols as spec;

use crate::entry::{in_32, pad, put_entries};
use crate::locals::put_locals;
use crate::ranges::ImageSymbols;
use crate::sizes::SymbolSizes;
use mo_types::{Bytes, GoalList, Loaded, OutOfMemory};
use sect_place::Layout;
use slot_plan::Slots;
use std::alloc::Global;
use symbol_winners::SymbolTable;

/// The parts of an image that have its symbols (`loader.h`: symtab_command, dysymtab_command).
#[derive(Debug, Drop)]
pub struct SymbolParts {
    /// The symbols: local ones, those that other images see, and those that other images have.
    pub symbols: Bytes,
    /// The number of the symbol for each stub and slot.
    pub indirect: Bytes,
    /// The names, with zeros up to a multiple of eight bytes.
    pub strings: Bytes,
    /// How many symbols are local, modulo 2^32.
    pub locals: u32,
    /// How many other images see, modulo 2^32.
    pub exported: u32,
    /// How many other images have, modulo 2^32.
    pub undefined: u32,
}

// All symbols and their strings.
#[derive(Drop)]
struct Table {
    symbols: Vec<u8>,
    strings: Vec<u8>,
}

// No bytes yet, with room for so many.
fn room_for(alloc: Global, size: u128) -> Result<Vec<u8>, OutOfMemory>
    ensures { IfOk result (λ bytes. bytes.items ≡ []) }
{
    Ok(Vec::with_capacity(alloc, usize::try_from(size).unwrap_or(usize::MAX))?)
}

fn table_of(alloc: Global, ranges: &ImageSymbols, sizes: SymbolSizes) -> Result<Table, OutOfMemory>
    ensures symbols { IfOk result (λ table. table.symbols.items ≡ symbols_bytes (spec.entries_of ranges.now)) }
    ensures strings { IfOk result (λ table. table.strings.items ≡ strings_bytes (spec.entries_of ranges.now)) }
{
    let mut symbols = room_for(alloc, sizes.symbols)?;
    let mut strings = room_for(alloc, sizes.strings)?;
    strings.push(0)?;
    put_locals(&mut symbols, &mut strings, ranges.locals.as_slice())?;
    put_entries(&mut symbols, &mut strings, ranges.exported.as_slice())?;
    put_entries(&mut symbols, &mut strings, ranges.undefined.as_slice())?;
    pad(&mut strings)?;
    Ok(Table { symbols, strings })
}

fn indirect_of(
    alloc: Global,
    ranges: &ImageSymbols,
    slots: &Slots,
    size: u128,
) -> Result<Vec<u8>, OutOfMemory>
    ensures { IfOk result (λ table. table.items ≡ spec.indirect_bytes ranges.now (spec.slot_goals slots.now)) }
{
    let mut numbers = room_for(alloc, size)?;
    ranges.put_numbers(&mut numbers, slots.stubs.as_slice())?;
    ranges.put_numbers(&mut numbers, slots.got.as_slice())?;
    ranges.put_numbers(&mut numbers, slots.tlv.as_slice())?;
    Ok(numbers)
}

impl<'a> ImageSymbols<'a> {
    /// The symbols, their strings, and the number of the symbol for each stub and slot. `sizes` tells how many bytes
    /// these are.
    pub fn write(&self, alloc: Global, slots: &Slots) -> Result<SymbolParts, OutOfMemory>
        ensures { IfOk result (λ parts. parts ≡ spec.parts_of slots.now self.now) }
    {
        let sizes = self.sizes(slots);
        let table = table_of(alloc, self, sizes)?;
        let indirect = indirect_of(alloc, self, slots, sizes.indirect)?;
        Ok(SymbolParts {
            symbols: Bytes::from_vec(table.symbols)?,
            indirect: Bytes::from_vec(indirect)?,
            strings: Bytes::from_vec(table.strings)?,
            locals: in_32(self.locals.len()),
            exported: in_32(self.exported.len()),
            undefined: in_32(self.undefined.len()),
        })
    }
}

/// The symbols of an image, their strings, and the number of the symbol for each of its stubs and slots: those that
/// `ImageSymbols` gathers, whose sizes nobody asks for before they are written.
pub fn write_symbols(
    alloc: Global,
    layout: &Layout,
    slots: &Slots,
    bound: &GoalList,
    symbols: &SymbolTable,
    loaded: &Loaded,
) -> Result<SymbolParts, OutOfMemory>
    requires whole { IsWholeLoaded loaded.now }
    requires once { AreOnce layout.now.placed }
    requires few { length layout.now.sections < 256 }
    requires bound { AllPairs (λ (a : Leads) (b : Leads). slice_cmp nat_cmp (name_of a) (name_of b) ≡ Less) bound.now }
    requires winners { AllPairs (λ (a : Wins) (b : Wins). slice_cmp nat_cmp a.name b.name ≡ Less) symbols.now.winners }
    ensures { IfOk result (spec.AreSymbolParts layout.now slots.now bound.now symbols.now loaded.now.files) }
{
    let ranges = ImageSymbols::of(alloc, layout, bound, symbols, loaded)?;
    ranges.write(alloc, slots)
}
