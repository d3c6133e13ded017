//! The symbols of an image in their three ranges, and which of them slots are for.
ghost use Rattle.std.specs.Prelude.{◌≡◌, ◌++◌, ◌<◌, ◌^◌, IfOk, OnOk, length};
ghost use Rattle.std.specs.List.{AllPairs, filter_map};
ghost use Rattle.std.specs.Cmp.Lexicographic.{slice_cmp};
ghost use Rattle.std.specs.Ordering.{nat_cmp};
ghost use Rattle.std.specs.declared.cmp.Ordering.TheVariants.{Less};
ghost use Rattle.mo_bytes.specs.Number.{number_bytes};
ghost use Rattle.mo_types.specs.Goals.{name_of};
ghost use Rattle.mo_types.specs.Loaded.{IsWholeLoaded};
ghost use Rattle.mo_types.specs.declared.goal.Goal.{Goal as Leads};
ghost use Rattle.sect_place.specs.Addresses.{AreOnce};
ghost use Rattle.symbol_winners.specs.declared.winner.Winner.{Winner as Wins};
ghost use Rattle.sym_out.specs.Symbols as spec;
ghost use Rattle.sym_out.specs.Entries.{Entry as Spelled};

use crate::entry::{Entry, place_named};
use crate::hints::near_at;
use crate::locals::{Local, locals_of};
use crate::sites::Sites;
use mo_format::loader::INDIRECT_SYMBOL_LOCAL;
use mo_format::nlist::{
    DYNAMIC_LOOKUP_ORDINAL, N_EXT, N_SECT, N_UNDF, N_WEAK_DEF, N_WEAK_REF, NO_SECT,
};
use mo_types::{Goal, GoalList, Loaded, OutOfMemory};
use sect_place::Layout;
use std::alloc::Global;
use std::marker::Model;
use symbol_winners::{SymbolTable, Winner};

/// The symbols of an image: local ones, those that other images see, and those that other images have. Contracts see
/// the entries of these three ranges. Names are shared with the files, not copied.
#[derive(Drop)]
pub struct ImageSymbols<'a> {
    pub(crate) locals: Vec<Local<'a>>,
    pub(crate) exported: Vec<Entry<'a>>,
    pub(crate) undefined: Vec<Entry<'a>>,
}

impl<'a> Model for ImageSymbols<'a> {
    ghost use Rattle.std.specs.Prelude.{map};
    ghost use Rattle.sym_out.specs.Symbols.{Ranges as Spelled, local_entry};
    ghost use Rattle.sym_out.specs.inner.Ranged.{AreNamed};

    ghost Value = { Spelled };

    ghost view = { λ r. record { locals = map local_entry r.locals.items; exported = r.exported.items; undefined = r.undefined.items } };

    ghost invariant = { λ r. AreNamed r.exported.items r.undefined.items };
}

impl<'a> ImageSymbols<'a> {
    /// Those of an image. `bound` has the goals that other images have, by name. The layout places no atom twice, and
    /// has fewer than 256 sections, since a symbol has 8 bits for the number of its own.
    pub fn of(
        alloc: Global,
        layout: &'a Layout,
        bound: &'a GoalList,
        symbols: &'a SymbolTable,
        loaded: &'a Loaded,
    ) -> Result<ImageSymbols<'a>, OutOfMemory>
        requires whole { IsWholeLoaded loaded.now }
        requires once { AreOnce layout.now.placed }
        requires few { length layout.now.sections < 256 }
        requires bound { AllPairs (λ (a : Leads) (b : Leads). slice_cmp nat_cmp (name_of a) (name_of b) ≡ Less) bound.now }
        requires winners { AllPairs (λ (a : Wins) (b : Wins). slice_cmp nat_cmp a.name b.name ≡ Less) symbols.now.winners }
        ensures { IfOk result (spec.AreRanges layout.now bound.now symbols.now loaded.now.files) }
    {
        let sites = Sites::of(alloc, layout)?;
        let mut nears = Vec::new(alloc);
        let locals = locals_of(alloc, &sites, symbols, loaded, &mut nears)?;
        let exported = exported_of(alloc, &sites, symbols, symbols.winners(), nears.as_slice())?;
        let undefined = undefined_of(alloc, bound.as_slice())?;
        Ok(ImageSymbols {
            locals,
            exported,
            undefined,
        })
    }

    // The symbol for which a goal has a slot.
    #[tactic(auto, unfolding(crate::specs::Symbols::indirect_number))]
    fn number_of(&self, goal: &Goal) -> u32
        ensures { result ≡ spec.indirect_number self.now goal.now }
    {
        let locals = self.locals.len() as u128;
        match goal {
            Goal::WeakSelf(name, _, _) => number_in(
                locals,
                self.exported.as_slice(),
                name.as_slice(),
            ),
            Goal::Import { name, .. } | Goal::Flat(name) => {
                let before = locals + self.exported.len() as u128;
                number_in(before, self.undefined.as_slice(), name.as_slice())
            }
            Goal::Def(_, _) | Goal::Header | Goal::Nobody => INDIRECT_SYMBOL_LOCAL,
        }
    }

    /// Appends the numbers of the symbols for which goals have slots.
    pub(crate) fn put_numbers(&self, out: &mut Vec<u8>, goals: &[Goal]) -> Result<(), OutOfMemory>
        ensures { OnOk result (out.new.items ≡ out.old.items ++ spec.indirect_bytes self.now goals.now) }
    {
        for goal in goals {
            put_number(out, self.number_of(goal))?;
        }
        Ok(())
    }
}

// The number of the symbol of a name in a range before which some symbols stand.
fn number_in(before: u128, entries: &[Entry], name: &[u8]) -> u32
    requires few { before < 2 ^ 100 }
    requires rising { AllPairs (λ (a : Spelled) (b : Spelled). slice_cmp nat_cmp a.name b.name ≡ Less) entries.now }
    ensures { result ≡ spec.number_in before entries.now name.now }
{
    match place_named(entries, name) {
        Some(at) => ((before + at as u128) % (1 << 32)) as u32,
        None => INDIRECT_SYMBOL_LOCAL,
    }
}

// Appends a number of 32 bits.
#[tactic(auto, unfolding(mo_bytes::specs::Number::number_bytes))]
fn put_number(out: &mut Vec<u8>, number: u32) -> Result<(), OutOfMemory>
    ensures { OnOk result (out.new.items ≡ out.old.items ++ number_bytes 4 number) }
{
    out.extend_from_slice(&number.to_le_bytes())?;
    Ok(())
}

// The entry of a winner, if other images see it and its atom is kept.
#[tactic(auto, unfolding(crate::specs::Symbols::exported_entry))]
fn exported_entry<'a>(
    sites: &Sites,
    symbols: &SymbolTable,
    winner: &'a Winner,
    near: usize,
) -> Option<Entry<'a>>
    ensures { result ≡ spec.exported_entry sites.now symbols.now winner.now }
{
    if !winner.exported {
        return None;
    }
    let mut near = near;
    let site = sites.find(&mut near, &symbols.representative(winner.atom))?;
    Some(Entry {
        name: winner.name.as_slice(),
        n_value: site.address.wrapping_add(winner.offset),
        n_desc: if winner.weak { N_WEAK_DEF } else { 0 },
        n_type: N_SECT + N_EXT,
        n_sect: site.section,
    })
}

// The entries of the winners that other images see.
fn exported_of<'a>(
    alloc: Global,
    sites: &Sites,
    symbols: &SymbolTable,
    winners: &'a [Winner],
    nears: &[u32],
) -> Result<Vec<Entry<'a>>, OutOfMemory>
    ensures { IfOk result (λ entries. entries.items ≡ filter_map (spec.exported_entry sites.now symbols.now) winners.now) }
{
    let mut entries = Vec::with_capacity(alloc, winners.len())?;
    for (i, winner) in winners.iter().enumerate() {
        if let Some(entry) = exported_entry(sites, symbols, winner, near_at(nears, i)) {
            entries.push(entry)?;
        }
    }
    Ok(entries)
}

// An entry of a name that another image has.
fn undefined_at(name: &[u8], desc: u16) -> Entry
    ensures { result ≡ spec.undefined_at name.now desc }
{
    Entry {
        name,
        n_value: 0,
        n_desc: desc,
        n_type: N_UNDF + N_EXT,
        n_sect: NO_SECT,
    }
}

// The entry of a goal, if another image has it.
#[tactic(auto, unfolding(crate::specs::Symbols::undefined_entry))]
fn undefined_entry(goal: &Goal) -> Option<Entry>
    ensures { result ≡ spec.undefined_entry goal.now }
{
    match goal {
        Goal::Import {
            name,
            ordinal,
            optional,
            ..
        } => {
            let missing = if *optional { N_WEAK_REF } else { 0 };
            Some(undefined_at(name.as_slice(), u16::from(*ordinal) * (1 << 8) + missing))
        }
        Goal::Flat(name) => Some(undefined_at(
            name.as_slice(),
            u16::from(DYNAMIC_LOOKUP_ORDINAL) * (1 << 8),
        )),
        Goal::Def(_, _) | Goal::WeakSelf(_, _, _) | Goal::Header | Goal::Nobody => None,
    }
}

// The entries of the goals that other images have.
fn undefined_of(alloc: Global, bound: &[Goal]) -> Result<Vec<Entry>, OutOfMemory>
    ensures { IfOk result (λ entries. entries.items ≡ filter_map spec.undefined_entry bound.now) }
{
    let mut entries = Vec::with_capacity(alloc, bound.len())?;
    for goal in bound {
        if let Some(entry) = undefined_entry(goal) {
            entries.push(entry)?;
        }
    }
    Ok(entries)
}
