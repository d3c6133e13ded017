//! The imports, each once, and in which form they are.
ghost use Rattle.std.specs.Prelude.{◌≡◌, false, List, [], length, map, IfOk, OnOk};
ghost use Rattle.std.specs.List.{list_any};
ghost use Rattle.fixup_chain.specs.Faults as faults;
ghost use Rattle.fixup_chain.specs.Imports as spec;
ghost use Rattle.fixup_chain.specs.declared.chains.Fixup.{Fixup as FixupValue};
ghost use Rattle.fixup_chain.specs.inner.Held as inner;
ghost use Rattle.fixup_chain.specs.inner.Rows.{rows_at};
ghost use Rattle.sect_place.specs.Addresses.{AreOnce};
ghost use Rattle.sect_place.specs.declared.layout.Layout.{Layout as LayoutValue};

use crate::chains::Fixup;
use crate::goals::is_bound;
use crate::import::Import;
use crate::import_row::ImportRow;
use crate::pool::pool_of;
use crate::targets::ready_at;
use crate::wide::widened;
use indexmap::IndexSet;
use mo_types::OutOfMemory;
use sect_place::Layout;
use std::alloc::Global;

// The narrow form has room for places below this one.
const NARROW_POOL: usize = 1 << 23;

/// The imports of an image in their order, by their names' places in the pool.
#[derive(Drop)]
pub(crate) struct Formed {
    pub(crate) wide: bool,
    pub(crate) rows: Vec<ImportRow>,
    /// The number of each import, by its place among them in the order of the pointers.
    pub(crate) ranks: Vec<usize>,
    /// Of each pointer that is bound the place of its import there, and of each other one what was gathered for it.
    pub(crate) held: Vec<usize>,
    pub(crate) pool: Vec<u8>,
}

// What pointers are bound to, what is held for each, and whether a word has no room for some addend.
#[derive(Drop)]
struct Collected<'a> {
    imports: IndexSet<Import<'a>>,
    held: Vec<usize>,
    large: bool,
}

// Whether the word of a bind has no room for its addend.
fn is_large(fixup: &Fixup) -> bool
    ensures { result ≡ inner.is_large fixup.now }
{
    is_bound(&fixup.goal) && !(0 <= fixup.addend && fixup.addend < 256)
}

// What is held for a pointer: if it is bound, the place of its import in a set, into which that is put; else its offset,
// which is passed.
#[tactic(auto, using(crate::proofs::UseLemmas::noting))]
fn hold<'a>(
    imports: &mut IndexSet<Import<'a>>,
    offset: usize,
    fixup: &'a Fixup,
) -> Result<usize, OutOfMemory>
    ensures keys { OnOk result (imports.new.keys ≡ inner.noted inner.is_same (spec.import_of false) imports.old.keys fixup.now) }
    ensures place { IfOk result (inner.HasPlace (spec.import_of false) imports.new.keys fixup.now) }
    ensures offset { IfOk result (λ one. (layout : LayoutValue) → inner.HasOffset layout fixup.now offset → inner.HasOffset layout fixup.now one) }
{
    if is_bound(&fixup.goal) {
        let (place, _) = imports.insert_full(Import::of(fixup))?;
        Ok(place)
    } else {
        Ok(offset)
    }
}

// Gathers what the pointers are bound to that are bound, each once, in the order of the pointers, and holds something for
// each pointer. Whether a word has no room for some addend.
fn collect<'a>(
    imports: &mut IndexSet<Import<'a>>,
    held: &mut [usize],
    layout: &Layout,
    base: u64,
    fixups: &'a [Fixup],
) -> Result<bool, OutOfMemory>
    requires once { AreOnce layout.now.placed }
    requires base { base ≡ faults.base_of layout.now.segments }
    requires none { imports.old.keys ≡ [] }
    requires long { length held.old ≡ length fixups.now }
    ensures imports { OnOk result (imports.new.keys ≡ inner.gathered inner.is_same (spec.import_of false) fixups.now) }
    ensures places { OnOk result (inner.ArePlaces (spec.import_of false) fixups.now imports.new.keys held.new) }
    ensures offsets { OnOk result (inner.HaveOffsets layout.now fixups.now held.new) }
    ensures large { IfOk result (λ large. large ≡ list_any inner.is_large fixups.now) }
{
    let mut large = false;
    let mut ready = 0;
    for (at, fixup) in fixups.iter().enumerate() {
        ready = ready_at(held, layout, base, fixups, at, ready);
        let one = hold(imports, held[at], fixup)?;
        held[at] = one;
        large |= is_large(fixup);
    }
    Ok(large)
}

// The same with an offset, or `FAR`, for each pointer that isn't bound.
fn gathered<'a>(
    alloc: Global,
    layout: &Layout,
    base: u64,
    fixups: &'a [Fixup],
) -> Result<Collected<'a>, OutOfMemory>
    requires once { AreOnce layout.now.placed }
    requires base { base ≡ faults.base_of layout.now.segments }
    ensures imports { IfOk result (λ all. all.imports.keys ≡ inner.gathered inner.is_same (spec.import_of false) fixups.now) }
    ensures places { IfOk result (λ all. inner.ArePlaces (spec.import_of false) fixups.now all.imports.keys all.held.items) }
    ensures offsets { IfOk result (λ all. inner.HaveOffsets layout.now fixups.now all.held.items) }
    ensures large { IfOk result (λ all. all.large ≡ list_any inner.is_large fixups.now) }
{
    let mut imports = IndexSet::new(alloc);
    let mut held = vec![in alloc; 0usize; fixups.len()]?;
    let large = collect(&mut imports, held.as_mut_slice(), layout, base, fixups)?;
    Ok(Collected {
        imports,
        held,
        large,
    })
}

// The same of pointers whose addresses nobody knows yet: 0 is held for each that isn't bound, and nothing is looked up.
#[tactic(auto, using(crate::proofs::UseLemmas::holding))]
fn gathered_bound<'a>(alloc: Global, fixups: &'a [Fixup]) -> Result<Collected<'a>, OutOfMemory>
    ensures imports { IfOk result (λ all. all.imports.keys ≡ inner.gathered inner.is_same (spec.import_of false) fixups.now) }
    ensures places { IfOk result (λ all. inner.ArePlaces (spec.import_of false) fixups.now all.imports.keys all.held.items) }
    ensures large { IfOk result (λ all. all.large ≡ list_any inner.is_large fixups.now) }
{
    let mut imports = IndexSet::new(alloc);
    let mut held = Vec::with_capacity(alloc, fixups.len())?;
    let mut large = false;
    for fixup in fixups {
        let one = hold(&mut imports, 0, fixup)?;
        held.push(one)?;
        large |= is_large(fixup);
    }
    Ok(Collected {
        imports,
        held,
        large,
    })
}

// A list of the same imports.
fn copies<'a>(alloc: Global, imports: &[Import<'a>]) -> Result<Vec<Import<'a>>, OutOfMemory>
    ensures { IfOk result (λ copies. copies.items ≡ imports.now) }
{
    let mut copies = Vec::with_capacity(alloc, imports.len())?;
    for import in imports {
        copies.push(import.copy())?;
    }
    Ok(copies)
}

// The number of an import among those in order.
#[tactic(auto, unfolding(crate::specs::inner::Held::rank_in))]
fn rank_of(imports: &IndexSet<Import<'_>>, import: &Import<'_>) -> usize
    ensures { result ≡ inner.rank_in inner.is_same imports.now.keys import.now }
{
    match imports.get_index_of(import) {
        Some(at) => at,
        None => 0,
    }
}

// The numbers of some imports.
#[tactic(auto, using(crate::proofs::UseLemmas::numbering))]
fn ranks_of(
    alloc: Global,
    imports: &IndexSet<Import<'_>>,
    some: &[Import<'_>],
) -> Result<Vec<usize>, OutOfMemory>
    ensures { IfOk result (λ ranks. ranks.items ≡ map (inner.rank_in inner.is_same imports.now.keys) some.now) }
{
    let mut ranks = Vec::with_capacity(alloc, some.len())?;
    for import in some {
        ranks.push(rank_of(imports, import))?;
    }
    Ok(ranks)
}

// The imports of the narrow form in their order, the number of each by its place before, and what is held for pointers.
#[derive(Drop)]
struct Ordered<'a> {
    imports: IndexSet<Import<'a>>,
    ranks: Vec<usize>,
    held: Vec<usize>,
    large: bool,
}

fn in_order<'a>(alloc: Global, all: Collected<'a>) -> Result<Ordered<'a>, OutOfMemory>
    ensures imports { IfOk result (λ ordered. (fixups : List FixupValue) → all.entry.imports.keys ≡ inner.gathered inner.is_same (spec.import_of false) fixups
        → ordered.imports.keys ≡ inner.imports_in false fixups) }
    ensures numbers { IfOk result (λ ordered. (fixups : List FixupValue) → all.entry.imports.keys ≡ inner.gathered inner.is_same (spec.import_of false) fixups
        → inner.ArePlaces (spec.import_of false) fixups all.entry.imports.keys all.entry.held.items
        → inner.AreNumbers false fixups (inner.imports_in false fixups) (inner.numbers_by ordered.ranks.items ordered.held.items)) }
    ensures held { IfOk result (λ ordered. ordered.held.items ≡ all.entry.held.items) }
    ensures large { IfOk result (λ ordered. ordered.large ≡ all.entry.large) }
{
    let mut imports = all.imports;
    let used = copies(alloc, imports.as_slice())?;
    imports.sort()?;
    let ranks = ranks_of(alloc, &imports, used.as_slice())?;
    Ok(Ordered {
        imports,
        ranks,
        held: all.held,
        large: all.large,
    })
}

// Whether the imports are in the wide form, where the narrow one has this pool.
#[tactic(auto, unfolding(crate::specs::Imports::is_wide))]
fn is_wide(large: bool, pool: &[u8]) -> bool
    ensures { (fixups : List FixupValue) → large ≡ list_any inner.is_large fixups → result ≡ spec.is_wide fixups pool.now }
{
    large || pool.len() >= NARROW_POOL
}

// The imports of some pointers in the form that has room for them, by what was gathered. Each pointer's name is looked up
// once: the wide form is made of the narrow one by numbers.
#[tactic(auto, using(crate::proofs::WideLemmas::pools))]
fn in_form<'a>(
    alloc: Global,
    all: Collected<'a>,
    fixups: &'a [Fixup],
) -> Result<Formed, OutOfMemory>
    requires imports { all.imports.keys ≡ inner.gathered inner.is_same (spec.import_of false) fixups.now }
    requires places { inner.ArePlaces (spec.import_of false) fixups.now all.imports.keys all.held.items }
    requires large { all.large ≡ list_any inner.is_large fixups.now }
    ensures form { IfOk result (λ formed. formed.wide ≡ spec.is_wide fixups.now (spec.pool_of (inner.imports_in false fixups.now))) }
    ensures rows { IfOk result (λ formed. formed.rows.items ≡ rows_at 1 (inner.imports_in formed.wide fixups.now)) }
    ensures numbers { IfOk result (λ formed. inner.AreNumbers formed.wide fixups.now (inner.imports_in formed.wide fixups.now) (inner.numbers_by formed.ranks.items formed.held.items)) }
    ensures others { IfOk result (λ formed. inner.AreOthers fixups.now all.entry.held.items formed.held.items) }
    ensures pool { IfOk result (λ formed. formed.pool.items ≡ spec.pool_of (inner.imports_in formed.wide fixups.now)) }
{
    let narrow = in_order(alloc, all)?;
    let pooled = pool_of(alloc, narrow.imports.as_slice())?;
    if is_wide(narrow.large, pooled.pool.as_slice()) {
        let ranks = narrow.ranks.as_slice();
        let held = narrow.held.as_slice();
        let wide = widened(alloc, pooled.rows.as_slice(), ranks, held, fixups)?;
        Ok(Formed {
            wide: true,
            rows: wide.rows,
            ranks: wide.ranks,
            held: wide.held,
            pool: pooled.pool,
        })
    } else {
        Ok(Formed {
            wide: false,
            rows: pooled.rows,
            ranks: narrow.ranks,
            held: narrow.held,
            pool: pooled.pool,
        })
    }
}

/// The imports of some pointers, in the form that has room for them, and where the pointers lead, of an image that begins
/// at `base`: of each pointer that isn't bound its offset is held, or `FAR`.
#[tactic(auto, using(crate::proofs::WideLemmas::pools))]
pub(crate) fn imports_of(
    alloc: Global,
    layout: &Layout,
    base: u64,
    fixups: &[Fixup],
) -> Result<Formed, OutOfMemory>
    requires once { AreOnce layout.now.placed }
    requires base { base ≡ faults.base_of layout.now.segments }
    ensures form { IfOk result (λ formed. formed.wide ≡ spec.is_wide fixups.now (spec.pool_of (inner.imports_in false fixups.now))) }
    ensures rows { IfOk result (λ formed. formed.rows.items ≡ rows_at 1 (inner.imports_in formed.wide fixups.now)) }
    ensures numbers { IfOk result (λ formed. inner.AreNumbers formed.wide fixups.now (inner.imports_in formed.wide fixups.now) (inner.numbers_by formed.ranks.items formed.held.items)) }
    ensures offsets { IfOk result (λ formed. inner.HaveOffsets layout.now fixups.now formed.held.items) }
    ensures pool { IfOk result (λ formed. formed.pool.items ≡ spec.pool_of (inner.imports_in formed.wide fixups.now)) }
{
    let all = gathered(alloc, layout, base, fixups)?;
    in_form(alloc, all, fixups)
}

/// The imports of some pointers, in the form that has room for them, wherever the pointers lead that aren't bound.
pub(crate) fn bound_imports(alloc: Global, fixups: &[Fixup]) -> Result<Formed, OutOfMemory>
    ensures form { IfOk result (λ formed. formed.wide ≡ spec.is_wide fixups.now (spec.pool_of (inner.imports_in false fixups.now))) }
    ensures rows { IfOk result (λ formed. formed.rows.items ≡ rows_at 1 (inner.imports_in formed.wide fixups.now)) }
{
    let all = gathered_bound(alloc, fixups)?;
    in_form(alloc, all, fixups)
}
