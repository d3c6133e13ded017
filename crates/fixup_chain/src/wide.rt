//! The imports of the wide form, which tells those of one name apart by their addends too. They are made of those of the
//! narrow form, by the places of the names.
ghost use Rattle.std.specs.Prelude.{◌≡◌, ℕ, false, true, map, length, slice_index_or, IfNone, IfOk, IfSome, OnOk};
ghost use Rattle.fixup_chain.specs.inner.Held as spec;
ghost use Rattle.fixup_chain.specs.inner.Rows.{row_by, rows_at, same_row};

use crate::chains::Fixup;
use crate::goals::is_bound;
use crate::import_row::ImportRow;
use crate::numbers::number_at;
use indexmap::IndexSet;
use mo_types::OutOfMemory;
use std::alloc::Global;

/// Imports in their order, the number of each by its place before, and what is held for each pointer: the place of its
/// import, or what was held for it.
#[derive(Drop)]
pub(crate) struct WideImports {
    pub(crate) rows: Vec<ImportRow>,
    pub(crate) ranks: Vec<usize>,
    pub(crate) held: Vec<usize>,
}

// What a pointer is bound to, if it is, by the number of its import in the narrow form.
#[tactic(auto, unfolding(crate::specs::inner::Rows::row_by))]
fn row_of(narrow: &[ImportRow], number: usize, fixup: &Fixup) -> Option<ImportRow>
    ensures { result ≡ row_by narrow.now number fixup.now }
{
    if !is_bound(&fixup.goal) {
        return None;
    }
    match narrow.get(number) {
        Some(row) => Some(ImportRow {
            addend: fixup.addend,
            ..*row
        }),
        None => None,
    }
}

// Puts an import, if there is one, into a set, and gives its place there, or else what was held before.
#[tactic(auto, using(crate::proofs::UseLemmas::noting_row))]
fn note(
    rows: &mut IndexSet<ImportRow>,
    row: Option<ImportRow>,
    before: usize,
) -> Result<usize, OutOfMemory>
    ensures keys { OnOk result (rows.new.keys ≡ spec.noted_row rows.old.keys row) }
    ensures place { IfOk result (λ place. IfSome row (spec.StandsAt rows.new.keys place)) }
    ensures other { IfOk result (λ place. IfNone row (place ≡ before)) }
{
    match row {
        Some(row) => {
            let (place, _) = rows.insert_full(row)?;
            Ok(place)
        }
        None => Ok(before),
    }
}

// What pointers are bound to, each once, in the order of the pointers, and what is held for each.
#[derive(Drop)]
struct Collected {
    rows: IndexSet<ImportRow>,
    held: Vec<usize>,
}

#[tactic(auto, using(crate::proofs::WideLemmas::gathering))]
fn gathered(
    alloc: Global,
    narrow: &[ImportRow],
    ranks: &[usize],
    before: &[usize],
    fixups: &[Fixup],
) -> Result<Collected, OutOfMemory>
    requires rows { narrow.now ≡ rows_at 1 (spec.imports_in false fixups.now) }
    requires numbers { spec.AreNumbers false fixups.now (spec.imports_in false fixups.now) (spec.numbers_by ranks.now before.now) }
    ensures rows { IfOk result (λ all. all.rows.keys ≡ spec.gathered same_row (spec.row_of fixups.now) fixups.now) }
    ensures places { IfOk result (λ all. spec.ArePlaces (spec.row_of fixups.now) fixups.now all.rows.keys all.held.items) }
    ensures others { IfOk result (λ all. spec.AreOthers fixups.now before.now all.held.items) }
{
    let mut rows = IndexSet::new(alloc);
    let mut held = Vec::with_capacity(alloc, fixups.len())?;
    for (at, fixup) in fixups.iter().enumerate() {
        let row = row_of(narrow, number_at(ranks, before[at]), fixup);
        let one = note(&mut rows, row, before[at])?;
        held.push(one)?;
    }
    Ok(Collected { rows, held })
}

// The number of an import among those in order.
#[tactic(auto, unfolding(crate::specs::inner::Held::rank_in))]
fn rank_of(rows: &IndexSet<ImportRow>, row: &ImportRow) -> usize
    ensures { result ≡ spec.rank_in same_row rows.now.keys row.now }
{
    match rows.get_index_of(row) {
        Some(at) => at,
        None => 0,
    }
}

// The numbers of some imports.
#[tactic(auto, using(crate::proofs::UseLemmas::numbering))]
fn ranks_of(
    alloc: Global,
    rows: &IndexSet<ImportRow>,
    some: &[ImportRow],
) -> Result<Vec<usize>, OutOfMemory>
    ensures { IfOk result (λ ranks. ranks.items ≡ map (spec.rank_in same_row rows.now.keys) some.now) }
{
    let mut ranks = Vec::with_capacity(alloc, some.len())?;
    for row in some {
        ranks.push(rank_of(rows, row))?;
    }
    Ok(ranks)
}

// A list of the same imports.
fn copies(alloc: Global, rows: &[ImportRow]) -> Result<Vec<ImportRow>, OutOfMemory>
    ensures { IfOk result (λ copies. copies.items ≡ rows.now) }
{
    let copies = rows.to_vec(alloc)?;
    Ok(copies)
}

/// The imports of the wide form, by those of the narrow one, their numbers and what is held for each pointer there.
pub(crate) fn widened(
    alloc: Global,
    narrow: &[ImportRow],
    ranks: &[usize],
    held: &[usize],
    fixups: &[Fixup],
) -> Result<WideImports, OutOfMemory>
    requires rows { narrow.now ≡ rows_at 1 (spec.imports_in false fixups.now) }
    requires numbers { spec.AreNumbers false fixups.now (spec.imports_in false fixups.now) (spec.numbers_by ranks.now held.now) }
    ensures rows { IfOk result (λ wide. wide.rows.items ≡ rows_at 1 (spec.imports_in true fixups.now)) }
    ensures numbers { IfOk result (λ wide. spec.AreNumbers true fixups.now (spec.imports_in true fixups.now) (spec.numbers_by wide.ranks.items wide.held.items)) }
    ensures others { IfOk result (λ wide. spec.AreOthers fixups.now held.now wide.held.items) }
{
    let all = gathered(alloc, narrow, ranks, held, fixups)?;
    let mut rows = all.rows;
    let used = copies(alloc, rows.as_slice())?;
    rows.sort()?;
    let ranks = ranks_of(alloc, &rows, used.as_slice())?;
    let rows = copies(alloc, rows.as_slice())?;
    Ok(WideImports {
        rows,
        ranks,
        held: all.held,
    })
}
