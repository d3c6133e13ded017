//! The winning candidates in the order of their names.
ghost use Rattle.std.specs.Prelude.{◌≡◌, IfOk, IsPermutation};
ghost use Rattle.std.specs.List.{filter_map};
ghost use Rattle.std.specs.List.Sorted.{IsSortedBy};
ghost use Rattle.std.specs.Ordering.{is_lt, nat_cmp};
ghost use Rattle.std.specs.Cmp.Lexicographic.{slice_cmp};
ghost use Rattle.symbol_winners.specs.inner.Best as bests;

use crate::best::Best;
use crate::found::FoundIn;
use crate::keyed::Keyed;
use mo_types::OutOfMemory;
use std::alloc::Global;

/// A winning candidate, with the greatest size and alignment of the common symbols of its name.
#[derive(Clone, Copy)]
pub(crate) struct Chosen<'a> {
    pub found: FoundIn<'a>,
    pub size: u64,
    pub align: u8,
}

// Those of a table, with their keys.
#[tactic(auto, using(crate::proofs::ChosenLemmas::choosing))]
fn chosen_in<'t, 'a>(
    alloc: Global,
    table: &'t [Best<'a>],
) -> Result<Vec<Keyed<'t, 'a>>, OutOfMemory>
    ensures { IfOk result (λ list. list.items ≡ filter_map bests.chosen_of table.now) }
{
    let mut list = Vec::with_capacity(alloc, table.len())?;
    for best in table {
        if let Some(keyed) = Keyed::of(best) {
            list.push(keyed)?;
        }
    }
    Ok(list)
}

fn put_in_order(list: &mut Vec<Keyed>)
    ensures permutation { IsPermutation list.old.items list.new.items }
    ensures sorted { IsSortedBy (λ a b. is_lt (slice_cmp nat_cmp (bests.chosen_name a) (bests.chosen_name b))) list.new.items }
{
    list.sort_unstable_by(|a, b| a.by_name(b));
}

// The candidates alone, in the order in which they stand.
#[tactic(auto, using(crate::proofs::ChosenLemmas::taking_out))]
fn without_keys<'a>(alloc: Global, list: &[Keyed<'_, 'a>]) -> Result<Vec<Chosen<'a>>, OutOfMemory>
    ensures { IfOk result (λ chosen. chosen.items ≡ list.now) }
{
    let mut chosen = Vec::with_capacity(alloc, list.len())?;
    for keyed in list {
        chosen.push(keyed.chosen())?;
    }
    Ok(chosen)
}

/// Those of a table, which is let go, in the byte order of their names.
pub(crate) fn chosen_by_name<'a>(
    alloc: Global,
    table: Vec<Best<'a>>,
) -> Result<Vec<Chosen<'a>>, OutOfMemory>
    ensures permutation { IfOk result (λ list. IsPermutation (filter_map bests.chosen_of table.entry.items) list.items) }
    ensures sorted { IfOk result (λ list. IsSortedBy (λ a b. is_lt (slice_cmp nat_cmp (bests.chosen_name a) (bests.chosen_name b))) list.items) }
{
    let mut list = chosen_in(alloc, table.as_slice())?;
    put_in_order(&mut list);
    without_keys(alloc, list.as_slice())
}
