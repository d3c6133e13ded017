//! Names in an order: by their lengths, and by their bytes where these are equal. Names of one length that end before
//! two NULs don't overlap, so that comparing them reads each byte of the strings a bounded number of times.

ghost use Rattle.std.specs.Prelude.{◌≡◌, All, IfOk};
ghost use Rattle.mo_ar.specs.Text.{part};
ghost use Rattle.mo_ar.specs.inner.Index.{IsEntry};
ghost use Rattle.mo_ar.specs.inner.Order as orders;

use crate::offers::Entry;
use mo_types::OutOfMemory;
use std::alloc::Global;

/// An entry with its name.
#[derive(Clone, Copy, Debug)]
struct Named<'a> {
    name: &'a [u8],
    entry: Entry,
}

/// The name of an entry.
#[inline(always)]
pub fn name_of(strings: &[u8], entry: Entry) -> &[u8]
    requires { IsEntry strings.now entry }
    ensures { result.now ≡ part strings.now entry.at entry.size }
{
    &strings[entry.at as usize..][..entry.size as usize]
}

// Whether a name stands before another.
fn is_before(a: &[u8], b: &[u8]) -> bool
    ensures { result ≡ orders.is_before a.now b.now }
{
    a.len() < b.len() || a.len() == b.len() && a.cmp(b).is_lt()
}

/// The place of a name among those of the entries: the first that it doesn't stand behind, where they are in order.
#[tactic(auto, using(crate::proofs::OrderLemmas::halvings))]
pub fn rank(strings: &[u8], order: &[Entry], name: &[u8]) -> usize
    requires { All (IsEntry strings.now) order.now }
    ensures { result ≡ orders.rank strings.now order.now name.now }
{
    let mut low = 0;
    let mut high = order.len();
    while low < high {
        let middle = low + (high - low) / 2;
        if is_before(name_of(strings, order[middle]), name) {
            low = middle + 1;
        } else {
            high = middle;
        }
    }
    low
}

// The entries with their names.
fn with_names<'a>(
    alloc: Global,
    strings: &'a [u8],
    entries: &[Entry],
) -> Result<Vec<Named<'a>>, OutOfMemory>
    requires { All (IsEntry strings.now) entries.now }
    ensures { IfOk result (λ names. All (λ named. IsEntry strings.now named.entry) names.items) }
{
    let mut names = Vec::with_capacity(alloc, entries.len())?;
    for entry in entries {
        names.push(Named {
            name: name_of(strings, *entry),
            entry: *entry,
        })?;
    }
    Ok(names)
}

/// The entries in the order of their names.
pub fn in_order(alloc: Global, strings: &[u8], entries: &[Entry]) -> Result<Vec<Entry>, OutOfMemory>
    requires { All (IsEntry strings.now) entries.now }
    ensures { IfOk result (λ order. All (IsEntry strings.now) order.items) }
{
    let mut names = with_names(alloc, strings, entries)?;
    names.sort_unstable_by(|a, b| a.name.len().cmp(&b.name.len()).then(a.name.cmp(b.name)));
    let mut order = Vec::with_capacity(alloc, names.len())?;
    for named in &names {
        order.push(named.entry)?;
    }
    Ok(order)
}
