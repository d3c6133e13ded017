//! Where the symbols of a file lead, by the places of their goals in a pool.
ghost use Rattle.std.specs.Prelude.{◌≡◌, ◌≤◌, IfOk, length, slice_get, true};
ghost use Rattle.std.specs.Option.{option_and_then};
ghost use Rattle.liveness.specs.inner.Away.{AreNone, ended, ends_in};

use mo_types::{AtomKey, OutOfMemory};
use std::marker::Model;

/// For each symbol of a file the atom to which it leads, where there is one that counts. Contracts see the list of these. The
/// pool may have fewer ends than goals: a place past its end leads nowhere.
#[derive(Drop)]
pub struct Ends<'a> {
    pool: &'a [Option<AtomKey>],
    places: &'a [u32],
}

impl<'a> Model for Ends<'a> {
    ghost use Rattle.std.specs.Prelude.{List, Option};
    ghost use Rattle.mo_types.specs.declared.key.AtomKey.{AtomKey};
    ghost use Rattle.liveness.specs.inner.Away.{ends_in};

    ghost Value = { List (Option AtomKey) };

    ghost view = { λ ends. ends_in ends.pool.now ends.places.now };
}

impl<'a> Ends<'a> {
    /// Those of the symbols that have these places in a pool.
    pub(crate) fn new(pool: &'a [Option<AtomKey>], places: &'a [u32]) -> Ends<'a>
        ensures { result ≡ ends_in pool.now places.now }
    {
        Ends { pool, places }
    }

    /// Whether it is known that no symbol leads to an atom that counts.
    pub(crate) fn are_none(&self) -> bool
        ensures { result ≡ true → AreNone self.now }
    {
        self.pool.is_empty()
    }

    /// The atom to which the symbol of an index leads.
    #[tactic(auto, using(crate::proofs::PlacedLemmas::ends))]
    pub(crate) fn get(&self, index: usize) -> Option<AtomKey>
        ensures { result ≡ option_and_then (λ end. end) (slice_get self.now index) }
    {
        let place = self.places.get(index)?;
        *self.pool.get(*place as usize)?
    }
}

/// Ends of the goals of a pool before a place, and that of the goal there. Only one that leads somewhere is put; those that are
/// missing before it lead nowhere.
#[tactic(auto, using(crate::proofs::AwayLemmas::puts))]
pub(crate) fn with_end(
    before: Vec<Option<AtomKey>>,
    at: usize,
    end: Option<AtomKey>,
) -> Result<Vec<Option<AtomKey>>, OutOfMemory>
    requires { length before.items ≤ at }
    ensures { IfOk result (λ new. new.items ≡ ended before.items at end) }
{
    let Some(atom) = end else {
        return Ok(before);
    };
    let mut ends = before;
    ends.resize(at, None)?;
    ends.push(Some(atom))?;
    Ok(ends)
}
