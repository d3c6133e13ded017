ghost use Rattle.std.specs.Prelude.{◌≡◌, ◌<◌, length, slice_get, All, IfSome, OnSome};
ghost use Rattle.std.specs.Option.{option_copied, option_map};
ghost use Rattle.resolve.specs.Table.{AreWithin, Pooled, Tabled, goals_in, goals_of};

use mo_types::{Goal, Items};
use std::marker::Model;

/// For each symbol of a file, in the order of its table, the place of its goal in a pool.
pub type PlaceList = Items<u32>;

/// The goals of each file's symbols, file by file. Contracts see a pool of goals and the places that symbols have in it: what
/// many symbols lead to stands there once.
#[derive(Debug, Drop)]
pub struct GoalTable {
    pool: Vec<Goal>,
    places: Items<PlaceList>,
}

impl Model for GoalTable {
    ghost use Rattle.std.specs.Prelude.{All};
    ghost use Rattle.resolve.specs.Table.{AreWithin, Tabled};

    ghost Value = { Tabled };

    ghost view = { λ table. record { pool = table.pool.items; places = table.places } };

    ghost invariant = { λ table. All (AreWithin table.pool.items) table.places };
}

/// The goals of one file's symbols. Contracts see the pool and the places of these symbols.
#[derive(Debug, Drop)]
pub struct FileGoals<'a> {
    pool: &'a [Goal],
    places: &'a [u32],
}

impl<'a> Model for FileGoals<'a> {
    ghost use Rattle.resolve.specs.Table.{AreWithin, Pooled};

    ghost Value = { Pooled };

    ghost view = { λ goals. record { pool = goals.pool.now; places = goals.places.now } };

    ghost invariant = { λ goals. AreWithin goals.pool.now goals.places.now };
}

// The goal at the place that a list has for a symbol.
#[tactic(auto, using(crate::proofs::PlaceLemmas::found))]
fn goal_at<'a>(pool: &'a [Goal], places: &[u32], index: usize) -> Option<&'a Goal>
    requires { AreWithin pool.now places.now }
    ensures { option_copied result ≡ slice_get (goals_in pool.now places.now) index }
{
    match places.get(index) {
        Some(place) => Some(&pool[*place as usize]),
        None => None,
    }
}

impl GoalTable {
    /// The table of symbols that have these places in a pool.
    pub fn new(pool: Vec<Goal>, places: Items<PlaceList>) -> GoalTable
        requires { All (AreWithin pool.items) places }
        ensures { result ≡ record { pool = pool.items; places = places } }
    {
        GoalTable { pool, places }
    }

    /// All goals, each as often as it stands in the pool.
    pub fn pool(&self) -> &[Goal]
        ensures all { result.now ≡ self.now.pool }
        ensures within { All (AreWithin self.now.pool) self.now.places }
    {
        self.pool.as_slice()
    }

    /// The goals of the symbols of the file at a place, or `None` exactly where there is no such file.
    #[tactic(auto, using(crate::proofs::PlaceLemmas::files))]
    pub fn file(&self, at: usize) -> Option<FileGoals>
        ensures pool { IfSome result (λ goals. goals.pool ≡ self.now.pool) }
        ensures places { option_map (λ goals. goals.places) result ≡ slice_get self.now.places at }
        ensures goals { option_map (λ goals. goals_in goals.pool goals.places) result ≡ slice_get (goals_of self.now) at }
    {
        match self.places.get(at) {
            Some(places) => Some(FileGoals {
                pool: self.pool.as_slice(),
                places: places.as_slice(),
            }),
            None => None,
        }
    }
}

impl<'a> FileGoals<'a> {
    /// The goal of the symbol of an index, or `None` exactly where there is no such symbol. Takes no memory.
    pub fn get(&self, index: usize) -> Option<&Goal>
        ensures { option_copied result ≡ slice_get (goals_in self.now.pool self.now.places) index }
    {
        goal_at(self.pool, self.places, index)
    }

    /// The place in the pool of the goal of the symbol of an index, or `None` exactly where there is no such symbol.
    pub fn place(&self, index: usize) -> Option<usize>
        ensures exact { result ≡ slice_get self.now.places index }
        ensures within { IfSome result (λ place. place < length self.now.pool) }
    {
        match self.places.get(index) {
            Some(place) => Some(*place as usize),
            None => None,
        }
    }

    /// The places of all symbols, in order.
    pub fn places(&self) -> &[u32]
        ensures all { result.now ≡ self.now.places }
        ensures within { AreWithin self.now.pool self.now.places }
    {
        self.places
    }
}
