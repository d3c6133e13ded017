//! The race for marks, for markers in threads of their own.
ghost use Rattle.std.specs.Prelude.{◌≡◌, ℕ, ◌+◌, ◌-◌, ◌<◌, ◌≤◌, ◌||◌, [], ◌∷◌, ◌++◌, true, false, cond, length, IfOk, slice_index_or};
ghost use Rattle.mark_race.specs.Marks.{AreGains, at_start, is_marked, times};

use crate::bits::{pack, unpack};
use crate::rule::{Cut, Law, Looks, Marks, Merge, Share, Terms, View};
use atomic_table::{Seat, Table};
use mo_types::OutOfMemory;
use std::alloc::Global;
use std::marker::{Brand, Model};

/// A race for marks. Contracts see which it is, the atoms that are marked at the start, and how many passes its markers
/// have together.
#[derive(Drop)]
pub struct MarkRace {
    table: Table<(), View, Terms, Law, Global>,
}

impl Model for MarkRace {
    ghost use Rattle.std.specs.Prelude.{◌≡◌, ◌+◌, ◌/◌, length};
    ghost use Rattle.mark_race.specs.Marks.{Race};

    ghost Value = { Race };

    ghost view = { λ r. record { id = r.table.shared.table_id; start = r.table.shared.key.start.items; passes = r.table.shared.key.passes } };

    ghost invariant = { λ r. (r.table.shared.table_id.slots ≡ 0)
        × (r.table.shared.table_id.words ≡ length r.table.shared.key.start.items / 64 + 1) };
}

/// A marker. Contracts see its race, its passes, what it marked or took over, and what of that it was the first to mark.
/// One that is dropped takes its passes with it, and its race can't be settled any more.
#[derive(Drop)]
pub struct Marker {
    seat: Seat<(), View>,
}

impl Model for Marker {
    ghost use Rattle.std.specs.Prelude.{◌≡◌, ◌<◌, []};
    ghost use Rattle.mark_race.specs.Marks.{Holding};

    ghost Value = { Holding };

    ghost view = { λ m. record {
      race = record { id = m.seat.table_id; start = m.seat.me.0.start; passes = m.seat.me.0.all_passes };
      passes = m.seat.me.0.passes;
      marks = m.seat.me.0.marks;
      gains = m.seat.me.0.gains;
    } };

    ghost invariant = { λ m. (m.seat.me.1 ≡ []) × (0 < m.seat.me.0.passes) };
}

impl MarkRace {
    /// Begins a race in which some atoms are marked at the start, and a marker with all its passes.
    pub fn begin(
        alloc: Global,
        start: &[bool],
        passes: u64,
    ) -> Result<(MarkRace, Marker), OutOfMemory>
        requires passes { 0 < passes }
        ensures race { IfOk result (λ r. (r.0.start ≡ start.now) × (r.0.passes ≡ passes)) }
        ensures marker { IfOk result (λ r. r.1 ≡ record { race = r.0; passes = passes; marks = []; gains = [] }) }
    {
        let words = pack(alloc, start)?;
        let terms = Terms {
            start: Vec::from_slice(alloc, start)?,
            passes,
        };
        let (table, seat) = Table::of_words(alloc, words.as_slice(), &terms)?;
        Ok((MarkRace { table }, Marker { seat }))
    }

    /// Gives passes to a new marker, which marked and gained nothing.
    pub fn split(&self, marker: &mut Marker, passes: u64) -> Marker
        requires marker { marker.old.race ≡ self.now }
        requires passes { (0 < passes) × (passes < marker.old.passes) }
        ensures old { marker.new ≡ record marker.old { passes = marker.old.passes - passes } }
        ensures new { result ≡ record { race = self.now; passes = passes; marks = []; gains = [] } }
    {
        split_as::<Brand>(self, marker, passes)
    }

    /// Takes in another marker: its passes, its marks and its gains.
    pub fn join(&self, marker: &mut Marker, other: Marker)
        requires marker { marker.old.race ≡ self.now }
        requires other { other.race ≡ self.now }
        ensures { marker.new ≡ record marker.old {
          passes = marker.old.passes + other.passes;
          marks = marker.old.marks ++ other.marks;
          gains = marker.old.gains ++ other.gains;
        } }
    {
        self.table
            .shared
            .join_seat::<Merge>(&mut marker.seat, other.seat);
    }

    /// Marks an atom, in one atomic step. Answers whether this was the first mark of an atom that wasn't marked at the start:
    /// then the marker gains it.
    pub fn mark(&self, marker: &mut Marker, atom: u32) -> bool
        requires marker { marker.old.race ≡ self.now }
        requires atom { atom < length self.now.start }
        ensures new { result ≡ true → is_marked self.now.start marker.old.marks atom ≡ false }
        ensures marker { marker.new ≡ record marker.old {
          marks = marker.old.marks ++ atom ∷ [];
          gains = marker.old.gains ++ cond result (atom ∷ []) [];
        } }
    {
        let bit = 1u64 << (atom % 64);
        let found = self
            .table
            .shared
            .fetch_or::<Marks>(&mut marker.seat, (atom / 64) as usize, bit);
        found & bit == 0
    }

    /// Looks, in one atomic step, and tells that each atom was gained once.
    pub(crate) fn look(&self, marker: &mut Marker)
        requires marker { marker.old.race ≡ self.now }
        ensures once { (atom : ℕ) → times atom marker.old.gains ≤ 1 }
        ensures within { (atom : ℕ) → 0 < times atom marker.old.gains → atom < length self.now.start }
        ensures same { marker.new ≡ marker.old }
    {
        self.table.shared.load::<Looks>(&mut marker.seat, 0);
    }

    /// Ends the race with the marker that has all passes, and writes for each atom whether it is marked.
    pub fn settle(self, marker: Marker, into: &mut [bool])
        requires marker { marker.race ≡ self }
        requires passes { marker.passes ≡ self.passes }
        requires places { length into.old ≡ length self.start }
        ensures places { length into.new ≡ length into.old }
        ensures marked { (atom : ℕ) → atom < length self.start → slice_index_or into.new atom false ≡ is_marked self.start marker.marks atom }
        ensures gains { AreGains self.start marker.marks marker.gains }
    {
        let closed = self.table.close_with(marker.seat);
        unpack(&closed, into);
        closed.free();
    }
}

// Gives away as many passes as the caller picks for `J`.
fn split_as<J: Share>(race: &MarkRace, marker: &mut Marker, passes: u64) -> Marker
    requires count { passes ≡ J.count }
    requires marker { marker.old.race ≡ race.now }
    requires passes { (0 < passes) × (passes < marker.old.passes) }
    ensures old { marker.new ≡ record marker.old { passes = marker.old.passes - passes } }
    ensures new { result ≡ record { race = race.now; passes = passes; marks = []; gains = [] } }
{
    Marker {
        seat: race.table.shared.split_seat::<Cut<J>>(&mut marker.seat),
    }
}
