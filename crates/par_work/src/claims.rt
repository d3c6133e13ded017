//! Numbers that drawers in threads of their own draw from one counter, each once.
ghost use Rattle.std.specs.Prelude.{◌≡◌, ℕ, ◌+◌, ◌-◌, ◌<◌, [], ◌∷◌, ◌++◌, length, IfOk};
ghost use Rattle.par_work.specs.Drawn.{times, AreBelow};

use crate::rule::{Cut, Draws, Law, Merge, Share, Terms, View};
use atomic_table::{Seat, Table};
use mo_types::OutOfMemory;
use std::alloc::Global;
use std::marker::{Brand, Model};

/// A counter of which each number is claimed once. Contracts see which it is, and how many passes its drawers
/// have together: a pass is the right to one draw.
#[derive(Drop)]
pub struct Claims {
    table: Table<(), View, Terms, Law, Global>,
}

impl Model for Claims {
    ghost use Rattle.std.specs.Prelude.{◌≡◌, ◌<◌, ◌^◌};
    ghost use Rattle.par_work.specs.Drawn.{Counter};

    ghost Value = { Counter };

    ghost view = { λ c. record { id = c.table.shared.table_id; passes = c.table.shared.key.passes } };

    ghost invariant = { λ c. (c.table.shared.table_id.slots ≡ 0) × (c.table.shared.table_id.words ≡ 1) × (c.table.shared.key.passes < 2 ^ 64) };
}

/// A worker's right to draw. Contracts see its claims, its passes and what it drew or took over. One that is
/// dropped takes its passes with it, and its claims can't be closed any more.
#[derive(Drop)]
pub struct Drawer {
    seat: Seat<(), View>,
}

impl Model for Drawer {
    ghost use Rattle.std.specs.Prelude.{◌≡◌, []};
    ghost use Rattle.par_work.specs.Drawn.{Holding};

    ghost Value = { Holding };

    ghost view = { λ d. record { claims = d.seat.table_id; passes = d.seat.me.0.passes; draws = d.seat.me.0.draws } };

    ghost invariant = { λ d. d.seat.me.1 ≡ [] };
}

impl Claims {
    /// Begins claims at 0, with a drawer that has all passes and drew nothing.
    pub fn begin(alloc: Global, passes: u64) -> Result<(Claims, Drawer), OutOfMemory>
        requires { 0 < passes }
        ensures passes { IfOk result (λ r. r.0.passes ≡ passes) }
        ensures drawer { IfOk result (λ r. r.1 ≡ record { claims = r.0.id; passes = passes; draws = [] }) }
    {
        let (table, seat) = Table::of_words(alloc, &[0], &Terms { passes })?;
        Ok((Claims { table }, Drawer { seat }))
    }

    /// Gives passes to a new drawer, which drew nothing.
    pub fn split(&self, drawer: &mut Drawer, passes: u64) -> Drawer
        requires drawer { drawer.old.claims ≡ self.now.id }
        requires passes { (0 < passes) × (passes < drawer.old.passes) }
        ensures old { drawer.new ≡ record drawer.old { passes = drawer.old.passes - passes } }
        ensures new { result ≡ record { claims = self.now.id; passes = passes; draws = [] } }
    {
        split_as::<Brand>(self, drawer, passes)
    }

    /// Takes in another drawer: its passes and its draws.
    pub fn join(&self, drawer: &mut Drawer, other: Drawer)
        requires drawer { drawer.old.claims ≡ self.now.id }
        requires other { other.claims ≡ self.now.id }
        ensures { drawer.new ≡ record drawer.old { passes = drawer.old.passes + other.passes; draws = drawer.old.draws ++ other.draws } }
    {
        self.table
            .shared
            .join_seat::<Merge>(&mut drawer.seat, other.seat);
    }

    /// Spends a pass on the next number, in one atomic step. It is none that the drawer drew before.
    pub fn draw(&self, drawer: &mut Drawer) -> u64
        requires drawer { drawer.old.claims ≡ self.now.id }
        requires pass { 0 < drawer.old.passes }
        ensures new { times result drawer.old.draws ≡ 0 }
        ensures drawer { drawer.new ≡ record drawer.old { passes = drawer.old.passes - 1; draws = drawer.old.draws ++ result ∷ [] } }
    {
        self.table.shared.fetch_add::<Draws>(&mut drawer.seat, 0, 1)
    }

    /// Ends the claims with the drawer whose passes and draws are all that there were. Answers how many numbers
    /// were drawn: they are those below it, each once.
    pub fn close(self, drawer: Drawer) -> u64
        requires drawer { drawer.claims ≡ self.id }
        requires all { drawer.passes + length drawer.draws ≡ self.passes }
        ensures count { result ≡ length drawer.draws }
        ensures draws { AreBelow result drawer.draws }
    {
        let closed = self.table.close_with(drawer.seat);
        let count = closed.word(0);
        closed.free();
        count
    }
}

// Gives away as many passes as the caller picks for `J`.
fn split_as<J: Share>(claims: &Claims, drawer: &mut Drawer, passes: u64) -> Drawer
    requires count { passes ≡ J.count }
    requires drawer { drawer.old.claims ≡ claims.now.id }
    requires passes { (0 < passes) × (passes < drawer.old.passes) }
    ensures old { drawer.new ≡ record drawer.old { passes = drawer.old.passes - passes } }
    ensures new { result ≡ record { claims = claims.now.id; passes = passes; draws = [] } }
{
    Drawer {
        seat: claims.table.shared.split_seat::<Cut<J>>(&mut drawer.seat),
    }
}
