//! Whether all branches reach without islands, as those of nearly all images do.
ghost use Rattle.std.specs.Prelude.{◌≡◌, ◌+◌, ◌*◌, ◌<◌, ◌^◌, All, IfSome, true};
ghost use Rattle.std.specs.Option.{option_map};
ghost use Rattle.island_core.specs.Far as far;
ghost use Rattle.islands.specs.Text as text;
ghost use Rattle.islands.specs.inner.Ground as spec;

use crate::branch::Branch;
use crate::ground::{Ground, ground_of};
use crate::row::raised;
use crate::text::place_of;
use atom_index::is_same;
use mo_types::{AtomKey, Goal};
use sect_place::{BranchTarget, Layout, address};

// Whether all branches go into `__TEXT` without an addend, and are in reach. It looks at addresses alone, and says no
// where these don't tell.
pub(crate) fn all_reach(layout: &Layout, branches: &[Branch], reach: u32) -> bool
    requires { spec.IsTold layout.now }
    ensures { result ≡ true → All (spec.IsQuick layout.now reach) branches.now }
{
    let ground = ground_of(layout);
    let mut last = None;
    for branch in branches {
        let from = from_in(layout, last, &branch.atom);
        last = Some((branch.atom, from));
        if !reaches(layout, &ground, branch, from, reach) {
            return false;
        }
    }
    true
}

// Where a branch's atom stands, which mostly is that of the branch before.
fn from_in(layout: &Layout, last: Option<(AtomKey, u64)>, key: &AtomKey) -> u64
    requires layout { spec.IsTold layout.now }
    requires last { IfSome last (λ known. known.1 ≡ text.place_in layout.now known.0) }
    ensures { result ≡ text.place_in layout.now key.now }
{
    match last {
        Some((atom, place)) => {
            if is_same(&atom, key) {
                place
            } else {
                place_of(layout, key)
            }
        }
        None => place_of(layout, key),
    }
}

// Whether a branch without an addend goes into `__TEXT` and is in reach, whose atom stands at a place.
fn reaches(layout: &Layout, ground: &Ground, branch: &Branch, from: u64, reach: u32) -> bool
    requires layout { spec.IsTold layout.now }
    requires ground { spec.IsGround layout.now ground.now }
    requires from { from ≡ text.place_in layout.now branch.now.atom }
    ensures { result ≡ true → spec.IsQuick layout.now reach branch.now }
{
    if branch.target.addend != 0 {
        return false;
    }
    match place_in_text(layout, ground, &branch.target) {
        Some(to) => {
            let from = u128::from(from) + u128::from(branch.place);
            in_reach(u128::from(reach), raised(from, 0), raised(to, 0))
        }
        None => false,
    }
}

// Whether a branch reaches from a place to another.
fn in_reach(reach: u128, from: u128, to: u128) -> bool
    requires reach { reach < 2 ^ 64 }
    requires from { from < 2 ^ 66 }
    requires to { to < 2 ^ 66 }
    ensures { result ≡ far.in_reach reach from to }
{
    from <= to + reach && to + 4 <= from + reach && from % 4 == to % 4
}

// Where a target stands, if that is in `__TEXT` as its address tells.
fn place_in_text(layout: &Layout, ground: &Ground, target: &BranchTarget) -> Option<u128>
    requires layout { spec.IsTold layout.now }
    requires ground { spec.IsGround layout.now ground.now }
    ensures place { IfSome result (spec.IsPlaceIn layout.now target.now) }
    ensures near { IfSome result (λ place. place < 2 ^ 65) }
{
    match target.stub {
        Some(number) => stub_place(ground.stubs, number),
        None => goal_place(layout, ground, &target.goal),
    }
}

fn stub_place(stubs: Option<u64>, number: u32) -> Option<u128>
    ensures exact { result ≡ option_map (λ at. at + 12 * number) stubs }
    ensures near { IfSome result (λ place. place < 2 ^ 65) }
{
    match stubs {
        Some(at) => Some(u128::from(at) + 12 * u128::from(number)),
        None => None,
    }
}

fn goal_place(layout: &Layout, ground: &Ground, goal: &Goal) -> Option<u128>
    requires layout { spec.IsTold layout.now }
    requires ground { spec.IsGround layout.now ground.now }
    ensures place { IfSome result (spec.IsGoalIn layout.now goal.now) }
    ensures near { IfSome result (λ place. place < 2 ^ 65) }
{
    match goal {
        Goal::Def(key, offset) => atom_place(layout, ground.end, key, *offset),
        Goal::WeakSelf(_name, key, offset) => atom_place(layout, ground.end, key, *offset),
        Goal::Header => Some(u128::from(ground.header)),
        Goal::Import { .. } | Goal::Flat(_) | Goal::Nobody => None,
    }
}

fn atom_place(layout: &Layout, end: u128, key: &AtomKey, offset: u64) -> Option<u128>
    requires layout { spec.IsTold layout.now }
    requires end { end ≡ spec.text_end layout.now.segments }
    ensures place { IfSome result (spec.IsAtomIn layout.now key.now offset) }
    ensures near { IfSome result (λ place. place < 2 ^ 65) }
{
    match address(layout, *key) {
        Some(at) => {
            if u128::from(at) < end {
                Some(u128::from(at) + u128::from(offset))
            } else {
                None
            }
        }
        None => None,
    }
}
