//! The first reference that tells an address which another image has.
ghost use Rattle.std.specs.Prelude.{◌≡◌, ◌∷◌, [], false, fold, slice_get};
ghost use Rattle.std.specs.List.{list_any};
ghost use Rattle.std.specs.List.Sorted.{IsStrictlySortedBy};
ghost use Rattle.std.specs.Option.{option_map_or, option_to_list};
ghost use Rattle.std.specs.Ordering.{is_lt};
ghost use Rattle.liveness.specs.Undefined.{targets_of};
ghost use Rattle.mo_types.specs.Keys.{compare_keys};
ghost use Rattle.resolve.specs.Table.{file_goals, goals_of};
ghost use Rattle.slot_needs.specs.Needs as needs;
ghost use Rattle.slot_needs.specs.Unmet as spec;
ghost use Rattle.slot_needs.specs.Unmet.{IsFirst, lesser};

use crate::referring::Referring;
use crate::ways::is_outer;
use mark_core::is_kept;
use mo_types::{AtomKey, Goal, LoadedFile, Ref, RefKind, RefList, Target};
use resolve::FileGoals;

/// A reference that tells an address or a distance which another image has.
#[derive(Clone, Copy, Debug, PartialEq, Eq)]
pub struct Unmet {
    /// The place of its file among the loaded ones, counted from 0.
    pub file: usize,
    pub reference: Ref,
}

// Whether a reference tells an address itself.
#[inline(always)]
fn tells_address(reference: &Ref) -> bool
    ensures { result ≡ spec.tells_address reference.now.kind reference.now.addend }
{
    let addend = reference.addend;
    match reference.kind {
        RefKind::Branch => addend != 0,
        RefKind::Page | RefKind::PageOff | RefKind::Diff32 | RefKind::Diff64 => true,
        _ => false,
    }
}

// Whether a target leads to another image.
#[inline(always)]
fn leads_out(goals: &FileGoals, target: Target) -> bool
    ensures { result ≡ spec.leads_out (file_goals goals.now) target }
{
    match target {
        Target::Name(index) => match goals.get(index as usize) {
            Some(goal) => is_outer(goal),
            None => false,
        },
        Target::Local(_, _) => false,
    }
}

// Whether one of a reference's targets does.
#[inline(always)]
fn any_leads_out(goals: &FileGoals, reference: &Ref) -> bool
    ensures { result ≡ list_any (spec.leads_out (file_goals goals.now)) (targets_of reference.now.target reference.now.minus) }
{
    if leads_out(goals, reference.target) {
        return true;
    }
    match reference.minus {
        Some(minus) => leads_out(goals, minus),
        None => false,
    }
}

#[tactic(auto, unfolding(crate::specs::Unmet::is_unmet))]
#[inline(always)]
fn is_unmet(goals: &FileGoals, reference: &Ref) -> bool
    ensures { result ≡ spec.is_unmet (file_goals goals.now) reference.now }
{
    tells_address(reference) && any_leads_out(goals, reference)
}

// Whether a reference comes before another one: its atom, or in the same atom its place.
#[tactic(auto, unfolding(crate::specs::Unmet::compare_unmet))]
fn is_before(one: &Unmet, other: &Unmet) -> bool
    ensures { result ≡ is_lt (spec.compare_unmet one.now other.now) }
{
    let (one, other) = (&one.reference, &other.reference);
    one.atom
        .cmp(&other.atom)
        .then(one.place.cmp(&other.place))
        .is_lt()
}

// The lesser of two.
fn lesser(least: Option<Unmet>, next: Unmet) -> Option<Unmet>
    ensures { result ≡ lesser least next }
{
    match least {
        Some(least) if !is_before(&next, &least) => Some(least),
        _ => Some(next),
    }
}

// The least with a reference of the file at a place, where it is one and its atom is kept.
fn with_ref(
    least: Option<Unmet>,
    keys: &[AtomKey],
    goals: &FileGoals,
    file: usize,
    reference: Ref,
) -> Option<Unmet>
    requires { IsStrictlySortedBy compare_keys keys.now }
    ensures { result ≡ fold lesser least (spec.unmet_among keys.now (file_goals goals.now) file (reference ∷ [])) }
{
    if is_unmet(goals, &reference) && is_kept(keys, reference.atom) {
        return lesser(least, Unmet { file, reference });
    }
    least
}

// Whether the reference at a place of a file's list is such a one. All are asked, and few are: it reads no more of one than
// that takes.
#[inline(always)]
fn is_unmet_at(goals: &FileGoals, refs: &RefList, at: usize) -> bool
    ensures { result ≡ option_map_or (spec.is_unmet (file_goals goals.now)) (slice_get refs.now at) false }
{
    match refs.get(at) {
        Some(reference) => is_unmet(goals, &reference),
        None => false,
    }
}

// The least with the reference at a place of the list of the file at a place.
fn with_next(
    least: Option<Unmet>,
    keys: &[AtomKey],
    goals: &FileGoals,
    file: usize,
    refs: &RefList,
    at: usize,
) -> Option<Unmet>
    requires { IsStrictlySortedBy compare_keys keys.now }
    ensures { result ≡ fold lesser least (spec.unmet_among keys.now (file_goals goals.now) file (option_to_list (slice_get refs.now at))) }
{
    match refs.get(at) {
        Some(reference) => with_ref(least, keys, goals, file, reference),
        None => least,
    }
}

// The least with the references of the file at a place.
fn with_refs(
    least: Option<Unmet>,
    keys: &[AtomKey],
    goals: &FileGoals,
    file: usize,
    refs: &RefList,
) -> Option<Unmet>
    requires { IsStrictlySortedBy compare_keys keys.now }
    ensures { result ≡ fold lesser least (spec.unmet_among keys.now (file_goals goals.now) file refs.now) }
{
    let mut now = least;
    for at in 0..refs.len() {
        if is_unmet_at(goals, refs, at) {
            now = with_next(now, keys, goals, file, refs, at);
        }
    }
    now
}

// The least with those of the file at a place, whose symbols have goals there.
#[tactic(auto, using(crate::proofs::UnmetLemmas::place))]
fn with_file(
    least: Option<Unmet>,
    referring: &Referring,
    at: usize,
    file: &LoadedFile,
) -> Option<Unmet>
    requires { IsStrictlySortedBy compare_keys referring.now.keys.now }
    ensures { result ≡ fold lesser least (spec.unmet_at referring.now.keys.now (goals_of referring.now.goals.now) (at, file.now)) }
{
    match referring.goals.file(at) {
        Some(goals) => with_refs(least, referring.keys.as_slice(), &goals, at, &file.refs),
        None => least,
    }
}

// The least of all files.
fn least_of(referring: &Referring) -> Option<Unmet>
    requires { IsStrictlySortedBy compare_keys referring.now.keys.now }
    ensures { result ≡ spec.least_unmet (spec.unmet_of referring.now) }
{
    let mut now = None;
    for (at, file) in referring.loaded.files.as_slice().iter().enumerate() {
        now = with_file(now, referring, at, file);
    }
    now
}

fn any_outer(goals: &[Goal]) -> bool
    ensures { result ≡ list_any needs.is_outer goals.now }
{
    goals.iter().any(is_outer)
}

/// The first reference of a kept atom that tells an address or a distance which another image has: by atom, and then by its
/// place in the atom. `None` exactly where there is no such reference. Where no goal is in another image, no file is gone
/// through. Takes no memory.

pub fn first_unmet(referring: &Referring) -> Option<Unmet>
    requires { IsStrictlySortedBy compare_keys referring.now.keys.now }
    ensures { IsFirst (spec.unmet_of referring.now) result }
{
    if !any_outer(referring.goals.pool()) {
        return None;
    }
    least_of(referring)
}
