//! The needs of references, file by file.
ghost use Rattle.std.specs.Prelude.{◌≡◌, ◌<◌, ◌∷◌, [], List, IfOk, IfSome, IsTrue, length, slice_get};
ghost use Rattle.std.specs.Option.{option_map, option_to_list};
ghost use Rattle.std.specs.List.Sorted.{IsStrictlySortedBy};
ghost use Rattle.mo_types.specs.Keys.{compare_keys};
ghost use Rattle.mo_types.specs.declared.goal.Goal.{Goal as Goals};
ghost use Rattle.mo_types.specs.declared.key.AtomKey.{AtomKey as AtomKeys};
ghost use Rattle.literal_merge.specs.declared.representative.Representative.{Representative};
ghost use Rattle.resolve.specs.Goals.{target_goal};
ghost use Rattle.resolve.specs.Table.{file_goals, goal_in};
ghost use Rattle.slot_needs.specs.Needs as spec;
ghost use Rattle.slot_needs.specs.Needs.{AreSame};
ghost use Rattle.slot_needs.specs.inner.Gathered.{Adds, file_needs, kept_need, need, needs_among, needs_at};

use crate::gathering::Gathering;
use crate::referring::Referring;
use crate::ways::{is_outer, needs_nothing, way_of};
use mark_core::is_kept;
use mo_types::{AtomKey, Goal, LoadedFile, OutOfMemory, Ref, RefList, Target};
use resolve::{FileGoals, goal_of};
use slot_plan::{NeedList, Way};
use std::alloc::Global;
use symbol_winners::SymbolTable;

// With the need of a goal by a reference, where its atom is kept.
#[tactic(auto, using(crate::proofs::WalkLemmas::one))]
fn note_goal<'a>(
    before: Gathering<'a>,
    keys: &[AtomKey],
    reference: &Ref,
    goal: Goal,
    way: Way,
) -> Result<Gathering<'a>, OutOfMemory>
    requires { IsStrictlySortedBy compare_keys keys.now }
    ensures pool { IfOk result (λ after. after.pool ≡ before.entry.pool) }
    ensures needs { IfOk result (λ after. Adds before.entry.needs (kept_need keys.now reference.now (need goal way)) after.needs) }
{
    if is_kept(keys, reference.atom) {
        before.with(goal, way)
    } else {
        Ok(before)
    }
}

// The same of the goal at a place of the pool.
#[tactic(auto, using(crate::proofs::WalkLemmas::one))]
fn note_place<'a>(
    before: Gathering<'a>,
    keys: &[AtomKey],
    reference: &Ref,
    place: usize,
    way: Way,
) -> Result<Gathering<'a>, OutOfMemory>
    requires keys { IsStrictlySortedBy compare_keys keys.now }
    requires place { place < length before.pool }
    ensures pool { IfOk result (λ after. after.pool ≡ before.entry.pool) }
    ensures needs { IfOk result (λ after. Adds before.entry.needs (kept_need keys.now reference.now (need (goal_in before.entry.pool place) way)) after.needs) }
{
    if !is_kept(keys, reference.atom) {
        return Ok(before);
    }
    before.with_place(place, way)
}

// The place in the pool of the goal to which a target goes, where it goes to a symbol of its file.
#[tactic(auto, using(crate::proofs::WalkLemmas::places))]
#[inline(always)]
fn place_of(goals: &FileGoals, target: Target) -> Option<usize>
    ensures within { IfSome result (λ place. place < length goals.now.pool) }
    ensures goal { (literals : List Representative)
        → IfSome result (λ place. target_goal literals (file_goals goals.now) target ≡ goal_in goals.now.pool place) }
{
    match target {
        Target::Name(index) => goals.place(index as usize),
        Target::Local(_, _) => None,
    }
}

// With what a reference needs that goes to no symbol.
#[tactic(auto, using(crate::proofs::WalkLemmas::refs))]
fn note_other<'a>(
    before: Gathering<'a>,
    keys: &[AtomKey],
    goals: &FileGoals,
    symbols: &SymbolTable,
    reference: &Ref,
) -> Result<Gathering<'a>, OutOfMemory>
    requires { IsStrictlySortedBy compare_keys keys.now }
    ensures pool { IfOk result (λ after. after.pool ≡ before.entry.pool) }
    ensures needs { IfOk result (λ after.
        Adds before.entry.needs (needs_among symbols.now.literals keys.now (file_goals goals.now) (reference.now ∷ [])) after.needs) }
{
    let goal = goal_of(symbols, goals, &reference.target)?;
    match way_of(reference, &goal) {
        Some(way) => note_goal(before, keys, reference, goal, way),
        None => Ok(before),
    }
}

// With what a reference needs, whose goal stands at a place of the pool.
#[tactic(auto, using(crate::proofs::WalkLemmas::refs))]
fn note_named<'a>(
    before: Gathering<'a>,
    keys: &[AtomKey],
    reference: &Ref,
    place: usize,
) -> Result<Gathering<'a>, OutOfMemory>
    requires keys { IsStrictlySortedBy compare_keys keys.now }
    requires place { place < length before.pool }
    ensures pool { IfOk result (λ after. after.pool ≡ before.entry.pool) }
    ensures needs { IfOk result (λ after. (literals : List Representative) (goals : List Goals)
        → target_goal literals goals reference.now.target ≡ goal_in before.entry.pool place
        → Adds before.entry.needs (needs_among literals keys.now goals (reference.now ∷ [])) after.needs) }
{
    match way_of(reference, &before.pool()[place]) {
        Some(way) => note_place(before, keys, reference, place, way),
        None => Ok(before),
    }
}

// With what a reference needs.
#[tactic(auto, using(crate::proofs::WalkLemmas::refs))]
fn note_ref<'a>(
    before: Gathering<'a>,
    keys: &[AtomKey],
    goals: &FileGoals,
    symbols: &SymbolTable,
    reference: &Ref,
) -> Result<Gathering<'a>, OutOfMemory>
    requires keys { IsStrictlySortedBy compare_keys keys.now }
    requires pool { before.pool ≡ goals.now.pool }
    ensures pool { IfOk result (λ after. after.pool ≡ before.entry.pool) }
    ensures needs { IfOk result (λ after.
        Adds before.entry.needs (needs_among symbols.now.literals keys.now (file_goals goals.now) (reference.now ∷ [])) after.needs) }
{
    match place_of(goals, reference.target) {
        Some(place) => note_named(before, keys, reference, place),
        None => note_other(before, keys, goals, symbols, reference),
    }
}

// Whether a reference, whose goal stands at a place of the pool, needs nothing that wasn't needed before; `false` is no news.
#[inline(always)]
fn is_noted(now: &Gathering, reference: &Ref, place: usize) -> bool
    requires place { place < length now.now.pool }
    ensures { IsTrue result → (literals : List Representative) (keys : List AtomKeys) (goals : List Goals)
        → target_goal literals goals reference.now.target ≡ goal_in now.now.pool place
        → Adds now.now.needs (needs_among literals keys goals (reference.now ∷ [])) now.now.needs }
{
    match way_of(reference, &now.pool()[place]) {
        Some(way) => now.has(place, way),
        None => true,
    }
}

// Whether a reference needs nothing that wasn't needed before; `false` is no news. Whether its atom is kept, which takes a
// search, isn't asked.
#[inline(always)]
fn is_settled(now: &Gathering, goals: &FileGoals, reference: &Ref) -> bool
    requires pool { now.now.pool ≡ goals.now.pool }
    ensures { IsTrue result → (literals : List Representative) (keys : List AtomKeys)
        → Adds now.now.needs (needs_among literals keys (file_goals goals.now) (reference.now ∷ [])) now.now.needs }
{
    if needs_nothing(reference.kind) {
        return true;
    }
    match place_of(goals, reference.target) {
        Some(place) => is_noted(now, reference, place),
        None => false,
    }
}

// The same of the reference at a place of a file's list. All are asked, and most need nothing new: it reads no more of one
// than that takes.
#[inline(always)]
fn is_settled_at(now: &Gathering, goals: &FileGoals, refs: &RefList, at: usize) -> bool
    requires pool { now.now.pool ≡ goals.now.pool }
    ensures { IsTrue result → (literals : List Representative) (keys : List AtomKeys)
        → Adds now.now.needs (needs_among literals keys (file_goals goals.now) (option_to_list (slice_get refs.now at))) now.now.needs }
{
    match refs.get(at) {
        Some(reference) => is_settled(now, goals, &reference),
        None => true,
    }
}

// With what the reference at a place of a file's list needs.
fn note_next<'a>(
    before: Gathering<'a>,
    keys: &[AtomKey],
    goals: &FileGoals,
    symbols: &SymbolTable,
    refs: &RefList,
    at: usize,
) -> Result<Gathering<'a>, OutOfMemory>
    requires keys { IsStrictlySortedBy compare_keys keys.now }
    requires pool { before.pool ≡ goals.now.pool }
    ensures pool { IfOk result (λ after. after.pool ≡ before.entry.pool) }
    ensures needs { IfOk result (λ after.
        Adds before.entry.needs (needs_among symbols.now.literals keys.now (file_goals goals.now) (option_to_list (slice_get refs.now at))) after.needs) }
{
    match refs.get(at) {
        Some(reference) => note_ref(before, keys, goals, symbols, &reference),
        None => Ok(before),
    }
}

// With what the kept atoms of a file need.
#[tactic(auto, using(crate::proofs::FileLemmas::file))]
fn note_file<'a>(
    before: Gathering<'a>,
    keys: &[AtomKey],
    goals: &FileGoals,
    symbols: &SymbolTable,
    file: &LoadedFile,
) -> Result<Gathering<'a>, OutOfMemory>
    requires keys { IsStrictlySortedBy compare_keys keys.now }
    requires pool { before.pool ≡ goals.now.pool }
    ensures pool { IfOk result (λ after. after.pool ≡ before.entry.pool) }
    ensures needs { IfOk result (λ after. Adds before.entry.needs (spec.needs_in symbols.now.literals keys.now (file_goals goals.now) file.now) after.needs) }
{
    let mut now = before;
    for at in 0..file.refs.len() {
        if !is_settled_at(&now, goals, &file.refs, at) {
            now = note_next(now, keys, goals, symbols, &file.refs, at)?;
        }
    }
    Ok(now)
}

// With what the kept atoms of the file at a place need.
#[tactic(auto, using(crate::proofs::FileLemmas::place))]
fn note_at<'a>(
    before: Gathering<'a>,
    referring: &Referring,
    at: usize,
    file: &LoadedFile,
) -> Result<Gathering<'a>, OutOfMemory>
    requires keys { IsStrictlySortedBy compare_keys referring.now.keys.now }
    requires pool { before.pool ≡ referring.now.goals.now.pool }
    ensures pool { IfOk result (λ after. after.pool ≡ before.entry.pool) }
    ensures needs { IfOk result (λ after. Adds before.entry.needs (needs_at referring.now at file.now) after.needs) }
{
    match referring.goals.file(at) {
        Some(goals) => note_file(
            before,
            referring.keys.as_slice(),
            &goals,
            referring.symbols,
            file,
        ),
        None => Ok(before),
    }
}

// With what the kept atoms of all files need.
#[tactic(auto, using(crate::proofs::FileLemmas::files))]
fn note_files<'a>(
    before: Gathering<'a>,
    referring: &Referring,
) -> Result<Gathering<'a>, OutOfMemory>
    requires keys { IsStrictlySortedBy compare_keys referring.now.keys.now }
    requires pool { before.pool ≡ referring.now.goals.now.pool }
    ensures pool { IfOk result (λ after. after.pool ≡ before.entry.pool) }
    ensures needs { IfOk result (λ after. Adds before.entry.needs (file_needs referring.now) after.needs) }
{
    let mut now = before;
    for (at, file) in referring.loaded.files.as_slice().iter().enumerate() {
        now = note_at(now, referring, at, file)?;
    }
    Ok(now)
}

// With what an executable's entry needs.
#[tactic(auto, using(crate::proofs::WalkLemmas::entries))]
fn note_entry<'a>(before: Gathering<'a>, entry: Option<&Goal>) -> Result<Gathering<'a>, OutOfMemory>
    ensures { IfOk result (λ after. Adds before.entry.needs (spec.entry_needs (option_map (λ goal. goal.now) entry.entry)) after.needs) }
{
    match entry {
        Some(goal) if is_outer(goal) => before.with(goal.clone()?, Way::Stub),
        _ => Ok(before),
    }
}

/// What the references of kept atoms need, and an executable's entry: a slot of the global offset table, a stub, or a slot
/// for thread-local variables, each with its goal. The same needs, in any order and any number of times. Takes one pass over
/// the references of all files.
#[tactic(auto, using(crate::proofs::FileLemmas::all))]
pub fn needs(alloc: Global, referring: &Referring) -> Result<NeedList, OutOfMemory>
    requires { IsStrictlySortedBy compare_keys referring.now.keys.now }
    ensures { IfOk result (AreSame (spec.needs_of referring.now)) }
{
    let none = Gathering::new(alloc, referring.goals.pool())?;
    let found = note_files(none, referring)?;
    let all = note_entry(found, referring.entry)?;
    Ok(all.into_needs())
}
