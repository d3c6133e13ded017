//! What an image is bound to, before anything of it is placed.
ghost use Rattle.std.specs.Prelude.{◌≡◌, ◌∷◌, [], ◌++◌, ◌<◌, ◌≤◌, ◌+◌, ◌^◌, IfOk, IsTrue, OnOk, length, map, sum_by};
ghost use Rattle.std.specs.List.{enumerate_from, filter, filter_map, flat_map};
ghost use Rattle.std.specs.List.Sorted.{IsStrictlySortedBy};
ghost use Rattle.std.specs.Ordering.{on};
ghost use Rattle.fixup_chain.specs.Chained.{AreMany};
ghost use Rattle.mark_core.specs.Kept.{has};
ghost use Rattle.mo_types.specs.Keys.{compare_files, compare_keys};
ghost use Rattle.mo_types.specs.declared.loaded.LoadedFile.{LoadedFile as Loads};
ghost use Rattle.ref_meet.specs.Binds as spec;
ghost use Rattle.ref_meet.specs.inner.Bound.{binds_among, binds_of, goals_by};
ghost use Rattle.ref_meet.specs.Scene.{goals_at};
ghost use Rattle.resolve.specs.Goals as resolves;
ghost use Rattle.resolve.specs.Table.{goals_of};

use crate::template::{has_descriptors, leads_to_template};
use fixup_chain::{Fixup, has_many_imports};
use mark_core::is_kept;
use mo_types::{AtomKey, Goal, Items, LoadedFile, OutOfMemory, Ref, RefKind, RefList, Target};
use resolve::{FileGoals, goal_of};
use slot_needs::Referring;
use slot_plan::Slots;
use std::alloc::Global;
use symbol_winners::SymbolTable;

// Imports have numbers below this one.
const IMPORTS: usize = 1 << 24;

// A pointer to a goal, wherever it stands.
fn unplaced(goal: Goal, addend: i64) -> Fixup
    ensures { result ≡ spec.unplaced goal addend }
{
    Fixup {
        atom: None,
        place: 0,
        address: 0,
        goal,
        addend,
    }
}

// Puts those of slots behind others.
fn add_slots(out: &mut Vec<Fixup>, goals: &[Goal]) -> Result<(), OutOfMemory>
    ensures { OnOk result (out.new.items ≡ out.old.items ++ map spec.slot_bind goals.now) }
{
    for goal in goals {
        out.push(unplaced(goal.clone()?, 0))?;
    }
    Ok(())
}

// Where a target leads, by the goals of its file's symbols, if there are such.
fn target_goal(
    symbols: &SymbolTable,
    goals: &Option<FileGoals>,
    target: &Target,
) -> Result<Goal, OutOfMemory>
    ensures { IfOk result (λ goal. goal ≡ resolves.target_goal symbols.now.literals (goals_by goals.now) target.now) }
{
    match goals {
        Some(goals) => goal_of(symbols, goals, target),
        None => match *target {
            Target::Name(_) => Ok(Goal::Nobody),
            Target::Local(atom, offset) => Ok(Goal::Def(symbols.representative(atom), offset)),
        },
    }
}

// A pointer of a section to a goal, unless it holds an offset in the template.
fn bind_to(
    files: &[LoadedFile],
    file: &LoadedFile,
    section: u16,
    goal: Goal,
    addend: i64,
) -> Option<Fixup>
    requires { IsStrictlySortedBy (on (λ (file : Loads). file.id) compare_files) files.now }
    ensures { result ≡ spec.bind_to files.now file.now section goal addend }
{
    if has_descriptors(file, section) && leads_to_template(files, &goal) {
        None
    } else {
        Some(unplaced(goal, addend))
    }
}

// A file among others, with the goals of its symbols and with what stands for literals.
#[derive(Drop)]
struct Bound<'a> {
    files: &'a [LoadedFile],
    symbols: &'a SymbolTable<'a>,
    keys: &'a [AtomKey],
    file: &'a LoadedFile,
    goals: Option<FileGoals<'a>>,
}

// What a reference of a file is bound to.
#[tactic(auto, unfolding(crate::specs::Binds::bind_of))]
fn bind_of(bound: &Bound, reference: &Ref) -> Result<Option<Fixup>, OutOfMemory>
    requires { IsStrictlySortedBy (on (λ (file : Loads). file.id) compare_files) bound.now.files.now }
    ensures { IfOk result (λ found. found ≡ spec.bind_of bound.now.files.now bound.now.symbols.now.literals (goals_by bound.now.goals) bound.now.file.now reference.now) }
{
    match reference.kind {
        RefKind::Pointer => {
            let goal = target_goal(bound.symbols, &bound.goals, &reference.target)?;
            let section = reference.atom.section;
            Ok(bind_to(bound.files, bound.file, section, goal, reference.addend))
        }
        _ => Ok(None),
    }
}

// Puts what a reference of the file is bound to behind others, where its atom is kept.
#[tactic(auto, using(crate::proofs::BindLemmas::one))]
fn add_ref(out: &mut Vec<Fixup>, bound: &Bound, reference: &Ref) -> Result<(), OutOfMemory>
    requires files { IsStrictlySortedBy (on (λ (file : Loads). file.id) compare_files) bound.now.files.now }
    requires keys { IsStrictlySortedBy compare_keys bound.now.keys.now }
    ensures { OnOk result (out.new.items ≡ out.old.items ++ binds_among bound.now (reference.now ∷ [])) }
{
    if !is_kept(bound.keys, reference.atom) {
        return Ok(());
    }
    match bind_of(bound, reference)? {
        Some(fixup) => out.push(fixup)?,
        None => {}
    }
    Ok(())
}

// The same of references.
fn add_refs(out: &mut Vec<Fixup>, bound: &Bound, refs: &RefList) -> Result<(), OutOfMemory>
    requires files { IsStrictlySortedBy (on (λ (file : Loads). file.id) compare_files) bound.now.files.now }
    requires keys { IsStrictlySortedBy compare_keys bound.now.keys.now }
    ensures { OnOk result (out.new.items ≡ out.old.items ++ binds_among bound.now refs.now) }
{
    for at in 0..refs.len() {
        match refs.get(at) {
            Some(reference) => add_ref(out, bound, &reference)?,
            None => {}
        }
    }
    Ok(())
}

// The file at a place, with what its references are bound by.
fn bound_at<'a>(referring: &Referring<'a>, at: usize, file: &'a LoadedFile) -> Bound<'a>
    ensures files { result.files.now ≡ referring.now.loaded.now.files }
    ensures symbols { result.symbols.now ≡ referring.now.symbols.now }
    ensures keys { result.keys.now ≡ referring.now.keys.now }
    ensures file { result.file.now ≡ file.now }
    ensures goals { goals_by result.goals ≡ goals_at (goals_of referring.now.goals.now) at }
{
    Bound {
        files: referring.loaded.files.as_slice(),
        symbols: referring.symbols,
        keys: referring.keys.as_slice(),
        file,
        goals: referring.goals.file(at),
    }
}

// Those of the file at a place.
fn add_file(
    out: &mut Vec<Fixup>,
    referring: &Referring,
    at: usize,
    file: &LoadedFile,
) -> Result<(), OutOfMemory>
    requires files { IsStrictlySortedBy (on (λ (file : Loads). file.id) compare_files) referring.now.loaded.now.files }
    requires keys { IsStrictlySortedBy compare_keys referring.now.keys.now }
    ensures { OnOk result (out.new.items ≡ out.old.items
        ++ spec.binds_at referring.now.loaded.now.files referring.now.symbols.now.literals referring.now.keys.now (goals_of referring.now.goals.now) (at, file.now)) }
{
    let bound = bound_at(referring, at, file);
    add_refs(out, &bound, &file.refs)
}

// Those of all files.
fn add_files(out: &mut Vec<Fixup>, referring: &Referring) -> Result<(), OutOfMemory>
    requires files { IsStrictlySortedBy (on (λ (file : Loads). file.id) compare_files) referring.now.loaded.now.files }
    requires keys { IsStrictlySortedBy compare_keys referring.now.keys.now }
    ensures { OnOk result (out.new.items ≡ out.old.items
        ++ flat_map (spec.binds_at referring.now.loaded.now.files referring.now.symbols.now.literals referring.now.keys.now (goals_of referring.now.goals.now))
        (enumerate_from 0 referring.now.loaded.now.files)) }
{
    for (at, file) in referring.loaded.files.as_slice().iter().enumerate() {
        add_file(out, referring, at, file)?;
    }
    Ok(())
}

// No fewer than slots and the references of files, or more than imports have numbers.
#[tactic(auto, using(crate::proofs::BindLemmas::counts))]
fn most_binds(files: &[LoadedFile], slots: usize) -> usize
    ensures { result < 2 ^ 24 → slots + sum_by (λ (file : Loads). length file.refs) files.now ≤ result }
{
    let mut most = slots;
    for file in files {
        most = most.saturating_add(file.refs.len());
    }
    most
}

/// Whether an image is bound to 2^24 imports or more, by the references of its kept atoms and by its slots, wherever these
/// stand. Takes memory only where there are as many references and slots.
pub fn has_many_binds(
    alloc: Global,
    referring: &Referring,
    slots: &Slots,
) -> Result<bool, OutOfMemory>
    requires files { IsStrictlySortedBy (on (λ (file : Loads). file.id) compare_files) referring.now.loaded.now.files }
    requires keys { IsStrictlySortedBy compare_keys referring.now.keys.now }
    ensures only { IfOk result (λ many. IsTrue many → AreMany (binds_of referring.now slots.now)) }
    ensures all { IfOk result (λ many. AreMany (binds_of referring.now slots.now) → IsTrue many) }
{
    let slot_count = slots.got.len().saturating_add(slots.tlv.len());
    if most_binds(referring.loaded.files.as_slice(), slot_count) < IMPORTS {
        return Ok(false);
    }
    let mut all = Vec::new(alloc);
    add_slots(&mut all, slots.got.as_slice())?;
    add_slots(&mut all, slots.tlv.as_slice())?;
    add_files(&mut all, referring)?;
    has_many_imports(alloc, &Items::from_vec(all))
}
