//! The names to which kept atoms refer and that lead nowhere.

ghost use Rattle.std.specs.Prelude.{◌≡◌, ◌<◌, ◌++◌, None, fold, length, if◌then◌else◌};
ghost use Rattle.std.specs.List.{filter_map, flat_map, list_any};
ghost use Rattle.std.specs.List.Sorted.{IsStrictlySortedBy};
ghost use Rattle.std.specs.Option.{option_copied, option_map};
ghost use Rattle.resolve.specs.Table.{file_goals, goals_of};
ghost use Rattle.mark_core.specs.Kept.{has};
ghost use Rattle.mo_types.specs.Keys.{compare_keys};
ghost use Rattle.liveness.specs.Undefined as spec;
ghost use Rattle.liveness.specs.inner.Lost.{held, labelled, pairs_of};

use crate::kept::{LastKept, ask};
use mark_core::is_kept;
use mo_types::{
    AtomKey, Bytes, FileId, Goal, KeyList, Loaded, LoadedFile, Ref, Symbol, Target, Unwind,
};
use resolve::{FileGoals, GoalTable};

/// A name that leads nowhere.
#[derive(Clone, Copy, Debug)]
pub struct Lost<'a> {
    pub name: &'a [u8],
    /// What messages call the first file of which a kept atom refers to it, by a reference or as the personality of an
    /// unwind entry, or nothing where none does.
    pub label: &'a [u8],
}

fn is_nobody(goal: &Goal) -> bool
    ensures { result ≡ spec.is_nobody goal.now }
{
    matches!(goal, Goal::Nobody)
}

// Whether a goal is nowhere.
fn has_nobody(goals: &[Goal]) -> bool
    ensures { result ≡ list_any spec.is_nobody goals.now }
{
    goals.iter().any(is_nobody)
}

// Whether the goal of a file's symbol is nowhere.
#[tactic(auto, using(crate::proofs::NobodyLemmas::finds))]
fn leads_nowhere(goals: &FileGoals) -> bool
    ensures { result ≡ list_any spec.is_nobody (file_goals goals.now) }
{
    for index in 0..goals.places().len() {
        match goals.get(index) {
            Some(goal) => {
                if is_nobody(goal) {
                    return true;
                }
            }
            None => {}
        }
    }
    false
}

// The name to which a target goes, where it leads nowhere.
fn lost_name<'a>(symbols: &'a [Symbol], goals: &FileGoals, target: Target) -> Option<&'a Bytes>
    ensures { option_copied result ≡ spec.lost_name symbols.now (file_goals goals.now) target }
{
    let Target::Name(index) = target else {
        return None;
    };
    let goal = goals.get(index as usize)?;
    if !is_nobody(goal) {
        return None;
    }
    Some(&symbols.get(index as usize)?.name)
}

// Of two names the lesser one, and of the same name the earlier.
fn lesser<'a>(least: Option<Lost<'a>>, lost: Lost<'a>) -> Option<Lost<'a>>
    ensures { option_map held result ≡ spec.lesser (option_map held least.entry) (held lost.entry) }
{
    match least {
        Some(other) if !lost.name.cmp(other.name).is_lt() => Some(other),
        _ => Some(lost),
    }
}

// The least name, with one more where there is one.
fn note<'a>(least: Option<Lost<'a>>, name: Option<&'a Bytes>, label: &'a [u8]) -> Option<Lost<'a>>
    ensures { option_map held result ≡ fold spec.lesser (option_map held least.entry) (pairs_of label.now (option_copied name.entry)) }
{
    match name {
        Some(name) => lesser(
            least,
            Lost {
                name: name.as_slice(),
                label,
            },
        ),
        None => least,
    }
}

// The least name, with those of a file's reference more.
#[tactic(auto, using(crate::proofs::LostLemmas::of_ref))]
fn note_ref<'a>(
    least: Option<Lost<'a>>,
    file: &'a LoadedFile,
    goals: &FileGoals,
    reference: &Ref,
) -> Option<Lost<'a>>
    ensures { option_map held result
        ≡ fold spec.lesser (option_map held least.entry) (labelled file.now (spec.lost_names file.now.object.symbols (file_goals goals.now) reference.now)) }
{
    let symbols = file.object.symbols.as_slice();
    let label = file.label.as_slice();
    let least = note(least, lost_name(symbols, goals, reference.target), label);
    match reference.minus {
        Some(minus) => note(least, lost_name(symbols, goals, minus), label),
        None => least,
    }
}

const FIRST: AtomKey = AtomKey {
    file: FileId {
        position: 0,
        member: 0,
    },
    section: 0,
    offset: 0,
};

// The least name, with those of the references of a file's kept atoms more.
#[tactic(auto, using(crate::proofs::LostLemmas::of_refs))]
fn note_refs<'a>(
    least: Option<Lost<'a>>,
    file: &'a LoadedFile,
    goals: &FileGoals,
    keys: &[AtomKey],
) -> Option<Lost<'a>>
    requires { IsStrictlySortedBy compare_keys keys.now }
    ensures { option_map held result
        ≡ fold spec.lesser (option_map held least.entry) (labelled file.now (flat_map (spec.lost_names file.now.object.symbols (file_goals goals.now)) (spec.kept_refs keys.now file.now))) }
{
    let mut found = least;
    let mut last = LastKept {
        key: FIRST,
        kept: is_kept(keys, FIRST),
    };
    for at in 0..file.refs.len() {
        match file.refs.get(at) {
            Some(reference) => {
                last = ask(keys, last, reference.atom);
                if last.kept {
                    found = note_ref(found, file, goals, &reference);
                }
            }
            None => {}
        }
    }
    found
}

// The name of an unwind entry's personality, where it leads nowhere.
#[tactic(auto, unfolding(crate::specs::Undefined::lost_personality))]
fn lost_personality<'a>(
    symbols: &'a [Symbol],
    goals: &FileGoals,
    unwind: &Unwind,
) -> Option<&'a Bytes>
    ensures { option_copied result ≡ spec.lost_personality symbols.now (file_goals goals.now) unwind.now }
{
    lost_name(symbols, goals, unwind.personality?)
}

// The least name, with that of a file's unwind entry more, if its atom is kept. Few personalities lead nowhere, so that
// few atoms are asked for.
fn note_unwind<'a>(
    least: Option<Lost<'a>>,
    file: &'a LoadedFile,
    goals: &FileGoals,
    keys: &[AtomKey],
    unwind: &Unwind,
) -> Option<Lost<'a>>
    requires { IsStrictlySortedBy compare_keys keys.now }
    ensures { option_map held result
        ≡ fold spec.lesser (option_map held least.entry) (pairs_of file.now.label (if has keys.now unwind.now.atom then spec.lost_personality file.now.object.symbols (file_goals goals.now) unwind.now else None)) }
{
    let name = lost_personality(file.object.symbols.as_slice(), goals, unwind);
    if name.is_some() && is_kept(keys, unwind.atom) {
        note(least, name, file.label.as_slice())
    } else {
        least
    }
}

// The least name, with those of the personalities of a file's kept atoms more.
#[tactic(auto, using(crate::proofs::LostLemmas::of_unwinds))]
fn note_unwinds<'a>(
    least: Option<Lost<'a>>,
    file: &'a LoadedFile,
    goals: &FileGoals,
    keys: &[AtomKey],
) -> Option<Lost<'a>>
    requires { IsStrictlySortedBy compare_keys keys.now }
    ensures { option_map held result
        ≡ fold spec.lesser (option_map held least.entry) (labelled file.now (filter_map (spec.lost_personality file.now.object.symbols (file_goals goals.now)) (spec.kept_unwinds keys.now file.now))) }
{
    let mut found = least;
    for unwind in file.unwinds.as_slice() {
        found = note_unwind(found, file, goals, keys, unwind);
    }
    found
}

// The least name, with those of a file's kept atoms more.
#[tactic(auto, using(crate::proofs::LostLemmas::of_file))]
fn note_file<'a>(
    least: Option<Lost<'a>>,
    file: &'a LoadedFile,
    goals: &FileGoals,
    keys: &[AtomKey],
) -> Option<Lost<'a>>
    requires { IsStrictlySortedBy compare_keys keys.now }
    ensures { option_map held result ≡ fold spec.lesser (option_map held least.entry) (spec.lost_in keys.now file.now (file_goals goals.now)) }
{
    let least = note_refs(least, file, goals, keys);
    note_unwinds(least, file, goals, keys)
}

// The same, which goes through no list where each symbol of the file leads somewhere.
#[tactic(auto, using(crate::proofs::LostLemmas::none_lost))]
fn note_if_any<'a>(
    least: Option<Lost<'a>>,
    file: &'a LoadedFile,
    goals: &FileGoals,
    keys: &[AtomKey],
) -> Option<Lost<'a>>
    requires { IsStrictlySortedBy compare_keys keys.now }
    ensures { option_map held result ≡ fold spec.lesser (option_map held least.entry) (spec.lost_in keys.now file.now (file_goals goals.now)) }
{
    if leads_nowhere(goals) {
        note_file(least, file, goals, keys)
    } else {
        least
    }
}

// The least name to which kept atoms of files refer.
#[tactic(auto, using(crate::proofs::LostLemmas::of_files))]
fn note_files<'a>(files: &'a [LoadedFile], goals: &GoalTable, keys: &[AtomKey]) -> Option<Lost<'a>>
    requires { IsStrictlySortedBy compare_keys keys.now }
    ensures { option_map held result ≡ spec.least (spec.lost keys.now files.now (goals_of goals.now)) }
{
    let mut least = None;
    for (at, file) in files.iter().enumerate() {
        match goals.file(at) {
            Some(goals) => least = note_if_any(least, file, &goals, keys),
            None => {}
        }
    }
    least
}

// The same, which goes through no file where each goal is somewhere.
#[tactic(auto, using(crate::proofs::NobodyLemmas::no_names))]
fn note_lost<'a>(files: &'a [LoadedFile], goals: &GoalTable, keys: &[AtomKey]) -> Option<Lost<'a>>
    requires { IsStrictlySortedBy compare_keys keys.now }
    ensures { option_map held result ≡ spec.least (spec.lost keys.now files.now (goals_of goals.now)) }
{
    if has_nobody(goals.pool()) {
        note_files(files, goals, keys)
    } else {
        None
    }
}

// The least name, with those that the command wants more.
#[tactic(auto, using(crate::proofs::LostLemmas::of_names))]
fn note_wanted<'a>(least: Option<Lost<'a>>, names: &'a [Bytes]) -> Option<Lost<'a>>
    ensures { option_map held result ≡ fold spec.lesser (option_map held least.entry) (spec.wanted names.now) }
{
    let mut found = least;
    for name in names {
        found = lesser(
            found,
            Lost {
                name: name.as_slice(),
                label: &[],
            },
        );
    }
    found
}

/// The least name that leads nowhere, of those to which kept atoms refer, by references and as the personalities of
/// their unwind entries, and of those that the command wants and that lead nowhere, or `None` exactly where there is no
/// such name. Takes no memory.
#[tactic(auto, using(crate::proofs::LostLemmas::all_names))]
pub fn undefined<'a>(
    loaded: &'a Loaded,
    goals: &GoalTable,
    kept: &KeyList,
    names: &'a [Bytes],
) -> Option<Lost<'a>>
    requires { IsStrictlySortedBy compare_keys kept.now }
    ensures { option_map held result ≡ spec.undefined kept.now loaded.now.files (goals_of goals.now) names.now }
{
    let least = note_lost(loaded.files.as_slice(), goals, kept.as_slice());
    note_wanted(least, names)
}
