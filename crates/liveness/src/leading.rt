//! What leads from one atom to another that isn't a root.
ghost use Rattle.std.specs.Prelude.{◌≡◌, ◌++◌, IfOk, slice_get};
ghost use Rattle.std.specs.List.{filter, flat_map, list_any};
ghost use Rattle.std.specs.Option.{option_and_then, option_map};
ghost use Rattle.resolve.specs.Table.{file_goals, goals_of};
ghost use Rattle.mark_core.specs.Kept.{begins_away, leads_away};
ghost use Rattle.liveness.specs.Edges as spec;
ghost use Rattle.liveness.specs.inner.Away as aways;
ghost use Rattle.literal_merge.specs.Representatives.{representatives_of};

use crate::ends::{Ends, with_end};
use mark_core::KeySet;
use mo_format::loader::S_ATTR_LIVE_SUPPORT;
use mo_types::{
    AtomKey, Edge, EdgeList, Goal, Items, Loaded, LoadedFile, Object, OutOfMemory, Ref, RefList,
    Section, Target, Unwind,
};
use resolve::{FileGoals, GoalTable};
use std::alloc::Global;
use symbol_winners::SymbolTable;

// The atom in which a goal stands.
fn goal_atom(goal: &Goal) -> Option<AtomKey>
    ensures { result ≡ spec.goal_atom goal.now }
{
    match goal {
        Goal::Def(atom, _) => Some(*atom),
        Goal::WeakSelf(_, atom, _) => Some(*atom),
        Goal::Header | Goal::Import { .. } | Goal::Flat(_) | Goal::Nobody => None,
    }
}

// The atom of the goal of the symbol of an index.
fn goal_atom_at(goals: &FileGoals, at: usize) -> Option<AtomKey>
    ensures { result ≡ option_and_then spec.goal_atom (slice_get (file_goals goals.now) at) }
{
    match goals.get(at) {
        Some(goal) => goal_atom(goal),
        None => None,
    }
}

// The atom to which a target leads.
fn target_atom(symbols: &SymbolTable, goals: &FileGoals, target: &Target) -> Option<AtomKey>
    ensures { result ≡ spec.target_atom symbols.now.literals (file_goals goals.now) target.now }
{
    match *target {
        Target::Name(index) => goal_atom_at(goals, index as usize),
        Target::Local(atom, _) => Some(symbols.representative(atom)),
    }
}

// The atom to which a target leads, where there is one.
fn optional_atom(
    symbols: &SymbolTable,
    goals: &FileGoals,
    target: &Option<Target>,
) -> Option<AtomKey>
    ensures { result ≡ option_and_then (spec.target_atom symbols.now.literals (file_goals goals.now)) target.now }
{
    match target {
        Some(target) => target_atom(symbols, goals, target),
        None => None,
    }
}

// Edges, and one to an atom where there is one.
fn with_edge(
    before: Vec<Edge>,
    from: AtomKey,
    to: Option<AtomKey>,
) -> Result<Vec<Edge>, OutOfMemory>
    ensures { IfOk result (λ new. new.items ≡ before.items ++ spec.edge_from from to) }
{
    let mut edges = before;
    if let Some(to) = to {
        edges.push(Edge { from, to })?;
    }
    Ok(edges)
}

// Edges, and those of a reference.
#[tactic(auto, unfolding(crate::specs::Edges::ref_edges))]
fn with_ref(
    before: Vec<Edge>,
    symbols: &SymbolTable,
    goals: &FileGoals,
    reference: &Ref,
) -> Result<Vec<Edge>, OutOfMemory>
    ensures { IfOk result (λ new. new.items ≡ before.items ++ spec.ref_edges symbols.now.literals (file_goals goals.now) reference.now) }
{
    let from = reference.atom;
    let edges = with_edge(before, from, target_atom(symbols, goals, &reference.target))?;
    with_edge(edges, from, optional_atom(symbols, goals, &reference.minus))
}

// An atom, if it isn't a root.
fn away(roots: &KeySet, atom: AtomKey) -> Option<AtomKey>
    ensures { result ≡ aways.away roots.now atom }
{
    if roots.contains(&atom) {
        None
    } else {
        Some(atom)
    }
}

// The atom in which a goal stands, if it isn't a root.
fn goal_away(roots: &KeySet, goal: &Goal) -> Option<AtomKey>
    ensures { result ≡ aways.goal_away roots.now goal.now }
{
    match goal_atom(goal) {
        Some(atom) => away(roots, atom),
        None => None,
    }
}

// For each goal of a pool the atom in which it stands, if that isn't a root, up to the last of which that is so. Where all are
// roots, this is empty, and no reference to a name asks for memory.
#[tactic(auto, using(crate::proofs::AwayLemmas::aways))]
fn goals_away(
    alloc: Global,
    roots: &KeySet,
    goals: &[Goal],
) -> Result<Vec<Option<AtomKey>>, OutOfMemory>
    ensures { IfOk result (λ ends. aways.AreAway roots.now goals.now ends.items) }
{
    let mut ends = Vec::new(alloc);
    for (at, goal) in goals.iter().enumerate() {
        ends = with_end(ends, at, goal_away(roots, goal))?;
    }
    Ok(ends)
}

// The atom to which a target leads, if that isn't a root.
fn target_away(
    symbols: &SymbolTable,
    roots: &KeySet,
    ends: &Ends,
    target: &Target,
) -> Option<AtomKey>
    ensures { result ≡ aways.target_away symbols.now.literals roots.now ends.now target.now }
{
    match *target {
        Target::Name(index) => ends.get(index as usize),
        Target::Local(atom, _) => away(roots, symbols.representative(atom)),
    }
}

// The atom to which a target leads, where there is one, if that isn't a root.
fn optional_away(
    symbols: &SymbolTable,
    roots: &KeySet,
    ends: &Ends,
    target: &Option<Target>,
) -> Option<AtomKey>
    ensures { result ≡ option_and_then (aways.target_away symbols.now.literals roots.now ends.now) target.now }
{
    match target {
        Some(target) => target_away(symbols, roots, ends, target),
        None => None,
    }
}

// Edges, and those of a reference.
#[tactic(auto, unfolding(crate::specs::inner::Away::ref_away))]
fn with_ref_away(
    before: Vec<Edge>,
    symbols: &SymbolTable,
    roots: &KeySet,
    ends: &Ends,
    reference: &Ref,
) -> Result<Vec<Edge>, OutOfMemory>
    ensures { IfOk result (λ new. new.items ≡ before.items ++ aways.ref_away symbols.now.literals roots.now ends.now reference.now) }
{
    let from = reference.atom;
    let target = target_away(symbols, roots, ends, &reference.target);
    let minus = optional_away(symbols, roots, ends, &reference.minus);
    with_edge(with_edge(before, from, target)?, from, minus)
}

// Edges, and those of the reference at a place.
fn with_ref_away_at(
    before: Vec<Edge>,
    symbols: &SymbolTable,
    roots: &KeySet,
    ends: &Ends,
    refs: &RefList,
    at: usize,
) -> Result<Vec<Edge>, OutOfMemory>
    ensures { IfOk result (λ new. new.items ≡ before.items ++ aways.ref_away_at symbols.now.literals roots.now ends.now refs.now at) }
{
    match refs.get(at) {
        Some(reference) => with_ref_away(before, symbols, roots, ends, &reference),
        None => Ok(before),
    }
}

// Edges, and those of each reference.
#[tactic(auto, using(crate::proofs::GrowLemmas::grows))]
fn with_each_ref_away(
    before: Vec<Edge>,
    symbols: &SymbolTable,
    roots: &KeySet,
    ends: &Ends,
    refs: &RefList,
) -> Result<Vec<Edge>, OutOfMemory>
    ensures { IfOk result (λ new. new.items ≡ before.items ++ flat_map (aways.ref_away symbols.now.literals roots.now ends.now) refs.now) }
{
    let mut edges = before;
    for at in 0..refs.len() {
        edges = with_ref_away_at(edges, symbols, roots, ends, refs, at)?;
    }
    Ok(edges)
}

// Edges, and those of references. Where no symbol leads away, and no reference straight to an atom, it goes through no
// references.
fn with_refs_away(
    before: Vec<Edge>,
    symbols: &SymbolTable,
    roots: &KeySet,
    ends: &Ends,
    refs: &RefList,
) -> Result<Vec<Edge>, OutOfMemory>
    ensures { IfOk result (λ new. new.items ≡ before.items ++ flat_map (aways.ref_away symbols.now.literals roots.now ends.now) refs.now) }
{
    if ends.are_none() && !refs.has_local() {
        return Ok(before);
    }
    with_each_ref_away(before, symbols, roots, ends, refs)
}

// The atom of the data for handling a function's exceptions, if it isn't a root.
fn lsda_away(roots: &KeySet, unwind: &Unwind) -> Option<AtomKey>
    ensures { result ≡ option_and_then (aways.away roots.now) (option_map (λ lsda. lsda.0) unwind.now.lsda) }
{
    match unwind.lsda {
        Some((atom, _)) => away(roots, atom),
        None => None,
    }
}

// Edges, and those of an unwind entry.
#[tactic(auto, unfolding(crate::specs::inner::Away::unwind_away))]
fn with_unwind_away(
    before: Vec<Edge>,
    symbols: &SymbolTable,
    roots: &KeySet,
    ends: &Ends,
    unwind: &Unwind,
) -> Result<Vec<Edge>, OutOfMemory>
    ensures { IfOk result (λ new. new.items ≡ before.items ++ aways.unwind_away symbols.now.literals roots.now ends.now unwind.now) }
{
    let from = unwind.atom;
    let personality = optional_away(symbols, roots, ends, &unwind.personality);
    with_edge(
        with_edge(before, from, personality)?,
        from,
        lsda_away(roots, unwind),
    )
}

// Edges, and those of unwind entries.
fn with_unwinds_away(
    before: Vec<Edge>,
    symbols: &SymbolTable,
    roots: &KeySet,
    ends: &Ends,
    unwinds: &[Unwind],
) -> Result<Vec<Edge>, OutOfMemory>
    ensures { IfOk result (λ new. new.items ≡ before.items ++ flat_map (aways.unwind_away symbols.now.literals roots.now ends.now) unwinds.now) }
{
    let mut edges = before;
    for unwind in unwinds {
        edges = with_unwind_away(edges, symbols, roots, ends, unwind)?;
    }
    Ok(edges)
}

// Edges, and those of a file.
#[tactic(auto, unfolding(crate::specs::inner::Away::file_away))]
fn with_file_away(
    before: Vec<Edge>,
    symbols: &SymbolTable,
    roots: &KeySet,
    ends: &Ends,
    file: &LoadedFile,
) -> Result<Vec<Edge>, OutOfMemory>
    ensures { IfOk result (λ new. new.items ≡ before.items ++ aways.file_away symbols.now.literals roots.now ends.now file.now) }
{
    let edges = with_refs_away(before, symbols, roots, ends, &file.refs)?;
    with_unwinds_away(edges, symbols, roots, ends, file.unwinds.as_slice())
}

// Edges, and those of a file that lead away from roots.
fn with_file_edges(
    before: Vec<Edge>,
    symbols: &SymbolTable,
    roots: &KeySet,
    ends: &[Option<AtomKey>],
    goals: &FileGoals,
    file: &LoadedFile,
) -> Result<Vec<Edge>, OutOfMemory>
    requires { aways.AreAway roots.now goals.now.pool ends.now }
    ensures { IfOk result (λ new. new.items
        ≡ before.items ++ filter (leads_away roots.now) (spec.file_edges symbols.now.literals (file_goals goals.now) file.now)) }
{
    let ends = Ends::new(ends, goals.places());
    with_file_away(before, symbols, roots, &ends, file)
}

// Edges, and those of the file at a place.
#[tactic(auto, using(crate::proofs::AwayLemmas::edges_there, crate::proofs::AwayLemmas::no_edges_there))]
fn with_edges_at(
    before: Vec<Edge>,
    symbols: &SymbolTable,
    table: &GoalTable,
    roots: &KeySet,
    ends: &[Option<AtomKey>],
    at: usize,
    file: &LoadedFile,
) -> Result<Vec<Edge>, OutOfMemory>
    requires { aways.AreAway roots.now table.now.pool ends.now }
    ensures { IfOk result (λ new. new.items
        ≡ before.items ++ filter (leads_away roots.now) (spec.edges_at symbols.now.literals (goals_of table.now) (at, file.now))) }
{
    match table.file(at) {
        Some(goals) => with_file_edges(before, symbols, roots, ends, &goals, file),
        None => Ok(before),
    }
}

fn is_live_support(section: &Section) -> bool
    ensures { result ≡ spec.is_live_support section.now }
{
    section.attributes & S_ATTR_LIVE_SUPPORT != 0
}

// Whether an atom stands in a section that supports what is live.
#[tactic(auto, unfolding(crate::specs::Edges::supports_live))]
fn supports_live(object: &Object, atom: &AtomKey) -> bool
    ensures { result ≡ spec.supports_live object.now atom.now }
{
    match object.section(u32::from(atom.section)) {
        Some(section) => is_live_support(section),
        None => false,
    }
}

// Edges, and those of a reference whose atom supports what is live and isn't a root.
#[tactic(auto, using(crate::proofs::AwayLemmas::supports))]
fn with_support(
    before: Vec<Edge>,
    symbols: &SymbolTable,
    goals: &FileGoals,
    roots: &KeySet,
    object: &Object,
    reference: &Ref,
) -> Result<Vec<Edge>, OutOfMemory>
    ensures { IfOk result (λ new. new.items
        ≡ before.items ++ aways.ref_supports_away symbols.now.literals roots.now (file_goals goals.now) object.now reference.now) }
{
    if !supports_live(object, &reference.atom) {
        return Ok(before);
    }
    if roots.contains(&reference.atom) {
        return Ok(before);
    }
    with_ref(before, symbols, goals, reference)
}

// Edges, and those of the reference at a place, where its atom supports what is live and isn't a root.
fn with_support_at(
    before: Vec<Edge>,
    symbols: &SymbolTable,
    goals: &FileGoals,
    roots: &KeySet,
    object: &Object,
    refs: &RefList,
    at: usize,
) -> Result<Vec<Edge>, OutOfMemory>
    ensures { IfOk result (λ new. new.items
        ≡ before.items ++ aways.supports_away_at symbols.now.literals roots.now (file_goals goals.now) object.now refs.now at) }
{
    match refs.get(at) {
        Some(reference) => with_support(before, symbols, goals, roots, object, &reference),
        None => Ok(before),
    }
}

// Edges, and those of references whose atoms support what is live and aren't roots.
#[tactic(auto, using(crate::proofs::GrowLemmas::grows))]
fn with_supports(
    before: Vec<Edge>,
    symbols: &SymbolTable,
    goals: &FileGoals,
    roots: &KeySet,
    object: &Object,
    refs: &RefList,
) -> Result<Vec<Edge>, OutOfMemory>
    ensures { IfOk result (λ new. new.items
        ≡ before.items ++ flat_map (aways.ref_supports_away symbols.now.literals roots.now (file_goals goals.now) object.now) refs.now) }
{
    let mut edges = before;
    for at in 0..refs.len() {
        edges = with_support_at(edges, symbols, goals, roots, object, refs, at)?;
    }
    Ok(edges)
}

// Whether a section of an object supports what is live.
fn has_live_support(object: &Object) -> bool
    ensures { result ≡ list_any spec.is_live_support object.now.sections }
{
    object.sections.as_slice().iter().any(is_live_support)
}

// Edges, and the supports of a file. Where no section supports what is live, it goes through no references.
#[tactic(auto, using(crate::proofs::AwayLemmas::no_supports, crate::proofs::AwayLemmas::supports_here))]
fn with_file_supports(
    before: Vec<Edge>,
    symbols: &SymbolTable,
    goals: &FileGoals,
    roots: &KeySet,
    file: &LoadedFile,
) -> Result<Vec<Edge>, OutOfMemory>
    ensures { IfOk result (λ new. new.items
        ≡ before.items ++ filter (begins_away roots.now) (spec.file_supports symbols.now.literals (file_goals goals.now) file.now)) }
{
    if has_live_support(&file.object) {
        with_supports(before, symbols, goals, roots, &file.object, &file.refs)
    } else {
        Ok(before)
    }
}

// Edges, and the supports of the file at a place.
#[tactic(auto, using(crate::proofs::AwayLemmas::supports_there, crate::proofs::AwayLemmas::no_supports_there))]
fn with_supports_at(
    before: Vec<Edge>,
    symbols: &SymbolTable,
    table: &GoalTable,
    roots: &KeySet,
    at: usize,
    file: &LoadedFile,
) -> Result<Vec<Edge>, OutOfMemory>
    ensures { IfOk result (λ new. new.items
        ≡ before.items ++ filter (begins_away roots.now) (spec.supports_at symbols.now.literals (goals_of table.now) (at, file.now))) }
{
    match table.file(at) {
        Some(goals) => with_file_supports(before, symbols, &goals, roots, file),
        None => Ok(before),
    }
}

/// What leads from one atom to another: first the edges, from an atom to where its references lead, in a difference also
/// to what is subtracted, and from a function to what handles its exceptions and to the data for that; where an atom is
/// kept, so are those. Then the supports, from atoms of sections with S_ATTR_LIVE_SUPPORT (`loader.h`) to where their
/// references lead: where one of these is kept, so is the atom. File by file, by the goals of each file's symbols, as
/// `resolve::goal_table` gives them; no name is looked up. Edges that end in a root, and supports that begin in one, are left
/// out: they add nothing to what is kept. In which atom a goal stands and whether that is a root is asked once for each goal of
/// the pool; where all are roots, references are gone through of those files alone that have one which leads straight to an
/// atom.
pub fn edges(
    alloc: Global,
    loaded: &Loaded,
    symbols: &SymbolTable,
    goals: &GoalTable,
    roots: &KeySet,
) -> Result<(EdgeList, EdgeList), OutOfMemory>
    requires { symbols.now.literals ≡ representatives_of loaded.now.files }
    ensures edges { IfOk result (λ lists. lists.0 ≡ filter (leads_away roots.now) (spec.edges_by loaded.now.files (goals_of goals.now))) }
    ensures supports { IfOk result (λ lists. lists.1 ≡ filter (begins_away roots.now) (spec.supports_by loaded.now.files (goals_of goals.now))) }
{
    let files = loaded.files.as_slice();
    let ends = goals_away(alloc, roots, goals.pool())?;
    let mut edges = Vec::new(alloc);
    let mut supports = Vec::new(alloc);
    for (at, file) in files.iter().enumerate() {
        edges = with_edges_at(edges, symbols, goals, roots, ends.as_slice(), at, file)?;
        supports = with_supports_at(supports, symbols, goals, roots, at, file)?;
    }
    Ok((Items::from_vec(edges), Items::from_vec(supports)))
}
