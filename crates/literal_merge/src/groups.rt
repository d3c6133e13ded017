//! The literals that are the same.
ghost use Rattle.std.specs.Prelude.{◌≡◌, IfOk, List, map};
ghost use Rattle.mo_types.specs.Loaded.{IsWholeLoaded};
ghost use Rattle.literal_merge.specs.Representatives as spec;
ghost use Rattle.literal_merge.specs.inner.Groups.{AreGroups, held_literals, literal_of, with_literal};
ghost use Rattle.literal_merge.specs.Representatives.{Literal};

use crate::literal::{Content, LiteralIn, literals};
use crate::representative::{Representative, RepresentativeList};
use mo_types::{AtomKey, Loaded, OutOfMemory};
use std::alloc::Global;
use std::collections::HashMap;

/// What is held of literals that are the same: the key of the first, and their greatest alignment.
#[derive(Clone, Copy)]
pub(crate) struct Group {
    pub first: AtomKey,
    pub align: u8,
}

// A group with one literal more, or a new group.
fn with(group: Option<Group>, literal: &LiteralIn) -> Group
    ensures { result ≡ with_literal group (literal_of literal.now) }
{
    match group {
        Some(group) => Group {
            first: group.first,
            align: group.align.max(literal.align),
        },
        None => Group {
            first: literal.key,
            align: literal.align,
        },
    }
}

// The groups of some literals.
#[tactic(auto, using(crate::proofs::GroupLemmas::group_loop))]
fn groups_of<'a>(
    alloc: Global,
    literals: &[LiteralIn<'a>],
) -> Result<HashMap<Content<'a>, Group>, OutOfMemory>
    ensures { IfOk result (λ groups. AreGroups (held_literals literals.now) groups) }
{
    let mut groups = HashMap::new(alloc);
    for literal in literals {
        let group = with(groups.get(&literal.content).copied(), literal);
        groups.insert(literal.content, group)?;
    }
    Ok(groups)
}

// What stands for a literal.
fn representative_of(groups: &HashMap<Content, Group>, literal: &LiteralIn) -> Representative
    ensures { (all : List Literal) → AreGroups all groups.now → result ≡ spec.representative_of all (literal_of literal.now) }
{
    match groups.get(&literal.content) {
        Some(group) => Representative {
            literal: literal.key,
            representative: group.first,
            align: group.align,
        },
        None => Representative {
            literal: literal.key,
            representative: literal.key,
            align: literal.align,
        },
    }
}

// What stands for each of some literals.
fn list(
    alloc: Global,
    groups: &HashMap<Content, Group>,
    literals: &[LiteralIn],
) -> Result<Vec<Representative>, OutOfMemory>
    ensures { IfOk result (λ list. (all : List Literal) → AreGroups all groups.now
        → list.items ≡ map (spec.representative_of all) (held_literals literals.now)) }
{
    let mut list = Vec::with_capacity(alloc, literals.len())?;
    for literal in literals {
        list.push(representative_of(groups, literal))?;
    }
    Ok(list)
}

/// What stands for each literal of files, in the order of these: of the literals with the same bytes that go to one
/// section of the image, the first.
pub fn representatives(alloc: Global, loaded: &Loaded) -> Result<RepresentativeList, OutOfMemory>
    requires { IsWholeLoaded loaded.now }
    ensures { IfOk result (λ list. list ≡ spec.representatives_of loaded.now.files) }
{
    let literals = literals(alloc, loaded.files.as_slice())?;
    let groups = groups_of(alloc, literals.as_slice())?;
    let list = list(alloc, &groups, literals.as_slice())?;
    Ok(RepresentativeList::from_vec(list))
}
