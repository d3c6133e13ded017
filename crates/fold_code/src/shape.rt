//! What nodes are, whatever nodes they refer to.
ghost use Rattle.std.specs.Prelude.{◌≡◌, fold};
ghost use Rattle.std.specs.List.{flat_map};
ghost use Rattle.std.specs.Cmp.Lexicographic.{pointwise};
ghost use Rattle.fold_code.specs.inner.Shapes.{
  feed_goal,
  feed_link,
  feed_optional,
  feed_unwind,
  same_goal,
  same_link,
  same_optional,
  same_unwind,
};

use crate::node::{FoldGoal, FoldNode, FoldUnwind, Link};
use mo_types::Goal;
use std::hash::{Hash, Hasher};

/// A node as a key of sets: those are the same that differ at most in the nodes to which they refer, and in their keys.
#[derive(Clone, Copy)]
pub(crate) struct Shape<'a> {
    pub node: &'a FoldNode,
}

impl<'a> PartialEq for Shape<'a> {
    ghost use Rattle.std.specs.Cmp.{partial_equiv_from_equiv};
    ghost use Rattle.fold_code.specs.inner.ShapeLaws.{shapes_equal};
    ghost use Rattle.fold_code.specs.inner.Shapes.{same_shape};

    ghost eq = { λ a b. same_shape a.node.now b.node.now };

    ghost laws = { partial_equiv_from_equiv shapes_equal };

    #[tactic(auto, unfolding(crate::specs::inner::Shapes::same_shape))]
    fn eq(&self, other: &Self) -> bool {
        self.node.bytes == other.node.bytes
            && are_same_links(self.node.links.as_slice(), other.node.links.as_slice())
            && are_same_unwinds(self.node.unwinds.as_slice(), other.node.unwinds.as_slice())
    }
}

impl<'a> Eq for Shape<'a> {
    ghost use Rattle.fold_code.specs.inner.ShapeLaws.{shapes_equal};

    ghost laws = { shapes_equal };
}

impl<'a> Hash for Shape<'a> {
    ghost use Rattle.fold_code.specs.inner.ShapeLaws.{shapes_feed};
    ghost use Rattle.fold_code.specs.inner.Shapes.{feed_shape};

    ghost hash_input = { λ shape. feed_shape shape.node.now };

    ghost respects_eq = { shapes_feed };

    #[tactic(auto, unfolding(crate::specs::inner::Shapes::feed_shape))]
    fn hash<H: Hasher>(&self, state: &mut H) {
        self.node.bytes.as_slice().hash(state);
        hash_links(self.node.links.as_slice(), state);
        hash_unwinds(self.node.unwinds.as_slice(), state);
    }
}

fn is_same_goal(a: &FoldGoal, b: &FoldGoal) -> bool
    ensures { result ≡ same_goal a.now b.now }
{
    match (a, b) {
        (FoldGoal::Node(_, at), FoldGoal::Node(_, to)) => at == to,
        (FoldGoal::Other(goal), FoldGoal::Other(other)) => goal == other,
        (FoldGoal::Node(..), FoldGoal::Other(_)) | (FoldGoal::Other(_), FoldGoal::Node(..)) => {
            false
        }
    }
}

fn is_same_optional(a: &Option<FoldGoal>, b: &Option<FoldGoal>) -> bool
    ensures { result ≡ same_optional a.now b.now }
{
    match (a, b) {
        (None, None) => true,
        (Some(a), Some(b)) => is_same_goal(a, b),
        (None, Some(_)) | (Some(_), None) => false,
    }
}

fn is_same_link(a: &Link, b: &Link) -> bool
    ensures { result ≡ same_link a.now b.now }
{
    a.place == b.place
        && a.kind == b.kind
        && a.addend == b.addend
        && is_same_goal(&a.goal, &b.goal)
        && is_same_optional(&a.minus, &b.minus)
}

fn is_same_unwind(a: &FoldUnwind, b: &FoldUnwind) -> bool
    ensures { result ≡ same_unwind a.now b.now }
{
    a.offset == b.offset
        && a.length == b.length
        && a.encoding == b.encoding
        && is_same_optional(&a.personality, &b.personality)
        && a.lsda == b.lsda
}

fn are_same_links(a: &[Link], b: &[Link]) -> bool
    ensures { result ≡ pointwise same_link a.now b.now }
{
    if a.len() != b.len() {
        return false;
    }
    for (i, link) in a.iter().enumerate() {
        if !is_same_link(link, &b[i]) {
            return false;
        }
    }
    true
}

fn are_same_unwinds(a: &[FoldUnwind], b: &[FoldUnwind]) -> bool
    ensures { result ≡ pointwise same_unwind a.now b.now }
{
    if a.len() != b.len() {
        return false;
    }
    for (i, unwind) in a.iter().enumerate() {
        if !is_same_unwind(unwind, &b[i]) {
            return false;
        }
    }
    true
}

fn hash_goal<H: Hasher>(goal: &FoldGoal, state: &mut H)
    ensures { state.new ≡ fold H.write state.old (feed_goal goal.now) }
{
    match goal {
        FoldGoal::Node(_, at) => at.hash(state),
        FoldGoal::Other(Goal::Def(key, at)) => {
            key.hash(state);
            at.hash(state);
        }
        FoldGoal::Other(goal) => goal.name().hash(state),
    }
}

fn hash_optional<H: Hasher>(goal: &Option<FoldGoal>, state: &mut H)
    ensures { state.new ≡ fold H.write state.old (feed_optional goal.now) }
{
    if let Some(goal) = goal {
        hash_goal(goal, state);
    }
}

fn hash_link<H: Hasher>(link: &Link, state: &mut H)
    ensures { state.new ≡ fold H.write state.old (feed_link link.now) }
{
    link.place.hash(state);
    link.addend.hash(state);
    hash_goal(&link.goal, state);
    hash_optional(&link.minus, state);
}

fn hash_unwind<H: Hasher>(unwind: &FoldUnwind, state: &mut H)
    ensures { state.new ≡ fold H.write state.old (feed_unwind unwind.now) }
{
    unwind.offset.hash(state);
    unwind.length.hash(state);
    unwind.encoding.hash(state);
    hash_optional(&unwind.personality, state);
    unwind.lsda.hash(state);
}

fn hash_links<H: Hasher>(links: &[Link], state: &mut H)
    ensures { state.new ≡ fold H.write state.old (flat_map feed_link links.now) }
{
    for link in links {
        hash_link(link, state);
    }
}

fn hash_unwinds<H: Hasher>(unwinds: &[FoldUnwind], state: &mut H)
    ensures { state.new ≡ fold H.write state.old (flat_map feed_unwind unwinds.now) }
{
    for unwind in unwinds {
        hash_unwind(unwind, state);
    }
}
