use crate::items::Items;
use crate::key::AtomKey;

/// What leads from one atom to another: where the first is kept, so is the second.
#[derive(Clone, Copy, Debug, PartialEq, Eq, PartialOrd, Ord, Hash)]
pub struct Edge {
    pub from: AtomKey,
    pub to: AtomKey,
}

/// Edges in a stated order.
pub type EdgeList = Items<Edge>;
