use mo_types::{AtomKey, Bytes, Goal, Items, RefKind};

/// Where a reference of a node leads.
#[derive(Debug, Drop)]
pub enum FoldGoal {
    /// A place in a node: the node's number, counted from 0, and the offset from its start in bytes.
    Node(u32, u64),
    /// Anything else.
    Other(Goal),
}

/// A reference of a node.
#[derive(Debug, Drop)]
pub struct Link {
    /// The offset of its field from the node's start, in bytes.
    pub place: u64,
    pub kind: RefKind,
    pub addend: i64,
    pub goal: FoldGoal,
    /// Of a difference, what is subtracted.
    pub minus: Option<FoldGoal>,
}

/// The references of a node, in a stated order.
pub type LinkList = Items<Link>;

/// How to unwind the frames of a piece of a node (`mach-o/compact_unwind_encoding.h`).
#[derive(Debug, Drop)]
pub struct FoldUnwind {
    /// The piece's offset in the node, in bytes.
    pub offset: u64,
    /// How many bytes it has.
    pub length: u32,
    /// The compact encoding.
    pub encoding: u32,
    /// The function that handles exceptions, where there is one.
    pub personality: Option<FoldGoal>,
    /// The data that are handed to it, where there are some: an atom, and an offset from its start in bytes.
    pub lsda: Option<(AtomKey, u64)>,
}

/// The unwind entries of a node, in a stated order.
pub type FoldUnwinds = Items<FoldUnwind>;

/// An atom that may be one with others: a function.
#[derive(Debug, Drop)]
pub struct FoldNode {
    pub key: AtomKey,
    /// Its bytes, in which the fields of its references are zero.
    pub bytes: Bytes,
    pub links: LinkList,
    pub unwinds: FoldUnwinds,
}

/// Nodes by rising key. The number of a node is its place among them, counted from 0.
pub type FoldNodes = Items<FoldNode>;

/// For each node a number, in the order of the nodes.
pub type NumberList = Items<usize>;
