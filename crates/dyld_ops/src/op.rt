//! What opcodes say.

/// A table of opcodes.
#[derive(Clone, Copy, Debug, PartialEq, Eq)]
pub enum Table {
    Rebases,
    Binds,
}

/// What an opcode says.
#[derive(Clone, Copy, Debug, PartialEq, Eq)]
pub enum Op {
    /// The table ends.
    Done,
    /// The fixups that follow are pointers.
    Pointers,
    /// The place is this offset of a segment.
    Segment {
        index: u8,
        offset: u64,
    },
    /// The place lies so many bytes behind.
    Forward(u64),
    /// So many pointers, one behind the other, are rebased.
    Rebase(u8),
    /// The library whose names follow.
    Ordinal(i32),
    /// The name, by its place in the file and its size.
    Name {
        at: usize,
        size: usize,
        optional: bool,
    },
    /// What is added to the address of the name.
    Addend(i64),
    /// A pointer is bound.
    Bind,
}

/// An opcode, and the place behind it.
#[derive(Clone, Copy, Debug, PartialEq, Eq)]
pub struct Decoded {
    pub op: Op,
    pub next: usize,
}
