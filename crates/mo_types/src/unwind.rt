use crate::items::Items;
use crate::key::AtomKey;
use crate::reference::Target;

/// How to unwind the frames of a piece of an atom (`mach-o/compact_unwind_encoding.h`; an entry of the section
/// `__LD,__compact_unwind`).
#[derive(Clone, Copy, Debug, PartialEq, Eq)]
pub struct Unwind {
    /// The atom that holds the piece.
    pub atom: AtomKey,
    /// The piece's offset in the atom, in bytes.
    pub offset: u64,
    /// How many bytes it has: it ends at its atom's end at the latest.
    pub length: u32,
    /// The compact encoding, as the object has it.
    pub encoding: u32,
    /// The function that handles exceptions, where there is one.
    pub personality: Option<Target>,
    /// The data that are handed to it, where there are some: an atom of the same object, and an offset from its
    /// start in bytes.
    pub lsda: Option<(AtomKey, u64)>,
}

/// The unwind entries of an object, in the order of its section of them.
pub type UnwindList = Items<Unwind>;
