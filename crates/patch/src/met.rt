use mo_types::{RangeKind, RefKind};

/// A reference with what it means in the image.
#[derive(Clone, Copy, Debug, PartialEq, Eq)]
pub struct Met {
    /// The field's offset in its atom, in bytes.
    pub place: u64,
    /// The field's offset in the object's bytes, for messages.
    pub file_place: u64,
    pub kind: RefKind,
    /// The address that the reference leads to: that of its target, or of the target's slot or stub. Of a
    /// pointer that the loader fixes up, the word of its chain, to which nothing is added.
    pub value: u64,
    /// The address that a difference subtracts.
    pub minus: u64,
    /// In bytes, added to the value.
    pub addend: i64,
}

/// A value that its field can't hold.
#[derive(Clone, Copy, Debug, PartialEq, Eq)]
pub struct RangeFault {
    /// The field's offset in the object's bytes.
    pub file_place: u64,
    pub kind: RangeKind,
    /// The distance of a branch in bytes or of a page in pages, the low 12 bits of an address, or the
    /// difference; where the target with its addend is no address, that sum.
    pub value: i128,
}
