use crate::items::Items;
use crate::key::AtomKey;

/// A piece of a section that is placed as a whole: what stands from one cut to the next. Its bytes are its
/// part of the section's.
#[derive(Clone, Copy, Debug, PartialEq, Eq)]
pub struct Atom {
    pub key: AtomKey,
    /// In bytes.
    pub size: u64,
    /// The alignment is 2 to this power.
    pub align: u8,
}

/// Atoms by rising key.
pub type AtomList = Items<Atom>;
