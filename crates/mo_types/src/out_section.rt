use crate::items::Items;
use crate::key::AtomKey;
use crate::string::Bytes;

/// Atoms by their keys, in a stated order.
pub type KeyList = Items<AtomKey>;

/// A section of the image that holds atoms: those of the sections of the inputs with its segment, name and
/// type (`loader.h`: section_64).
#[derive(Debug, Drop)]
pub struct OutSection {
    pub segment: Bytes,
    pub name: Bytes,
    /// The type (`loader.h`: SECTION_TYPE).
    pub kind: u8,
    /// The type with the attributes (`loader.h`: SECTION_ATTRIBUTES).
    pub flags: u32,
    /// The alignment is 2 to this power.
    pub align: u8,
    /// The keys of its atoms, in the order in which they stand in it.
    pub atoms: KeyList,
}

/// The sections of an image that hold atoms, in the order in which they stand in it.
pub type OutSections = Items<OutSection>;
