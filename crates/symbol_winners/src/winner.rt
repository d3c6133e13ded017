use mo_types::{AtomKey, Bytes, FileId, Items};

/// The candidate of a name that stands for it in the image: the one with the least word.
#[derive(Debug, Drop)]
pub struct Winner {
    pub name: Bytes,
    /// Its word as a candidate.
    pub word: u64,
    /// The file that has it.
    pub file: FileId,
    /// The atom in which it stands; that of a common symbol is its own, of the section `COMMON_SECTION`.
    pub atom: AtomKey,
    /// Its offset from the atom's start in bytes.
    pub offset: u64,
    /// Of a common symbol the greatest size in bytes among those of its name; else 0, as its atom has a size.
    pub size: u64,
    /// Of a common symbol the greatest alignment among those of its name, as an exponent of 2; else 0.
    pub align: u8,
    /// It is a weak definition (`nlist.h`: N_WEAK_DEF), and no common symbol.
    pub weak: bool,
    /// Other images see it.
    pub exported: bool,
}

/// Winners, in the byte order of their names.
pub type WinnerList = Items<Winner>;
