ghost use Rattle.std.specs.Prelude.{◌≡◌};
ghost use Rattle.mo_types.specs.Keys.{compare_files, compare_keys};
ghost use Rattle.mo_types.specs.declared.key.AtomKey.{AtomKey};
ghost use Rattle.mo_types.specs.declared.key.FileId.{FileId};

use std::cmp::Ordering;

/// The section number of common symbols' atoms: one more than a section of a file can have (`nlist.h`: MAX_SECT).
pub const COMMON_SECTION: u16 = 256;

/// A loaded file. Files are ordered by position, then by member.
#[derive(Clone, Copy, Debug, PartialEq, Eq, PartialOrd, Ord, Hash)]
pub struct FileId {
    /// The number of its input, counted from 0 in the order of the command line.
    pub position: u16,
    /// The number of the archive's member, counted from 1, or 0 for a plain object.
    pub member: u32,
}

/// An atom. Atoms are ordered by file, then by section, then by offset.
#[derive(Clone, Copy, Debug, PartialEq, Eq, PartialOrd, Ord, Hash)]
pub struct AtomKey {
    /// The file that it is from.
    pub file: FileId,
    /// The number of its section, counted from 1, or `COMMON_SECTION` for a common symbol.
    pub section: u16,
    /// Its offset in the section in bytes; for a common symbol, the symbol's index from 0.
    pub offset: u64,
}

/// The order of two atoms: by file, then by section, then by offset.
pub fn compare_atoms(a: &AtomKey, b: &AtomKey) -> Ordering
    ensures { result ≡ compare_keys a.now b.now }
{
    a.cmp(b)
}

/// The derived order of files is that of the command line. A law, which does nothing.
pub fn files_are_in_order()
    ensures { (a b : FileId) → ⟦<FileId as Ord>⟧.cmp a b ≡ compare_files a b }
{}

/// The derived order of atoms is by file, section and offset. A law, which does nothing.
pub fn keys_are_in_order()
    ensures { (a b : AtomKey) → ⟦<AtomKey as Ord>⟧.cmp a b ≡ compare_keys a b }
{}
