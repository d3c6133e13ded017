use mo_types::{AtomKey, Bytes, Goal, Items, OutOfMemory, RangeKind, Which};

/// A pointer that the loader fills in.
#[derive(Debug, Drop)]
pub struct Fixup {
    /// The atom that it is in, or `None` for a slot.
    pub atom: Option<AtomKey>,
    /// The place of its reference in the object's bytes; 0 for a slot.
    pub place: u64,
    /// Where it stands in the image.
    pub address: u64,
    /// What it leads to. Of a pointer to a slot this is the header, and the addend is the slot's offset from it.
    pub goal: Goal,
    pub addend: i64,
}

/// Pointers in the order of their addresses.
pub type FixupList = Items<Fixup>;

/// What stands in the file for a pointer (`fixup-chains.h`: dyld_chained_ptr_64_rebase, dyld_chained_ptr_64_bind).
#[derive(Clone, Copy, Debug, PartialEq, Eq)]
pub struct ChainWord {
    pub address: u64,
    pub word: u64,
}

/// Words in the order of their addresses.
pub type WordList = Items<ChainWord>;

/// The chains of an image.
#[derive(Debug, Drop)]
pub struct Chains {
    /// A word for each pointer.
    pub words: WordList,
    /// The part of `__LINKEDIT` that LC_DYLD_CHAINED_FIXUPS names: a multiple of 8 bytes.
    pub blob: Bytes,
}

/// Why there are no chains.
#[derive(Clone, Copy, Debug, PartialEq, Eq)]
pub enum ChainFault {
    /// A pointer's target or place is out of range.
    Range {
        /// That of the pointer.
        atom: Option<AtomKey>,
        /// That of the pointer.
        place: u64,
        /// `RebaseTarget` or `FixupPlace`.
        kind: RangeKind,
        /// An offset from the image's header: that of the target, or that of the pointer.
        value: i128,
    },
    /// There are too many imports.
    Limit(Which),
    OutOfMemory,
}

impl From<OutOfMemory> for ChainFault {
    ghost use Rattle.std.specs.Prelude.{◌≡◌};
    ghost use Rattle.fixup_chain.specs.declared.chains.ChainFault.TheVariants as fault;

    ghost from_gives = { λ _ e. e ≡ fault.OutOfMemory };

    fn from(_e: OutOfMemory) -> ChainFault {
        ChainFault::OutOfMemory
    }
}
