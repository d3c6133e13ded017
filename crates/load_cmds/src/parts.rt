/// Which parts of an image are there that the linker makes at last. Each brings its load commands.
#[derive(Clone, Copy, Debug, PartialEq, Eq)]
pub struct PartKinds {
    /// The chains of fixups: LC_DYLD_CHAINED_FIXUPS.
    pub fixups: bool,
    /// The trie of exports: LC_DYLD_EXPORTS_TRIE.
    pub trie: bool,
    /// The symbols, the table of indirect symbols and the strings: LC_SYMTAB and LC_DYSYMTAB.
    pub symbols: bool,
    /// LC_UUID, which holds zeros at first.
    pub uuid: bool,
    /// LC_CODE_SIGNATURE.
    pub signature: bool,
}

/// Where a part of `__LINKEDIT` stands in the file, in bytes.
#[derive(Clone, Copy, Debug, PartialEq, Eq)]
pub struct PartPlace {
    pub offset: u64,
    pub size: u64,
}

/// Where the parts of an image stand that are there, and what else its load commands tell of it.
#[derive(Clone, Copy, Debug, PartialEq, Eq)]
pub struct PartSizes {
    /// Which parts are there; of the others nothing here counts.
    pub there: PartKinds,
    pub fixups: PartPlace,
    pub trie: PartPlace,
    pub symbols: PartPlace,
    /// The table of indirect symbols, of 4 bytes an entry.
    pub indirect: PartPlace,
    pub strings: PartPlace,
    pub signature: PartPlace,
    /// How many local symbols there are, which are the first ones.
    pub locals: u32,
    /// How many exported symbols there are, which are the next ones.
    pub exported: u32,
    /// How many imported symbols there are, which are the last ones.
    pub undefined: u32,
    /// The offset of a program's first instruction from the start of `__TEXT`, in bytes (LC_MAIN).
    pub entryoff: u64,
    /// The flags of the header, as MH_PIE.
    pub flags: u32,
}
