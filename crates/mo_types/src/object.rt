ghost use Rattle.std.specs.Prelude.{◌≡◌};
ghost use Rattle.mo_types.specs.Candidates as spec;

use crate::items::Items;
use crate::string::Bytes;

// A symbol fills a cache line.
const _: () = prove!(size_of::<Symbol>() == 64);

/// What a symbol stands for (`nlist.h`: `n_type`, `n_sect`, `n_value`).
#[derive(Clone, Copy, Debug, PartialEq, Eq)]
pub enum SymbolKind {
    /// An external symbol that another file defines.
    Undefined,
    /// An external symbol with an alignment exponent and a size in bytes, but no section.
    Common { align: u8, size: u64 },
    /// A symbol in a section, by the section's number from 1 and the symbol's address in the object.
    Defined { section: u8, value: u64 },
    /// A symbol that is a number and no place.
    Absolute,
    /// A symbol that the linker passes over: a debugging entry, or an undefined one that isn't external.
    Passed,
}

impl SymbolKind {
    /// Whether another file is to define it.
    pub fn is_undefined(&self) -> bool
        ensures { result ≡ spec.is_undefined self.now }
    {
        matches!(self, SymbolKind::Undefined)
    }

    /// Whether it is a common symbol.
    pub fn is_common(&self) -> bool
        ensures { result ≡ spec.is_common self.now }
    {
        matches!(self, SymbolKind::Common { .. })
    }
}

/// A symbol of an object (`nlist.h`: `nlist_64`).
#[derive(Debug, Drop)]
pub struct Symbol {
    /// The name, without the NUL that ends it.
    pub name: Bytes,
    /// What it stands for.
    pub kind: SymbolKind,
    /// `N_EXT`: other files see it.
    pub external: bool,
    /// `N_PEXT`: other images don't see it.
    pub hidden: bool,
    /// `N_WEAK_DEF`: a definition without this bit wins over it.
    pub weak_def: bool,
    /// `N_WEAK_REF`: it may be undefined when the image runs.
    pub weak_ref: bool,
    /// `N_NO_DEAD_STRIP`: it is kept even where nothing refers to it.
    pub no_strip: bool,
    /// `N_ALT_ENTRY`: it doesn't begin an atom.
    pub alt: bool,
}

/// The symbols of an object, in the order of its table.
pub type SymbolList = Items<Symbol>;

/// A relocation as it stands in the object (`reloc.h`: `relocation_info`).
#[derive(Clone, Copy, Debug, PartialEq, Eq)]
pub struct RawReloc {
    /// `r_address`, the offset in the section, as 32 bits in two's complement.
    pub address: u32,
    /// `r_symbolnum`, of 24 bits: the index of a symbol from 0, or the number of a section from 1.
    pub number: u32,
    /// `r_pcrel`: whether the value counts from the field's place.
    pub pcrel: bool,
    /// `r_length`, from 0 to 3: the field has 2 to that power bytes.
    pub length: u8,
    /// `r_extern`: whether `number` is that of a symbol.
    pub external: bool,
    /// `r_type`, from 0 to 15.
    pub kind: u8,
}

/// The relocations of a section, in the order of its table.
pub type RelocList = Items<RawReloc>;

/// A section of an object (`loader.h`: `section_64`).
#[derive(Debug, Drop)]
pub struct Section {
    /// The name of its segment, without the zeros after it.
    pub segment: Bytes,
    /// Its name, without the zeros after it.
    pub name: Bytes,
    /// The address in the object.
    pub address: u64,
    /// How many bytes it has in memory.
    pub size: u64,
    /// The alignment is 2 to this power.
    pub align: u8,
    /// The low 8 bits of the flags: the section's type.
    pub kind: u8,
    /// The flags without the type.
    pub attributes: u32,
    /// The offset of the contents in the object's bytes.
    pub file_offset: u64,
    /// The offset of the relocations in the object's bytes.
    pub reloc_offset: u64,
    /// The contents; empty for a zerofill section.
    pub bytes: Bytes,
    /// The relocations of the contents.
    pub relocs: RelocList,
}

/// The sections of an object, in its order.
pub type SectionList = Items<Section>;

/// A relocatable object (`loader.h`: `MH_OBJECT`).
#[derive(Debug, Drop)]
pub struct Object {
    /// `MH_SUBSECTIONS_VIA_SYMBOLS`: sections may be cut into atoms at their symbols.
    pub subsections: bool,
    /// Its sections; others name them by their numbers from 1.
    pub sections: SectionList,
    /// Its symbols; others name them by their indices from 0.
    pub symbols: SymbolList,
}
