ghost use Rattle.std.specs.Prelude.{◌≡◌, bit_or, []};
ghost use Rattle.sect_place.specs.Arrangement as arrangement;
ghost use Rattle.sect_list.specs.OutSections as sections;

use mo_format::loader::{
    S_ATTR_PURE_INSTRUCTIONS, S_ATTR_SOME_INSTRUCTIONS, S_NON_LAZY_SYMBOL_POINTERS, S_REGULAR,
    S_SYMBOL_STUBS, S_THREAD_LOCAL_VARIABLE_POINTERS,
};
use mo_types::{Bytes, Items, KeyList, OutSection};
use std::alloc::Global;

/// A section of an image before it is placed.
#[derive(Debug, Drop)]
pub struct Part {
    pub section: OutSection,
    /// Its bytes that are no atom's.
    pub fixed: u64,
}

/// Sections in the order in which they stand.
pub type PartList = Items<Part>;

/// A segment of an image before it is placed.
#[derive(Debug, Drop)]
pub struct Group {
    pub name: Bytes,
    pub parts: PartList,
}

/// The sections of the linker's own.
#[derive(Clone, Copy, Debug, PartialEq, Eq)]
pub enum Made {
    Stubs,
    UnwindInfo,
    Got,
    ThreadPtrs,
}

/// Which of the sections with atoms.
#[derive(Clone, Copy, Debug, PartialEq, Eq)]
pub enum Choice {
    /// `__TEXT,__text` of instructions.
    Code,
    /// The others of `__TEXT`.
    BesideCode,
    /// Those of `__DATA_CONST`.
    Constant,
    /// Those of `__DATA`.
    Writable,
    /// Those of other segments.
    Elsewhere,
}

impl Made {
    // The section without its bytes.
    pub(crate) fn section(self, alloc: Global) -> OutSection
        ensures { result ≡ arrangement.section_of self }
    {
        match self {
            Made::Stubs => {
                let attributes = S_ATTR_PURE_INSTRUCTIONS | S_ATTR_SOME_INSTRUCTIONS;
                own_section(
                    alloc,
                    b"__TEXT",
                    b"__stubs",
                    S_SYMBOL_STUBS as u8,
                    attributes,
                    2,
                )
            }
            Made::UnwindInfo => {
                own_section(alloc, b"__TEXT", b"__unwind_info", S_REGULAR as u8, 0, 2)
            }
            Made::Got => {
                let kind = S_NON_LAZY_SYMBOL_POINTERS as u8;
                own_section(alloc, b"__DATA_CONST", b"__got", kind, 0, 3)
            }
            Made::ThreadPtrs => {
                let kind = S_THREAD_LOCAL_VARIABLE_POINTERS as u8;
                own_section(alloc, b"__DATA", b"__thread_ptrs", kind, 0, 3)
            }
        }
    }
}

fn own_section(
    alloc: Global,
    segment: &'static [u8],
    name: &'static [u8],
    kind: u8,
    attributes: u32,
    align: u8,
) -> OutSection
    ensures { result ≡ record { segment = segment.now; name = name.now; kind = kind; flags = bit_or attributes kind; align = align; atoms = [] } }
{
    OutSection {
        segment: Bytes::from_static(segment),
        name: Bytes::from_static(name),
        kind,
        flags: attributes | u32::from(kind),
        align,
        atoms: KeyList::new(alloc),
    }
}

impl Choice {
    // Whether it chooses a section.
    #[tactic(auto, unfolding(crate::specs::Arrangement::is_chosen))]
    pub(crate) fn has(self, section: &OutSection) -> bool
        ensures { result ≡ arrangement.is_chosen self section.now }
    {
        let text = is_in(section, b"__TEXT");
        match self {
            Choice::Code => is_code(section),
            Choice::BesideCode => text && !is_code(section),
            Choice::Constant => is_in(section, b"__DATA_CONST"),
            Choice::Writable => is_in(section, b"__DATA"),
            Choice::Elsewhere => {
                !text && !is_in(section, b"__DATA_CONST") && !is_in(section, b"__DATA")
            }
        }
    }
}

// Whether a section is of a segment.
pub(crate) fn is_in(section: &OutSection, segment: &[u8]) -> bool
    ensures { result ≡ sections.is_in segment.now section.now }
{
    section.segment.as_slice() == segment
}

// Whether it is `__text` of instructions.
pub(crate) fn is_code(section: &OutSection) -> bool
    ensures { result ≡ arrangement.is_code section.now }
{
    is_in(section, b"__TEXT")
        && section.name.as_slice() == b"__text".as_slice()
        && u32::from(section.kind) == S_REGULAR
}
