//! Files, objects and atoms that tests put together by hand. Each call gives the record of its arguments; what tests
//! seldom vary has one value here, and a caller that varies it gives the field beside `..`.
#![tactic(auto)]

ghost use Rattle.std.specs.Prelude.{◌≡◌, [], ◌∷◌, length, IfOk, false, true};
ghost use Rattle.std.specs.List.{AllPairs};
ghost use Rattle.mo_types.specs.Loaded.{IsBefore};
ghost use Rattle.mo_types.specs.declared.object.SymbolKind.TheVariants as kinds;

use mo_types::{
    Atom, AtomKey, AtomList, Bytes, FileId, KeyList, Loaded, LoadedFile, LoadedList, Object,
    OutOfMemory, OutSection, RefList, RelocList, Section, SectionList, Symbol, SymbolKind,
    SymbolList, UnwindList,
};
use std::alloc::Global;

/// The id of the plain object at a position.
pub fn file_id(position: u16) -> FileId
    ensures { result ≡ record { position = position; member = 0 } }
{
    FileId {
        position,
        member: 0,
    }
}

/// The key of an atom of the plain object at a position.
pub fn key(position: u16, section: u16, offset: u64) -> AtomKey
    ensures { result ≡ record { file = record { position = position; member = 0 }; section = section; offset = offset } }
{
    AtomKey {
        file: file_id(position),
        section,
        offset,
    }
}

/// An atom of a size in bytes, aligned to 2 to the power `align`.
pub fn atom(key: AtomKey, size: u64, align: u8) -> Atom
    ensures { result ≡ record { key = key; size = size; align = align } }
{
    Atom { key, size, align }
}

/// What a symbol in a section is, by the section's number and the symbol's address.
pub fn defined(section: u8, value: u64) -> SymbolKind
    ensures { result ≡ kinds.Defined section value }
{
    SymbolKind::Defined { section, value }
}

/// A symbol none of whose bits is set.
pub fn symbol(name: &'static [u8], kind: SymbolKind) -> Symbol
    ensures { result ≡ record { name = name.now; kind = kind; external = false; hidden = false; weak_def = false; weak_ref = false; no_strip = false; alt = false } }
{
    Symbol {
        name: Bytes::from_static(name),
        kind,
        external: false,
        hidden: false,
        weak_def: false,
        weak_ref: false,
        no_strip: false,
        alt: false,
    }
}

/// A section at the address 0, without attributes and relocations. Its contents stand at 0x200 in the file.
pub fn section(
    alloc: Global,
    segment: &'static [u8],
    name: &'static [u8],
    kind: u8,
    align: u8,
    bytes: Bytes,
) -> Section
    ensures { result ≡ record { segment = segment.now; name = name.now; address = 0; size = length bytes; align = align; kind = kind; attributes = 0; file_offset = 512; reloc_offset = 0; bytes = bytes; relocs = [] } }
{
    Section {
        segment: Bytes::from_static(segment),
        name: Bytes::from_static(name),
        address: 0,
        size: bytes.len() as u64,
        align,
        kind,
        attributes: 0,
        file_offset: 0x200,
        reloc_offset: 0,
        bytes,
        relocs: RelocList::new(alloc),
    }
}

/// An object whose sections may be cut at symbols.
pub fn object(sections: SectionList, symbols: SymbolList) -> Object
    ensures { result ≡ record { subsections = true; sections = sections; symbols = symbols } }
{
    Object {
        subsections: true,
        sections,
        symbols,
    }
}

/// Such an object with one section.
pub fn object_of(
    alloc: Global,
    section: Section,
    symbols: SymbolList,
) -> Result<Object, OutOfMemory>
    ensures { IfOk result (λ object. object ≡ record { subsections = true; sections = section ∷ []; symbols = symbols }) }
{
    let mut sections = SectionList::new(alloc);
    sections.push(section)?;
    Ok(object(sections, symbols))
}

/// A file that has just an object: no label, atoms and references.
pub fn file(alloc: Global, id: FileId, object: Object) -> LoadedFile
    ensures { result ≡ record { id = id; label = []; object = object; atoms = []; refs = []; unwinds = [] } }
{
    LoadedFile {
        id,
        label: Bytes::new(),
        object,
        atoms: AtomList::new(alloc),
        refs: RefList::new(alloc, id),
        unwinds: UnwindList::new(alloc),
    }
}

/// One file, which is in order.
pub fn only(alloc: Global, file: LoadedFile) -> Result<Loaded, OutOfMemory>
    ensures file { IfOk result (λ loaded. loaded.files ≡ file ∷ []) }
    ensures order { IfOk result (λ loaded. AllPairs (λ a b. IsBefore a.id b.id) loaded.files) }
{
    let mut files = LoadedList::new(alloc);
    files.push(file)?;
    Ok(Loaded { files })
}

/// A section of an image, whose flags are its type alone.
pub fn out_section(
    segment: &'static [u8],
    name: &'static [u8],
    kind: u8,
    align: u8,
    atoms: KeyList,
) -> OutSection
    ensures { result ≡ record { segment = segment.now; name = name.now; kind = kind; flags = kind; align = align; atoms = atoms } }
{
    OutSection {
        segment: Bytes::from_static(segment),
        name: Bytes::from_static(name),
        kind,
        flags: u32::from(kind),
        align,
        atoms,
    }
}
