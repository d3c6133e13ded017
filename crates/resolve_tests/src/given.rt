//! Files of symbols, which tests put together by hand.
ghost use Rattle.std.specs.Prelude.{All, IfOk, IfSome, IsTrue};
ghost use Rattle.std.specs.List.{AllPairs};
ghost use Rattle.mo_types.specs.Loaded.{IsBefore, IsWholeFile, IsWholeLoaded};

use atom_cut::cut;
use mo_types::{
    Bytes, FileId, Loaded, LoadedFile, LoadedList, Object, OutOfMemory, Section, Symbol,
    SymbolKind, SymbolList, UnwindList,
};
use reloc_read::refs_of;
use std::alloc::Global;
use std::cmp::Ordering;
use test_objects::{defined, object_of, section};

/// What a symbol is.
#[derive(Clone, Copy)]
pub enum Is {
    /// A definition at the start of the file's section.
    Strong,
    /// N_WEAK_DEF (`nlist.h`).
    Weak,
    /// N_PEXT, with or without N_WEAK_DEF.
    Hidden,
    HiddenWeak,
    /// Of a size and an alignment.
    Common(u64, u8),
    Undefined,
    /// N_WEAK_REF.
    MayBeMissing,
    /// A strong definition at an address, and a weak one.
    At(u64),
    WeakAt(u64),
    /// A definition at an address that other files don't see.
    Local(u64),
}

/// A file's position and member, and its symbols.
pub type Row<'a> = ((u16, u32), &'a [(&'static [u8], Is)]);

/// The id of a file of a position and a member.
pub fn id_of(place: (u16, u32)) -> FileId {
    FileId {
        position: place.0,
        member: place.1,
    }
}

fn kind_of(is: Is) -> SymbolKind {
    match is {
        Is::Strong | Is::Weak | Is::Hidden | Is::HiddenWeak => defined(1, 0),
        Is::At(value) | Is::WeakAt(value) | Is::Local(value) => defined(1, value),
        Is::Common(size, align) => SymbolKind::Common { size, align },
        Is::Undefined | Is::MayBeMissing => SymbolKind::Undefined,
    }
}

/// A symbol.
pub fn symbol(name: &'static [u8], is: Is) -> Symbol {
    Symbol {
        external: !matches!(is, Is::Local(_)),
        hidden: matches!(is, Is::Hidden | Is::HiddenWeak),
        weak_def: matches!(is, Is::Weak | Is::WeakAt(_) | Is::HiddenWeak),
        weak_ref: matches!(is, Is::MayBeMissing),
        ..test_objects::symbol(name, kind_of(is))
    }
}

/// `__TEXT,__text` with one return.
pub fn text(alloc: Global) -> Section {
    let code = Bytes::from_static(b"\xc0\x03\x5f\xd6");
    Section {
        attributes: 0x8000_0400,
        ..section(alloc, b"__TEXT", b"__text", 0, 2, code)
    }
}

/// A file's position, and of its one section the name, the type, the alignment and the bytes.
pub type Section1 = (u16, &'static [u8], u8, u8, &'static [u8]);

/// `__TEXT` with a section of literals.
pub fn literal_section(alloc: Global, row: &Section1) -> Section {
    let (_, name, kind, align, bytes) = *row;
    Section {
        address: 0x40,
        ..section(
            alloc,
            b"__TEXT",
            name,
            kind,
            align,
            Bytes::from_static(bytes),
        )
    }
}

/// An object of one section.
pub fn object(
    alloc: Global,
    section: Section,
    rows: &[(&'static [u8], Is)],
) -> Result<Object, OutOfMemory> {
    let mut symbols = SymbolList::new(alloc);
    for (name, is) in rows {
        symbols.push(symbol(*name, *is))?;
    }
    object_of(alloc, section, symbols)
}

/// The file of a whole object.
pub fn whole_file(
    alloc: Global,
    id: FileId,
    object: Object,
) -> Result<Option<LoadedFile>, OutOfMemory>
    ensures { IfOk result (λ file. IfSome file IsWholeFile) }
{
    if id.member >= 1 << 20 || object.symbols.len() >= 1 << 24 || !object.is_whole() {
        return Ok(None);
    }
    let atoms = cut(alloc, &object, id)?;
    match refs_of(alloc, &object, &atoms, id) {
        Ok(refs) => Ok(Some(LoadedFile {
            id,
            label: Bytes::new(),
            object,
            atoms,
            refs,
            unwinds: UnwindList::new(alloc),
        })),
        Err(_) => Ok(None),
    }
}

fn is_rising(files: &[LoadedFile]) -> bool
    ensures { IsTrue result → AllPairs (λ a b. IsBefore a.id b.id) files.now }
{
    for i in 1..files.len() {
        match files[i - 1].id.cmp(&files[i].id) {
            Ordering::Less => {}
            _ => return false,
        }
    }
    true
}

/// Some files with one file more.
pub fn add(
    files: Vec<LoadedFile>,
    alloc: Global,
    place: (u16, u32),
    object: Object,
) -> Result<Option<Vec<LoadedFile>>, OutOfMemory>
    requires { All IsWholeFile files.items }
    ensures { IfOk result (λ more. IfSome more (λ files. All IsWholeFile files.items)) }
{
    let mut more = files;
    match whole_file(alloc, id_of(place), object)? {
        Some(file) => {
            more.push(file)?;
            Ok(Some(more))
        }
        None => Ok(None),
    }
}

/// The files, where they rise.
pub fn risen(files: Vec<LoadedFile>) -> Option<Loaded>
    requires { All IsWholeFile files.items }
    ensures { IfSome result IsWholeLoaded }
{
    if !is_rising(files.as_slice()) {
        return None;
    }
    Some(Loaded {
        files: LoadedList::from_vec(files),
    })
}

/// The files of some rows, where they are whole and rise.
pub fn loaded(alloc: Global, rows: &[Row]) -> Result<Option<Loaded>, OutOfMemory>
    ensures { IfOk result (λ loaded. IfSome loaded IsWholeLoaded) }
{
    let mut files = Vec::new(alloc);
    for (place, symbols) in rows {
        match add(files, alloc, *place, object(alloc, text(alloc), *symbols)?)? {
            Some(more) => files = more,
            None => return Ok(None),
        }
    }
    Ok(risen(files))
}
