//! Libraries that were put together by hand.
use lib_bind::{Libraries, Library, LibraryList, LinkList, are_libraries, are_links};
use mo_types::{Bytes, Items, NameList, OutOfMemory};
use std::alloc::Global;
use tbd_doc::{Export, ExportList, Stub, StubList};

// What a library exports, in the order of the names, and which of these it lists as weak.
type Names = &'static [(&'static [u8], bool)];

// Of three libraries: the second lists some names as weak ones.
const EXPORTS: [Names; 3] = [
    &[
        (b"___dso_handle", false),
        (b"__mh_dylib_header", false),
        (b"_both", false),
        (b"_f", false),
        (b"_main", false),
        (b"_may", false),
        (b"_w", false),
    ],
    &[(b"_f", false), (b"_g", true), (b"_i", true)],
    &[(b"_g", false), (b"_h", false), (b"_i", true), (b"_j", true)],
];

fn document(alloc: Global, names: Names) -> Result<Stub, OutOfMemory> {
    let mut exports = ExportList::new(alloc);
    for (name, weak) in names {
        exports.push(Export {
            name: Bytes::from_static(*name),
            weak: *weak,
        })?;
    }
    Ok(Stub {
        install: Bytes::from_static(b"/usr/lib/libx.dylib"),
        current: 0x1_0000,
        compatible: 0x1_0000,
        reexports: NameList::new(alloc),
        exports,
    })
}

fn documents(alloc: Global, rows: &[Names]) -> Result<StubList, OutOfMemory> {
    let mut list = StubList::new(alloc);
    for names in rows {
        list.push(document(alloc, *names)?)?;
    }
    Ok(list)
}

fn no_links(alloc: Global, count: usize) -> Result<LinkList, OutOfMemory> {
    let mut list = LinkList::new(alloc);
    for _ in 0..count {
        list.push(Items::new(alloc))?;
    }
    Ok(list)
}

// A library of each document from the first on, at these positions. The third one may be absent.
fn listed(alloc: Global, positions: &[u16]) -> Result<LibraryList, OutOfMemory> {
    let mut list = LibraryList::new(alloc);
    for ((document, position), ordinal) in positions.iter().enumerate().zip(1u8..) {
        list.push(Library {
            position: *position,
            ordinal,
            weak: ordinal == 3,
            reexport: false,
            document,
        })?;
    }
    Ok(list)
}

// Libraries at these positions, which export the names of their rows, or `None` where they aren't libraries of a link.
fn made(
    alloc: Global,
    rows: &[Names],
    positions: &[u16],
) -> Result<Option<Libraries>, OutOfMemory> {
    let documents = documents(alloc, rows)?;
    let links = no_links(alloc, rows.len())?;
    let listed = listed(alloc, positions)?;
    if are_links(documents.len(), links.as_slice())
        && are_libraries(documents.len(), listed.as_slice())
    {
        Ok(Some(Libraries::new(alloc, listed, documents, links)?))
    } else {
        Ok(None)
    }
}

/// Three libraries, at positions behind those of the files.
pub fn libraries(alloc: Global) -> Result<Option<Libraries>, OutOfMemory> {
    made(alloc, &EXPORTS, &[11, 12, 13])
}

/// A library at a position that exports `_f`, or none.
pub fn library_at(alloc: Global, position: Option<u16>) -> Result<Option<Libraries>, OutOfMemory> {
    let rows: [Names; 1] = [&[(b"_f", false)]];
    match position {
        Some(position) => made(alloc, &rows, &[position]),
        None => made(alloc, &rows, &[]),
    }
}
