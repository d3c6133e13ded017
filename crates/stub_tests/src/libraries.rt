//! Libraries that were put together by hand, and the providers of names. The answers were written by hand.
use lib_bind::{
    Libraries, Library, LibraryList, LinkList, Provider, are_libraries, are_links, offer_of,
    provider_of,
};
use mo_types::{Bytes, Items, NameList, OutOfMemory};
use std::alloc::Global;
use std::test::Fail;
use tbd_doc::{Export, ExportList, Stub, StubList};

// A document that exports names. Those after a `?` are listed under weak-symbols.
fn document(
    alloc: Global,
    install: &'static [u8],
    names: &[&'static [u8]],
) -> Result<Stub, OutOfMemory> {
    let mut exports = ExportList::new(alloc);
    let mut weak = false;
    for name in names {
        if *name == b"?".as_slice() {
            weak = true;
        } else {
            exports.push(Export {
                name: Bytes::from_static(*name),
                weak,
            })?;
        }
    }
    Ok(Stub {
        install: Bytes::from_static(install),
        current: 0x0541_6402,
        compatible: 0x1_0000,
        reexports: NameList::new(alloc),
        exports,
    })
}

// The links of each document.
fn links_of(alloc: Global, rows: &[&[usize]]) -> Result<LinkList, OutOfMemory> {
    let mut links = LinkList::new(alloc);
    for row in rows {
        links.push(Items::from_vec(Vec::from_slice(alloc, *row)?))?;
    }
    Ok(links)
}

// Libraries at the positions, each with the number of its document. The last one is a weak one.
fn libraries_of(alloc: Global, rows: &[(u16, usize)]) -> Result<LibraryList, OutOfMemory> {
    let mut libraries = LibraryList::new(alloc);
    for ((position, document), ordinal) in rows.iter().zip(1u8..) {
        libraries.push(Library {
            position: *position,
            ordinal,
            weak: usize::from(ordinal) == rows.len(),
            reexport: false,
            document: *document,
        })?;
    }
    Ok(libraries)
}

// The libraries, where they are whole.
fn whole(
    alloc: Global,
    libraries: LibraryList,
    documents: StubList,
    links: LinkList,
) -> Result<Option<Libraries>, OutOfMemory> {
    if are_links(documents.len(), links.as_slice())
        && are_libraries(documents.len(), libraries.as_slice())
    {
        Ok(Some(Libraries::new(alloc, libraries, documents, links)?))
    } else {
        Ok(None)
    }
}

// Whether a name is bound so: to an ordinal, to a weak name, to a weak library.
fn is_bound(libs: &Libraries, name: &[u8], row: (u8, bool, bool)) -> bool {
    provider_of(libs, name)
        == Some(Provider {
            ordinal: row.0,
            weak: row.1,
            weak_library: row.2,
        })
}

// The libraries of some documents, their links, and the positions and documents of libraries.
fn made(
    alloc: Global,
    documents: &[&[&'static [u8]]],
    links: &[&[usize]],
    libraries: &[(u16, usize)],
) -> Result<Option<Libraries>, OutOfMemory> {
    let mut stubs = StubList::new(alloc);
    for names in documents {
        stubs.push(document(alloc, b"/usr/lib/libx.dylib", *names)?)?;
    }
    whole(
        alloc,
        libraries_of(alloc, libraries)?,
        stubs,
        links_of(alloc, links)?,
    )
}

// A ring of three documents, one by itself, and one that no library reaches.
fn ring(alloc: Global) -> Result<Option<Libraries>, OutOfMemory> {
    made(
        alloc,
        &[
            &[b"_a", b"?", b"_w"],
            &[b"_a", b"_b", b"_s"],
            &[b"_c", b"?", b"_s"],
            &[b"_c", b"_d"],
            &[b"_e"],
        ],
        &[&[1], &[2, 0], &[1, 2], &[], &[3]],
        &[(0, 0), (2, 2), (7, 3)],
    )
}

// The names of the ring, and to what they are bound.
const BOUND: [(&[u8], (u8, bool, bool)); 6] = [
    (b"_a", (1, false, false)),
    (b"_w", (1, true, false)),
    (b"_b", (1, false, false)),
    (b"_c", (1, false, false)),
    (b"_s", (1, true, false)),
    (b"_d", (3, false, true)),
];

fn all_are_bound(libs: &Libraries) -> bool {
    for (name, row) in &BOUND {
        if !is_bound(libs, *name, *row) {
            return false;
        }
    }
    true
}

fn provides_names(libs: &Libraries) -> bool {
    all_are_bound(libs)
        && provider_of(libs, b"_e").is_none()
        && offer_of(libs, b"_d").is_some_and(|offer| offer.library.position == 7)
}

fn ring_provides_names(alloc: Global) -> Result<bool, OutOfMemory> {
    let libs = ring(alloc)?;
    match &libs {
        Some(libs) => Ok(provides_names(libs)),
        None => Ok(false),
    }
}

// The links of one document and the libraries, and whether these are libraries: not with a link past the documents, a
// document without its links, a library past them, and positions that don't rise.
static FORMS: [(&'static [&'static [usize]], &'static [(u16, usize)], bool); 5] = [
    (&[&[0]], &[(1, 0)], true),
    (&[&[1]], &[(1, 0)], false),
    (&[], &[(1, 0)], false),
    (&[&[]], &[(1, 1)], false),
    (&[&[]], &[(1, 0), (1, 0)], false),
];

fn is_made(
    alloc: Global,
    links: &[&[usize]],
    libraries: &[(u16, usize)],
) -> Result<bool, OutOfMemory> {
    let libs = made(alloc, &[&[]], links, libraries)?;
    Ok(libs.is_some())
}

// A name of a number: `_n` and seven digits, the lowest first.
fn name_of(alloc: Global, number: u32) -> Result<Bytes, OutOfMemory> {
    let mut name = Vec::from_slice(alloc, b"_n")?;
    let mut rest = number;
    for _ in 0..7usize {
        name.push((rest % 10) as u8 + b'0')?;
        rest /= 10;
    }
    Bytes::from_vec(name)
}

// A document that exports the names of the numbers from one to another.
fn numbered(alloc: Global, from: u32, to: u32) -> Result<Stub, OutOfMemory> {
    let mut stub = document(alloc, b"/usr/lib/libn.dylib", &[])?;
    for number in from..to {
        stub.exports.push(Export {
            name: name_of(alloc, number)?,
            weak: number % 2 == 1,
        })?;
    }
    Ok(stub)
}

fn many_documents(alloc: Global) -> Result<StubList, OutOfMemory> {
    let mut stubs = StubList::new(alloc);
    for document in 0..1000u32 {
        stubs.push(numbered(alloc, 3 * document, 3 * document + 3)?)?;
    }
    Ok(stubs)
}

fn ring_of_links(alloc: Global) -> Result<LinkList, OutOfMemory> {
    let mut links = LinkList::new(alloc);
    for document in 0..1000usize {
        let next = (document + 1) % 1000;
        links.push(Items::from_vec(Vec::from_slice(alloc, &[next])?))?;
    }
    Ok(links)
}

// Two libraries over a ring of a thousand documents, each with three names.
fn large(alloc: Global) -> Result<Option<Libraries>, OutOfMemory> {
    whole(
        alloc,
        libraries_of(alloc, &[(3, 700), (5, 0)])?,
        many_documents(alloc)?,
        ring_of_links(alloc)?,
    )
}

// Whether the name of a number is bound as it should be; there are 3,000.
fn is_found(alloc: Global, libs: &Libraries, number: u32) -> Result<bool, OutOfMemory> {
    let name = name_of(alloc, number)?;
    Ok(if number < 3000 {
        is_bound(libs, name.as_slice(), (1, number % 2 == 1, false))
    } else {
        provider_of(libs, name.as_slice()).is_none()
    })
}

fn all_are_found(alloc: Global, libs: &Libraries) -> Result<bool, OutOfMemory> {
    for number in 0..3001u32 {
        if !is_found(alloc, libs, number)? {
            return Ok(false);
        }
    }
    Ok(true)
}

fn all_are_reached(libs: &Libraries) -> bool {
    libs.graph()
        .reach
        .as_slice()
        .iter()
        .all(|reached| reached.len() == 1000)
}

fn many_names_are_found(alloc: Global) -> Result<bool, OutOfMemory> {
    let libs = large(alloc)?;
    match &libs {
        Some(libs) => Ok(all_are_reached(libs) && all_are_found(alloc, libs)?),
        None => Ok(false),
    }
}

#[test]
fn libraries_provide_names(rt: HostRuntime) -> Result<(), Fail> {
    let alloc = rt.alloc();
    assert!(rt; ring_provides_names(alloc)?);
    for (at, (links, libraries, is_whole)) in FORMS.iter().enumerate() {
        assert!(rt;
            is_made(alloc, links, libraries)? == *is_whole,
            "in row {at}"
        );
    }
    assert!(rt; many_names_are_found(alloc)?);
    Ok(())
}
