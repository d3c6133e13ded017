//! What tries say of exports, against what `llvm-objdump --exports-trie` prints, and by hand after `loader.h`.
use crate::files::{BARE, INFO, LLD, TRIE};
use dylib_read::{DylibExport, DylibFault, DylibRule, TrieFault, read_dylib, read_trie};
use mo_types::{Bytes, OutOfMemory};
use std::alloc::Global;
use std::test::Fail;

type Names = &'static [(&'static [u8], bool)];

/// The trie that `ld64.lld` 14 made of clang's object of six functions and variables, one of them weak.
const LINKED: &[u8] =
    b"\x00\x01_\x00\x05\x00\x05Z\x00\x16f\x00\x1ct\x001g\x007w\x00<\x04\x00\x80\x80\x01\x00\x03\x00\xd0\x07\x01a\
    \x00$\x03\x00\xd8\x07\x01b\x00,\x03\x00\xe0\x07\x00\x04\x01\x84\x80\x01\x00\x03\x00\xf0\x07\x00\x03\x04\xe8\
    \x07\x00\x00\x00\x00\x00\x00\x00\x00";

// The row of the first trie that isn't read as it should be.
fn misread(alloc: Global) -> Result<Option<usize>, OutOfMemory> {
    let rows: [(&[u8], Result<Names, TrieFault>); 23] = [
        (
            LINKED,
            Ok(&[
                (b"_Z", false),
                (b"_f", false),
                (b"_fa", false),
                (b"_fab", false),
                (b"_g", false),
                (b"_t", false),
                (b"_w", true),
            ]),
        ),
        // No bytes, a root alone, and a root whose name is the empty one.
        (b"", Ok(&[])),
        (b"\0\0\0\0\0\0\0\0", Ok(&[])),
        (b"\x02\x04\x10\0", Ok(&[(b"", true)])),
        // Edges out of order, and a place in more bytes than it needs.
        (
            b"\0\x02b\0\x08a\0\x0c\x02\0\0\0\x02\x04\0\0",
            Ok(&[(b"a", true), (b"b", false)]),
        ),
        (b"\0\x01a\0\x86\0\x02\0\0\0", Ok(&[(b"a", false)])),
        // Re-exports: with an ordinal and a name, and passed over by their size alone.
        (b"\0\x01a\0\x05\x04\x0c\x01x\0\0", Ok(&[(b"a", true)])),
        (b"\0\x01a\0\x05\x02\x08\x80\0", Ok(&[(b"a", false)])),
        // What isn't a re-export has an address.
        (b"\0\x01a\0\x05\x02\x00\x80", Err(TrieFault::Broken)),
        // A directive to a linker.
        (b"\0\x01$ld$x\0\x09\x02\0\0\0", Ok(&[])),
        // Two edges to one node; an edge to its own node; one to the end.
        (b"\0\x02a\0\x08b\0\x08\x02\0\x10\0", Err(TrieFault::Broken)),
        (b"\0\x01a\0\0", Err(TrieFault::Broken)),
        (b"\0\x01a\0\x05", Err(TrieFault::Broken)),
        // A label without an end, data past the end, and a place that is no number.
        (b"\0\x01a", Err(TrieFault::Broken)),
        (b"\x09\0\0\0", Err(TrieFault::Broken)),
        (b"\0\x01a\0\x80", Err(TrieFault::Broken)),
        // The first edge that begins a name takes it: what an edge behind it leads to isn't walked.
        (
            b"\0\x02a\0\x09ab\0\x0d\x02\0\0\0\x02\0\0\0",
            Ok(&[(b"a", false)]),
        ),
        (
            b"\0\x02ab\0\x09a\0\x0d\x02\0\0\0\x02\x04\0\0",
            Ok(&[(b"a", true), (b"ab", false)]),
        ),
        // Below a later edge, too.
        (
            b"\0\x02ab\0\x09a\0\x0d\x02\0\0\0\0\x02b\0\x15c\0\x19\x02\x04\0\0\x02\x04\0\0",
            Ok(&[(b"ab", false), (b"ac", true)]),
        ),
        // An edge that is never taken may lead back or out of the trie, but not where another edge does.
        (b"\0\x02a\0\x08a\0\0\x02\0\0\0", Ok(&[(b"a", false)])),
        (b"\0\x02a\0\x08a\0\x7f\x02\0\0\0", Ok(&[(b"a", false)])),
        (b"\0\x02a\0\x08a\0\x08\x02\0\0\0", Err(TrieFault::Broken)),
        // No name ends behind a label of no bytes, but one may go on there.
        (
            b"\0\x01\0\x04\x02\x04\0\x01b\0\x0b\x02\0\0\0",
            Ok(&[(b"b", false)]),
        ),
    ];
    for (row, (trie, want)) in rows.iter().enumerate() {
        if !is_wanted(alloc, trie, *want)? {
            return Ok(Some(row));
        }
    }
    Ok(None)
}

fn are_named(exports: &[DylibExport], want: Names) -> bool {
    exports.len() == want.len()
        && exports.iter().zip(want).all(|(export, want)| export.name.as_slice() == want.0
            && export.weak == want.1)
}

fn is_wanted(
    alloc: Global,
    trie: &[u8],
    want: Result<Names, TrieFault>,
) -> Result<bool, OutOfMemory> {
    match read_trie(alloc, trie) {
        Ok(exports) => match want {
            Ok(names) => Ok(are_named(exports.as_slice(), names)),
            Err(_) => Ok(false),
        },
        Err(TrieFault::OutOfMemory) => Err(OutOfMemory),
        Err(fault) => Ok(want.err() == Some(fault)),
    }
}

// Appends a node without data, with edges of one byte each, from 1 on, to nodes that lie behind each other.
fn put_node(trie: &mut Vec<u8>, count: u8, first: usize, size: usize) -> Result<(), OutOfMemory> {
    trie.extend_from_slice(&[0, count])?;
    for number in 0..count {
        let place = first.saturating_add(usize::from(number).saturating_mul(size));
        let low = (place & 0x7f) as u8 | 0x80;
        let middle = ((place >> 7) & 0x7f) as u8 | 0x80;
        let high = ((place >> 14) & 0x7f) as u8;
        trie.extend_from_slice(&[number.saturating_add(1), 0, low, middle, high])?;
    }
    Ok(())
}

// A trie of 5,000 names of two bytes each.
fn wide(alloc: Global) -> Result<Vec<u8>, OutOfMemory> {
    let mut trie = Vec::new(alloc);
    let node = 2 + 20 * 5;
    let leaves = 2 + 250 * 5 + 250 * node;
    put_node(&mut trie, 250, 2 + 250 * 5, node)?;
    for number in 0..250usize {
        put_node(
            &mut trie,
            20,
            leaves.saturating_add(number.saturating_mul(80)),
            4,
        )?;
    }
    for _number in 0..5_000 {
        trie.extend_from_slice(&[2, 0, 0, 0])?;
    }
    Ok(trie)
}

// What is wrong with a file: its place, if it breaks a rule.
fn fault_of(alloc: Global, file: &'static [u8]) -> Result<Option<DylibFault>, OutOfMemory> {
    match read_dylib(alloc, &Bytes::from_static(file)) {
        Ok(_) => Ok(None),
        Err(DylibFault::OutOfMemory) => Err(OutOfMemory),
        Err(fault) => Ok(Some(fault)),
    }
}

// Tries of a linker and by hand; thousands of names; and libraries with a trie, without one, and with one that lies
// outside the file.
#[test]
fn exports_are_read(rt: HostRuntime) -> Result<(), Fail> {
    let alloc = rt.alloc();
    let wrong = misread(alloc)?;
    let row = wrong.unwrap_or(0);
    assert!(rt; wrong.is_none(), "row {row}");
    let many = read_trie(alloc, wide(alloc)?.as_slice())?;
    assert!(rt; many.len() == 5_000);
    let library = read_dylib(alloc, &Bytes::from_static(TRIE))?;
    assert!(rt; are_named(library.exports.as_slice(), &[(b"_f", false)]));
    assert!(rt;
        library.reexports.len() == 2 && library.install.as_slice() == b"/x/liba.dylib".as_slice()
    );
    assert!(rt; fault_of(alloc, INFO)?.is_none() && fault_of(alloc, BARE)?.is_none());
    let outside = DylibFault::Malformed {
        place: 32_792,
        rule: DylibRule::Trie,
    };
    assert!(rt; fault_of(alloc, LLD)? == Some(outside));
    Ok(())
}
