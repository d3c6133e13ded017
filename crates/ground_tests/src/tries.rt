//! Tries of exports, against one that was counted by hand and one of another linker.

ghost use Rattle.std.specs.Prelude.{◌≡◌, ◌≢◌, ◌↔◌, IsTrue, All, AllPairs, Contains};

use export_trie::{ExportAddress, Found, find, write_trie};
use mo_types::{Bytes, Items};
use std::alloc::Global;
use std::test::Fail;

type Row = (&'static [u8], u64, u64);

fn has_nul(name: &[u8]) -> bool
    ensures { IsTrue result ↔ Contains name.now 0 }
{
    name.contains(&0)
}

fn is_new(exports: &[ExportAddress], name: &Bytes) -> bool
    ensures { IsTrue result → All (λ export. export.name ≢ name.now) exports.now }
{
    exports.iter().all(|export| export.name != *name)
}

// Whether the exports may be written: their names are distinct and hold no NUL.
fn can_be_written(exports: &[ExportAddress]) -> bool
    ensures distinct { IsTrue result → AllPairs (λ a b. a.name ≢ b.name) exports.now }
    ensures no_nul { IsTrue result → All (λ export. ¬ Contains export.name 0) exports.now }
{
    for (i, export) in exports.iter().enumerate() {
        if has_nul(export.name.as_slice()) || !is_new(&exports[..i], &export.name) {
            return false;
        }
    }
    true
}

fn written(alloc: Global, rows: &[Row]) -> Result<Vec<u8>, Fail> {
    let mut exports = Vec::new(alloc);
    for (name, flags, address) in rows {
        let name = Bytes::from_static(*name);
        exports.push(ExportAddress {
            name,
            flags: *flags,
            address: *address,
        })?;
    }
    spelled(alloc, exports)
}

const MANY: u64 = 10_000;

fn many_exports(alloc: Global) -> Result<Vec<ExportAddress>, Fail> {
    let mut exports = Vec::new(alloc);
    for number in 0..MANY {
        let name = format!(in alloc; "_name{number}")?;
        exports.push(ExportAddress {
            name: Bytes::from_slice(alloc, name.as_bytes())?,
            flags: 0,
            address: number,
        })?;
    }
    Ok(exports)
}

fn spelled(alloc: Global, exports: Vec<ExportAddress>) -> Result<Vec<u8>, Fail> {
    if !can_be_written(exports.as_slice()) {
        return Err(Fail::from("two names are one, or a name holds a NUL"));
    }
    Ok(write_trie(alloc, &Items::from_vec(exports))?)
}

fn has_all(trie: &[u8], rows: &[Row]) -> bool {
    for (name, flags, address) in rows {
        let (flags, address) = (*flags, *address);
        if find(trie, name) != (Found::At { flags, address }) {
            return false;
        }
    }
    true
}

fn has_none(trie: &[u8], names: &[&[u8]]) -> bool {
    names.iter().all(|name| find(trie, name) == Found::Absent)
}

// Its nodes, a line each.
#[rattlefmt::skip]
const THREE: [u8; 32] = [
    0x00, 0x01, 0x5f, 0x00, 0x05,
    0x00, 0x02, 0x61, 0x00, 0x0d, 0x62, 0x00, 0x1a,
    0x03, 0x00, 0x80, 0x20, 0x01, 0x62, 0x00, 0x15,
    0x03, 0x00, 0x84, 0x20, 0x00,
    0x03, 0x00, 0x88, 0x20, 0x00,
    0x00,
];

static THREE_ROWS: [Row; 3] = [(b"_b", 0, 0x1008), (b"_a", 0, 0x1000), (b"_ab", 0, 0x1004)];

fn three_are_written(alloc: Global) -> Result<bool, Fail> {
    let trie = written(alloc, &THREE_ROWS)?;
    Ok(
        trie.as_slice() == THREE.as_slice()
            && has_all(&trie, &THREE_ROWS)
            && has_none(&trie, &[b"_", b"_abc", b""]),
    )
}

fn none_are_written(alloc: Global) -> Result<bool, Fail> {
    let trie = written(alloc, &[])?;
    Ok(trie.as_slice() == [0; 8].as_slice() && has_none(&trie, &[b""]))
}

fn finds_number(alloc: Global, trie: &[u8], number: u64) -> Result<bool, Fail> {
    let name = format!(in alloc; "_name{number}")?;
    let found = find(trie, name.as_bytes());
    if number < MANY {
        Ok(
            found
                == Found::At {
                    flags: 0,
                    address: number,
                },
        )
    } else {
        Ok(found == Found::Absent)
    }
}

fn finds_numbers(alloc: Global, trie: &[u8]) -> Result<bool, Fail> {
    for number in [0, 1, 10, 4711, MANY - 1, MANY] {
        if !finds_number(alloc, trie, number)? {
            return Ok(false);
        }
    }
    Ok(true)
}

fn many_are_written(alloc: Global) -> Result<bool, Fail> {
    let trie = spelled(alloc, many_exports(alloc)?)?;
    finds_numbers(alloc, trie.as_slice())
}

// The trie that LLVM's linker (ld64.lld 14) writes for a library of seven functions, `_ab` of them weak. Its
// children don't stand in byte order.
const LINKED: [u8; 77] = [
    0x00, 0x01, 0x5f, 0x00, 0x05, 0x00, 0x03, 0x7a, 0x65, 0x74, 0x61, 0x00, 0x13, 0x62, 0x00, 0x18,
    0x61, 0x00, 0x1d, 0x03, 0x00, 0xe0, 0x04, 0x00, 0x03, 0x00, 0xd0, 0x04, 0x00, 0x03, 0x00, 0xc8,
    0x04, 0x02, 0x62, 0x00, 0x29, 0x6c, 0x70, 0x00, 0x2e, 0x03, 0x04, 0xcc, 0x04, 0x00, 0x00, 0x02,
    0x69, 0x6e, 0x65, 0x00, 0x39, 0x68, 0x61, 0x00, 0x3e, 0x03, 0x00, 0xdc, 0x04, 0x00, 0x03, 0x00,
    0xd4, 0x04, 0x01, 0x62, 0x65, 0x74, 0x00, 0x48, 0x03, 0x00, 0xd8, 0x04, 0x00,
];

// As llvm-objdump --exports-trie lists them.
static LINKED_ROWS: [Row; 7] = [
    (b"_zeta", 0, 0x260),
    (b"_b", 0, 0x250),
    (b"_ab", 4, 0x24c),
    (b"_alpine", 0, 0x25c),
    (b"_alphabet", 0, 0x258),
    (b"_alpha", 0, 0x254),
    (b"_a", 0, 0x248),
];

static OTHERS: [&'static [u8]; 8] = [
    b"", b"_", b"_al", b"_alph", b"_alphab", b"_c", b"_zetas", b"_a\0",
];

// Tries, of which all but the last one are broken, and what they say of `a`.
static BROKEN: [(&'static [u8], Found); 11] = [
    // No node; a size, an edge's place, and an address with no end.
    (&[], Found::Broken),
    (&[0x80], Found::Broken),
    (&[0x00, 0x01, b'a', 0x00, 0x85], Found::Broken),
    (
        &[0x00, 0x01, b'a', 0x00, 0x05, 0x02, 0x00, 0x80],
        Found::Broken,
    ),
    // An edge without its NUL; data that goes past the end; a count that does.
    (&[0x00, 0x01, b'a'], Found::Broken),
    (&[0x05, 0x00, 0x00, 0x00], Found::Broken),
    (&[0x00], Found::Broken),
    // A walk that stays, one that goes back, and one that leaves the bytes.
    (&[0x00, 0x01, 0x00, 0x00], Found::Broken),
    (
        &[0x00, 0x01, 0x00, 0x04, 0x00, 0x01, 0x00, 0x00],
        Found::Broken,
    ),
    (&[0x00, 0x01, b'a', 0x00, 0x40], Found::Broken),
    // A child behind the one that is taken isn't read.
    (
        &[0x00, 0x02, b'a', 0x00, 0x06, b'b', 0x02, 0x04, 0x07, 0x00],
        Found::At {
            flags: 4,
            address: 7,
        },
    ),
];

#[test]
fn trie_of_three(rt: HostRuntime) -> Result<(), Fail> {
    let alloc = rt.alloc();
    assert!(rt; three_are_written(alloc)?);
    assert!(rt; none_are_written(alloc)?);
    assert!(rt; many_are_written(alloc)?);
    assert!(rt; has_all(&LINKED, &LINKED_ROWS));
    assert!(rt; has_none(&LINKED, &OTHERS));
    for (at, (trie, want)) in BROKEN.iter().enumerate() {
        assert!(rt; find(trie, b"a") == *want, "in row {at}");
    }
    Ok(())
}
