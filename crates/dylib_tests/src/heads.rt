//! What the commands of libraries say, against what `llvm-objdump` prints, and against an independent program that
//! reads them by the rules of `loader.h`.
use crate::files::{BARE, INFO, LLD, TRIE};
use dylib_read::{DylibFault, DylibHead, DylibRule, TrieRange, read_head};
use mo_types::{Bytes, Feature, OutOfMemory};
use std::alloc::Global;
use std::test::Fail;

struct Want {
    file: &'static [u8],
    install: &'static [u8],
    current: u32,
    compatible: u32,
    reexports: &'static [&'static [u8]],
    trie: Option<TrieRange>,
}

const HEADS: [Want; 4] = [
    Want {
        file: LLD,
        install: b"/x/liba.dylib",
        current: 0x1_0203,
        compatible: 0x1_0000,
        reexports: &[],
        trie: Some(TrieRange {
            offset: 32_792,
            size: 56,
        }),
    },
    Want {
        file: TRIE,
        install: b"/x/liba.dylib",
        current: 0x1_0203,
        compatible: 0x1_0000,
        reexports: &[b"/x/libb.dylib", b"/x/c"],
        trie: Some(TrieRange {
            offset: 160,
            size: 23,
        }),
    },
    Want {
        file: INFO,
        install: b"/x/liba.dylib",
        current: 0x1_0203,
        compatible: 0x1_0000,
        reexports: &[],
        trie: Some(TrieRange {
            offset: 120,
            size: 0,
        }),
    },
    Want {
        file: BARE,
        install: b"a",
        current: 0x1_0000,
        compatible: 0x1_0000,
        reexports: &[],
        trie: None,
    },
];

fn malformed(place: u64, rule: DylibRule) -> DylibFault {
    DylibFault::Malformed { place, rule }
}

fn are_named(names: &[Bytes], want: &[&[u8]]) -> bool {
    names.len() == want.len()
        && names
            .iter()
            .zip(want)
            .all(|(name, want)| name.as_slice() == *want)
}

fn is_wanted(head: &DylibHead, want: &Want) -> bool {
    head.install.as_slice() == want.install
        && head.current == want.current
        && head.compatible == want.compatible
        && are_named(head.reexports.as_slice(), want.reexports)
        && head.trie == want.trie
}

// The install name of the first library that isn't read as it should be.
fn misread(alloc: Global) -> Result<Option<&'static [u8]>, DylibFault> {
    for want in &HEADS {
        let head = read_head(alloc, &Bytes::from_static(want.file))?;
        if !is_wanted(&head, want) {
            return Ok(Some(want.install));
        }
    }
    Ok(None)
}

// The library with re-exports, with other bytes at a place.
fn changed(alloc: Global, place: usize, bytes: &[u8]) -> Result<Bytes, OutOfMemory> {
    let mut file = Vec::new(alloc);
    file.extend_from_slice(TRIE)?;
    for (i, byte) in bytes.iter().enumerate() {
        if let Some(there) = file.get_mut(place.saturating_add(i)) {
            *there = *byte;
        }
    }
    Bytes::from_vec(file)
}

fn fault_of(alloc: Global, place: usize, bytes: &[u8]) -> Result<Option<DylibFault>, OutOfMemory> {
    let file = changed(alloc, place, bytes)?;
    match read_head(alloc, &file) {
        Ok(_) => Ok(None),
        Err(DylibFault::OutOfMemory) => Err(OutOfMemory),
        Err(fault) => Ok(Some(fault)),
    }
}

// The place of the first change that isn't answered as it should be.
fn missed(alloc: Global) -> Result<Option<usize>, OutOfMemory> {
    let rows: [(usize, &[u8], Option<DylibFault>); 15] = [
        (
            4,
            b"\x07\0\0\x01",
            Some(DylibFault::Unsupported(Feature::Machine)),
        ),
        (8, b"\x02", Some(DylibFault::Unsupported(Feature::Machine))),
        (
            12,
            b"\x01",
            Some(DylibFault::Unsupported(Feature::FileType)),
        ),
        (16, b"\x05", Some(malformed(160, DylibRule::Commands))),
        (36, b"\x04", Some(malformed(32, DylibRule::Commands))),
        (36, b",", Some(malformed(32, DylibRule::Commands))),
        // No command names the library.
        (32, b"\x0c", Some(malformed(0, DylibRule::Dylib))),
        // Names that begin at the end of their command, behind it, and at its last byte but two.
        (40, b"(", Some(malformed(32, DylibRule::Dylib))),
        (40, b"@", Some(malformed(32, DylibRule::Dylib))),
        (40, b"%", None),
        // Names without NUL, and without UTF-8.
        (69, b"abc", Some(malformed(32, DylibRule::Dylib))),
        (58, b"\xff", Some(malformed(32, DylibRule::Dylib))),
        (98, b"\xff", Some(malformed(72, DylibRule::Dylib))),
        // A re-export alone is asked for its name, another library isn't.
        (112, b"\x18", None),
        (136, b"\xff", Some(malformed(112, DylibRule::Dylib))),
    ];
    for (place, bytes, want) in &rows {
        if fault_of(alloc, *place, bytes)? != *want {
            return Ok(Some(*place));
        }
    }
    Ok(None)
}

// Libraries of a linker and by hand; one byte or more changed; and one that is cut short.
#[test]
fn heads_are_read(rt: HostRuntime) -> Result<(), Fail> {
    let alloc = rt.alloc();
    let wrong = misread(alloc)?;
    assert!(rt; wrong.is_none());
    let place = missed(alloc)?;
    let at = place.unwrap_or(0);
    assert!(rt; place.is_none(), "at {at}");
    let short = Bytes::from_slice(alloc, &BARE[..31])?;
    let fault = read_head(alloc, &short).err();
    assert!(rt; fault == Some(malformed(0, DylibRule::Header)));
    Ok(())
}
