//! Strings of tables, against strings that were counted by hand.
use mo_strings::{Strings, first_nul, string_at};
use mo_types::{Bytes, OutOfMemory};
use std::alloc::Global;
use std::test::Fail;

// Each place of the table, and the string that begins there.
const PLACES: [(usize, Option<&[u8]>); 8] = [
    (0, Some(b"")),
    (1, Some(b"_main")),
    (3, Some(b"ain")),
    (6, Some(b"")),
    (7, Some(b"\xff")),
    (9, None),
    (11, None),
    (usize::MAX, None),
];

// What stands at a place, by both searches.
fn stands(strings: &Strings, at: usize, want: Option<&[u8]>) -> bool {
    strings.size_at(at) == want.map(|name| name.len()) && string_at(strings.as_slice(), at) == want
}

fn all_stand(strings: &Strings) -> bool {
    for (at, want) in &PLACES {
        if !stands(strings, *at, *want) {
            return false;
        }
    }
    true
}

// Whether a string of its own is what stands at a place.
fn gives(strings: &Strings, at: usize, want: Option<&[u8]>) -> Result<bool, OutOfMemory> {
    let name = strings.get(at)?;
    Ok(name.as_ref().map(|name| name.as_slice()) == want)
}

fn short_strings(alloc: Global) -> Result<bool, OutOfMemory> {
    let strings = Strings::new(alloc, Bytes::from_static(b"\0_main\0\xff\0ab"))?;
    Ok(all_stand(&strings) && gives(&strings, 3, Some(b"ain"))? && gives(&strings, 9, None)?)
}

// A string of 100,000 bytes, and one of one.
fn long_bytes(alloc: Global) -> Result<Vec<u8>, OutOfMemory> {
    let mut long = vec![in alloc; b'a'; 100_000]?;
    long.push(0)?;
    long.extend_from_slice(b"b\0")?;
    Ok(long)
}

fn ends_have_their_sizes(strings: &Strings) -> bool {
    for at in 0..100_000usize {
        if strings.size_at(at) != Some(100_000 - at) {
            return false;
        }
    }
    strings.size_at(100_001) == Some(1)
}

fn long_strings(alloc: Global) -> Result<bool, OutOfMemory> {
    let strings = Strings::new(alloc, Bytes::from_vec(long_bytes(alloc)?)?)?;
    Ok(ends_have_their_sizes(&strings))
}

// Each place of a short table; no NUL and the first of two; and each end of a string of 100,000 bytes.
#[test]
fn strings_end_before_nuls(rt: HostRuntime) -> Result<(), Fail> {
    assert!(rt; short_strings(rt.alloc())?);
    assert!(rt; first_nul(b"ab").is_none() && first_nul(b"ab\0\0") == Some(2));
    assert!(rt; long_strings(rt.alloc())?);
    Ok(())
}
