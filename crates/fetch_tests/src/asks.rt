//! Paths that are asked for more than once. What is expected was worked out by hand.
use crate::fetches::one_file;
use file_cache::{AskFault, FileCache, ask};
use mo_outside::MemFiles;
use mo_types::{Bytes, Items, OutOfMemory};
use std::alloc::Global;
use std::test::Fail;

// The paths that are asked for, the path of the one file that is there, the number of the fetch that fails, or 0; and what
// is answered for each.
const ROWS: &str = "\
    a.o\ta.o\t0\tthere \n\
    a.o\ta.o\t1\tunread \n\
    a.o a.o\ta.o\t2\tthere there \n\
    b.o b.o\ta.o\t2\tabsent absent \n\
    a.o b.o\ta.o\t2\tthere unread \n\
    a.o b.o a.o\ta.o\t3\tthere absent there \n\
    a.o b.o a.o b.o a b\ta.o\t4\tthere absent there absent absent unread \n\
    b.o a.o b.o b.o a.o\ta.o\t3\tabsent there absent absent there \n\
";

// What an answer for a path says, where each file has its path as its bytes.
fn word_of(answer: &Result<Option<Bytes>, AskFault>, path: &Bytes) -> &'static [u8] {
    match answer {
        Ok(Some(bytes)) => { if bytes == path { b"there " } else { b"other " } }
        Ok(None) => b"absent ",
        Err(AskFault::Unread) => b"unread ",
        Err(AskFault::OutOfMemory) => b"memory ",
    }
}

// What is answered for each path, one after the other.
fn answers(alloc: Global, paths: &str, there: &str, failing: u64) -> Result<Vec<u8>, OutOfMemory> {
    let mut calls = Items::new(alloc);
    calls.push(failing)?;
    let mut files = MemFiles::new(one_file(alloc, there)?, calls);
    let mut cache = FileCache::new(alloc);
    let mut said = Vec::new(alloc);
    for path in paths.split(' ') {
        let path = Bytes::from_slice(alloc, path.as_bytes())?;
        let answer = ask(alloc, &mut files, &mut cache, &path);
        said.extend_from_slice(word_of(&answer, &path))?;
    }
    Ok(said)
}

// The first row that doesn't hold.
fn wrong_row(alloc: Global) -> Result<Option<&'static str>, OutOfMemory> {
    for row in ROWS.lines() {
        let mut parts = row.split('\t');
        let paths = parts.next().unwrap_or("");
        let there = parts.next().unwrap_or("");
        let failing = parts.next().unwrap_or("").parse::<u64>().unwrap_or(0);
        let said = answers(alloc, paths, there, failing)?;
        if said.as_slice() != parts.next().unwrap_or("").as_bytes() {
            return Ok(Some(row));
        }
    }
    Ok(None)
}

#[test]
fn a_path_is_asked_for_once(rt: HostRuntime) -> Result<(), Fail> {
    let alloc = rt.alloc();
    let wrong = wrong_row(alloc)?;
    let row = wrong.unwrap_or("");
    assert!(rt; wrong.is_none(), "{row}");
    Ok(())
}
