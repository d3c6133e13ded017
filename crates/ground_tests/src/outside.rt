//! What stands for files, output, messages and the gate: what was put in is what is found.
ghost use Rattle.std.specs.Prelude.{◌≢◌, AllPairs, IfOk};

use crate::first_wrong;
use mo_outside::{
    CallList, Diag, Failed, FetchFault, FileList, Files, FreeGate, Gate, MeetGate, MemDiag,
    MemFiles, MemOut, Out, SureDiag, SureFiles, SureOut,
};
use mo_types::{Bytes, Items, OutOfMemory};
use std::alloc::Global;
use std::test::Fail;
use std::thread::{Threads, join};

const FILE_SIZE: usize = 5000;

fn one_call(alloc: Global, number: u64) -> Result<CallList, OutOfMemory> {
    let mut calls = Items::new(alloc);
    calls.push(number)?;
    Ok(calls)
}

fn one_file(alloc: Global) -> Result<FileList, OutOfMemory>
    ensures { IfOk result (λ pairs. AllPairs (λ one other. one.0 ≢ other.0) pairs) }
{
    let path = Bytes::from_slice(alloc, b"main.o")?;
    let bytes = Bytes::from_vec(vec![in alloc; 7u8; FILE_SIZE]?)?;
    let mut pairs = Items::new(alloc);
    pairs.push((path, bytes))?;
    Ok(pairs)
}

// How many bytes a fetch gives, all of which are 7, or none where the path isn't there.
fn size_of(
    files: &mut impl Files,
    alloc: Global,
    path: &[u8],
) -> Result<Option<usize>, FetchFault> {
    let mut into = Vec::new(alloc);
    let is_there = files.fetch(alloc, path, &mut into)?;
    let is_whole = into.iter().all(|byte| *byte == 7);
    Ok((is_there && is_whole).then_some(into.len()))
}

fn write_file(out: &mut impl Out) -> Result<(), Failed> {
    out.begin(b"out")?;
    out.write(b"ima")?;
    out.write(b"ge")?;
    out.done()
}

fn put_twice(diag: &mut impl Diag) -> Result<(), Failed> {
    diag.put(b"ato")?;
    diag.put(b"mld: x")
}

fn sure_files_are_fetched(alloc: Global) -> Result<bool, OutOfMemory> {
    let mut sure = SureFiles::new(one_file(alloc)?);
    Ok(
        size_of(&mut sure, alloc, b"main.o") == Ok(Some(FILE_SIZE))
            && size_of(&mut sure, alloc, b"main") == Ok(None),
    )
}

fn a_fetch_fails(alloc: Global) -> Result<bool, OutOfMemory> {
    let calls = one_call(alloc, 1)?;
    let mut files = MemFiles::new(one_file(alloc)?, calls);
    let first = size_of(&mut files, alloc, b"main.o");
    let second = size_of(&mut files, alloc, b"main.o");
    Ok(
        first == Err(FetchFault::Failed)
            && second == Ok(Some(FILE_SIZE))
            && files.fault_count() == 1,
    )
}

// Whether the third of three files can't be written.
fn third_fails(out: &mut impl Out) -> bool {
    for is_third in [false, false, true] {
        if write_file(out).is_err() != is_third {
            return false;
        }
    }
    true
}

fn is_read_back(out: &MemOut, file: usize) -> bool {
    out.path(file) == Some(b"out".as_slice())
        && out.bytes(file) == Some(b"image".as_slice())
        && out.is_done(file) == Some(true)
}

fn output_is_read_back(alloc: Global) -> Result<bool, OutOfMemory> {
    let calls = one_call(alloc, 11)?;
    let mut out = MemOut::new(alloc, 64, calls)?;
    Ok(
        third_fails(&mut out)
            && is_read_back(&out, 0)
            && is_read_back(&out, 1)
            && out.fault_count() == 1,
    )
}

fn third_is_lost(sure: &mut SureOut) -> bool {
    for is_third in [false, false, true] {
        if write_file(sure).is_err() || sure.path(0).is_none() != is_third {
            return false;
        }
    }
    true
}

fn sure_output_is_read_back(alloc: Global) -> Result<bool, OutOfMemory> {
    let mut sure = SureOut::new(alloc, 64)?;
    Ok(third_is_lost(&mut sure))
}

// Whether so much room is too short for a file, or the call of that number fails.
fn is_short(alloc: Global, room: u64, failing: u64, is_short: bool) -> Result<bool, OutOfMemory> {
    let calls = one_call(alloc, failing)?;
    let mut out = MemOut::new(alloc, room, calls)?;
    let image: &[u8] = if is_short { b"ima" } else { b"image" };
    Ok(
        write_file(&mut out).is_err() == is_short
            && out.is_done(0) == Some(!is_short)
            && out.bytes(0) == Some(image),
    )
}

fn sure_is_short(alloc: Global, room: u64) -> Result<bool, OutOfMemory> {
    let mut sure = SureOut::new(alloc, room)?;
    let written = if room == 8 {
        Some(b"image".as_slice())
    } else {
        None
    };
    Ok(
        write_file(&mut sure).is_ok()
            && sure.bytes(0) == written
            && sure.is_done(0) == written.map(|_| true),
    )
}

// Whether so much room is too short for a message, or the call of that number fails.
fn message_fails(alloc: Global, room: u64, number: u64, fails: bool) -> Result<bool, OutOfMemory> {
    let calls = one_call(alloc, number)?;
    let mut diag = MemDiag::new(alloc, room, calls)?;
    let lines: &[u8] = if fails { b"ato" } else { b"atomld: x" };
    Ok(
        put_twice(&mut diag).is_err() == fails
            && diag.lines() == lines
            && diag.fault_count() == u64::from(fails),
    )
}

fn sure_message_is_short(alloc: Global, room: u64) -> Result<bool, OutOfMemory> {
    let mut sure = SureDiag::new(alloc, room)?;
    Ok(put_twice(&mut sure).is_ok() && sure.lines().is_none() == (room == 8))
}

fn no_worker_meets_alone() -> bool {
    let short = MeetGate::new(10);
    for worker in [0, 1, 0] {
        short.pass(worker);
        if short.met() {
            return false;
        }
    }
    true
}

fn two_workers_meet<R: Threads + Sync>(rt: &R) -> bool {
    let gate = MeetGate::new(1_000_000_000);
    gate.pass(2);
    join(rt, || gate.pass(0), || gate.pass(1));
    gate.pass(0);
    gate.met()
}

fn rooms_are_short(alloc: Global) -> Result<bool, OutOfMemory> {
    for (room, failing, short) in &[(8, 5, false), (7, 5, true), (8, 3, true)] {
        if !is_short(alloc, *room, *failing, *short)? || !sure_is_short(alloc, *room)? {
            return Ok(false);
        }
    }
    Ok(true)
}

fn messages_fail(alloc: Global) -> Result<bool, OutOfMemory> {
    for (room, number, fails) in &[(9, 3, false), (8, 3, true), (9, 2, true)] {
        if !message_fails(alloc, *room, *number, *fails)? || !sure_message_is_short(alloc, *room)? {
            return Ok(false);
        }
    }
    Ok(true)
}

#[test]
fn what_was_put_in_is_found(rt: HostRuntime) -> Result<(), Fail> {
    let alloc = rt.alloc();
    FreeGate.pass(0);
    let wrong = first_wrong(&[
        ("sure files", sure_files_are_fetched(alloc)?),
        ("files", a_fetch_fails(alloc)?),
        ("output", output_is_read_back(alloc)?),
        ("sure output", sure_output_is_read_back(alloc)?),
        ("rooms", rooms_are_short(alloc)?),
        ("messages", messages_fail(alloc)?),
        ("one worker", no_worker_meets_alone()),
        ("two workers", two_workers_meet(&rt)),
    ]);
    assert!(rt; wrong.is_empty(), "{wrong}");
    Ok(())
}
