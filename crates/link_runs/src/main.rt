//! Runs of the linker on stored inputs, for which another program gave the answers.
//!
//! `cases.tsv` has a row for each case after its heading: the case's name, the words of its command line
//! with one space between any two, and what is expected, which this program doesn't read. The name is the
//! path of the folder with the case's files. For each case the words and the files are given to the
//! linker, and one row tells what it did: the name, the exit status, the line on the messages if there is
//! one, and `PATH=SHA256` for each file that was written, in the order of writing.
//!
//! What this program has to print stands in the file `stdout` beside `data/`. The script
//! `bench/link_runs_expected.py` makes it from what `data/` says is expected: the status and the line are
//! columns of `cases.tsv`, and the digest of the file at PATH is in `PATH.sha256` in the case's folder.
//! To add cases, put them into a folder as that script's heading says, and run
//! `bench/link_runs_expected.py --add GROUP FOLDER`.
#![tactic(auto)]

mod case;
mod case_files;
mod row;

use crate::case::Case;
use crate::case_files::CaseFiles;
use crate::row::print_row;
use anyhow::{Context, Result};
use link_engine::link;
use mo_outside::{FreeGate, SureDiag, SureOut};
use std::fs;
use std::rt::Files;
use std::thread::Threads;

const LIST: &str = "cases.tsv";

// The bytes of paths and contents of files that one case may write, and of messages.
const OUTPUT_ROOM: u64 = 1 << 26;

const MESSAGE_ROOM: u64 = 1 << 16;

fn run_case<R: Files + Print + AllocGlobal + Threads + Sync>(rt: &R, case: &Case) -> Result<()> {
    let alloc = rt.alloc();
    let words = case.words(alloc)?;
    let mut files = CaseFiles::new(rt, case.name());
    let mut out = SureOut::new(alloc, OUTPUT_ROOM)?;
    let mut diag = SureDiag::new(alloc, MESSAGE_ROOM)?;
    let status = link(
        rt, alloc, &words, &mut files, &mut out, &mut diag, &FreeGate,
    );
    print_row(rt, case.name(), &status, &out, &diag)
}

fn run_cases<R: Files + Print + AllocGlobal + Threads + Sync>(rt: &R) -> Result<()> {
    let list = fs::read_to_string(rt, LIST).context(LIST)?;
    for row in list.as_str().lines().skip(1) {
        let case = Case::parse(row).context("a row of the list has too few columns")?;
        run_case(rt, &case)?;
    }
    Ok(())
}

fn main(rt: HostRuntime) -> Result<()> {
    run_cases(&rt)
}
