//! The program: a static linker for Mach-O on arm64, over real files and standard error.
#![tactic(auto)]

mod memory;
mod run;

use crate::memory::reuse_memory;
use crate::run::run;
use disk_outside::{DiskFiles, DiskOut, WriterDiag, gather};
use std::process::ExitCode;

fn main(rt: HostRuntime) -> ExitCode {
    let alloc = rt.alloc();
    reuse_memory(alloc);
    ExitCode::from(run(
        &rt,
        alloc,
        gather(&rt, alloc),
        &mut DiskFiles::new(rt),
        &mut DiskOut::new(rt),
        &mut WriterDiag::new(rt.stderr()),
    ))
}
