//! Universal files and archives. What is expected comes from the formats (`mach-o/fat.h`, ar(5),
//! `mach-o/ranlib.h`) and from what LLVM's tools print.
mod described;
mod faults;
mod large;
mod llvm;
mod llvm_files;
mod slices;

use large::{long_names_are_told_apart, many_members, members_are_limited, one_long_name};
use llvm::archives_of_llvm;
use mo_ar::{Archive, read_archive};
use mo_types::{Bytes, Kind, ObjFault, Rule, kind_of};
use std::alloc::Global;
use std::test::Fail;

// The archive of some bytes, where their kind is that of an archive.
fn read(alloc: Global, bytes: Vec<u8>) -> Result<Archive, ObjFault> {
    let bytes = Bytes::from_vec(bytes)?;
    match kind_of(bytes.as_slice()) {
        Kind::Archive => read_archive(alloc, &bytes),
        _ => Err(ObjFault::Malformed {
            place: 0,
            rule: Rule::NotAnInput,
        }),
    }
}

// Universal files: changed, cut short, and of a tool; and archives: the same, and with much in them.
#[test]
fn slice_of_another_machine(rt: HostRuntime) -> Result<(), Fail> {
    let alloc = rt.alloc();
    assert!(rt; slices::cut_short());
    assert!(rt; slices::slice_of_both());
    for wrong in [
        slices::changed(alloc)?,
        faults::changed(alloc)?,
        faults::cut_short(alloc)?,
        archives_of_llvm(alloc)?,
    ] {
        let row = wrong.unwrap_or("");
        assert!(rt; wrong.is_none(), "in {row}");
    }
    assert!(rt; many_members(alloc)?);
    assert!(rt; members_are_limited(alloc)?);
    assert!(rt; one_long_name(alloc)?);
    assert!(rt; long_names_are_told_apart(alloc)?);
    Ok(())
}
