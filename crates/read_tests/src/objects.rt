//! Objects of clang and of an assembler, and objects with one byte or two changed. What is expected comes
//! from the formats (`loader.h`, `nlist.h`, `reloc.h`) and from what LLVM's tools print.
mod clang;
mod cut_short;
mod described;
mod faults;
mod limits;
mod sample;
mod symbols;

use clang::objects_of_tools;
use cut_short::files_cut_short;
use faults::{first_of_two_faults, no_fault, symbol_tables_have_one_size};
use limits::relocations_and_sections_within_limits;
use mo_obj::read_object;
use mo_types::{Bytes, Kind, ObjFault, Object, Rule, kind_of};
use std::alloc::Global;
use std::test::Fail;
use symbols::sample_is_read;

// The object of some bytes, where their kind is that of a Mach-O file.
fn read(alloc: Global, bytes: &[u8]) -> Result<Object, ObjFault> {
    let file = Bytes::from_slice(alloc, bytes)?;
    match kind_of(file.as_slice()) {
        Kind::MachO => read_object(alloc, &file),
        _ => Err(ObjFault::Malformed {
            place: 0,
            rule: Rule::NotAnInput,
        }),
    }
}

#[test]
fn objects_are_read_or_their_faults_are_told(rt: HostRuntime) -> Result<(), Fail> {
    let alloc = rt.alloc();
    assert!(rt; sample_is_read(alloc)?);
    assert!(rt; objects_of_tools(alloc));
    assert!(rt; relocations_and_sections_within_limits(alloc)?);
    assert!(rt; files_cut_short(alloc)?);
    assert!(rt; symbol_tables_have_one_size(alloc)?);
    for wrong in [first_of_two_faults(alloc)?, no_fault(alloc)?] {
        let row = wrong.unwrap_or("");
        assert!(rt; wrong.is_none(), "in {row}");
    }
    Ok(())
}
