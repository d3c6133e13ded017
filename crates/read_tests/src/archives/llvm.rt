//! Archives that LLVM's tools make.
use super::described::is_read_as;
use super::llvm_files::{LIBTOOL, PLAIN, RANLIB, libtool, plain, ranlib};
use mo_types::OutOfMemory;
use std::alloc::Global;

/// What is told of the first archive of a tool that isn't read so.
pub fn archives_of_llvm(alloc: Global) -> Result<Option<&'static str>, OutOfMemory> {
    for (bytes, text) in [(plain(), PLAIN), (ranlib(), RANLIB), (libtool(), LIBTOOL)] {
        if !is_read_as(alloc, bytes, text)? {
            return Ok(Some(text));
        }
    }
    Ok(None)
}
