//! A binary dynamic library (`loader.h`): what it is named, and what it exports.

ghost use Rattle.std.specs.Prelude.{◌≡◌};
ghost use Rattle.std.specs.Option.{option_map};
ghost use Rattle.dylib_read.specs.Dylib as dylib;

use crate::fault::{DylibFault, DylibRule};
use crate::head::{DylibHead, TrieRange, read_head};
use crate::trie::{DylibExports, read_trie};
use crate::trie_fault::TrieFault;
use mo_types::{Bytes, NameList, Which};
use std::alloc::Global;

/// A dynamic library, as far as what links against it has to know.
#[derive(Debug, Drop)]
pub struct Dylib {
    /// The install name, by which others name the library.
    pub install: Bytes,
    /// The version: X.Y.Z as the hexadecimal digits `xxxxyyzz`.
    pub current: u32,
    /// The least version that users of the library may ask for, in that form.
    pub compatible: u32,
    /// The install names of the libraries whose exports are this one's, too, in the order of their commands.
    pub reexports: NameList,
    /// What it exports itself, in the byte order of the names.
    pub exports: DylibExports,
}

#[tactic(auto, using(crate::proofs::DylibLemmas::tries), unfolding(crate::specs::Dylib::trie_of))]
fn trie_of(bytes: &[u8], range: Option<TrieRange>) -> Option<&[u8]>
    ensures { option_map (λ trie. trie.now) result ≡ dylib.trie_of bytes.now range }
{
    let Some(range) = range else {
        return Some(&[]);
    };
    let at = range.offset as usize;
    let size = range.size as usize;
    if at + size > bytes.len() {
        return None;
    }
    Some(&bytes[at..at + size])
}

#[tactic(auto, unfolding(crate::specs::Dylib::place_of))]
fn place_of(range: Option<TrieRange>) -> u64
    ensures { result ≡ dylib.place_of range }
{
    match range {
        Some(range) => u64::from(range.offset),
        None => 0,
    }
}

// The fault of a file at whose trie there is one.
fn fault_of(fault: TrieFault, place: u64) -> DylibFault
    ensures { result ≡ dylib.fault_of fault place }
{
    match fault {
        TrieFault::Broken => DylibFault::Malformed {
            place,
            rule: DylibRule::Trie,
        },
        TrieFault::OutOfMemory => DylibFault::OutOfMemory,
    }
}

fn exports_of(
    alloc: Global,
    bytes: &[u8],
    range: Option<TrieRange>,
) -> Result<DylibExports, DylibFault>
    ensures { dylib.Answers (dylib.IsExporting bytes.now range) result }
{
    let place = place_of(range);
    let Some(trie) = trie_of(bytes, range) else {
        return Err(fault_of(TrieFault::Broken, place));
    };
    match read_trie(alloc, trie) {
        Ok(exports) => {
            if exports.len() >= 1 << 24 {
                return Err(DylibFault::Limit(Which::Symbols));
            }
            Ok(exports)
        }
        Err(fault) => Err(fault_of(fault, place)),
    }
}

fn with_exports(head: DylibHead, exports: DylibExports) -> Dylib
    ensures { result ≡ dylib.dylib_of head exports }
{
    Dylib {
        install: head.install,
        current: head.current,
        compatible: head.compatible,
        reexports: head.reexports,
        exports,
    }
}

/// The library that a file is; or its first fault: one of its load commands, as `read_head` has it, or that the trie of
/// its exports lies outside the file, isn't a trie, or has 2^24 exports (`loader.h`). A file without a trie exports
/// nothing. Names of libraries are parts of the file.
pub fn read_dylib(alloc: Global, file: &Bytes) -> Result<Dylib, DylibFault>
    ensures { dylib.Answers (dylib.IsDylib file.now) result }
{
    let head = read_head(alloc, file)?;
    let exports = exports_of(alloc, file.as_slice(), head.trie)?;
    Ok(with_exports(head, exports))
}
