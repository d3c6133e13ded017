//! Whether libraries that were put together by hand are whole.
ghost use Rattle.std.specs.Prelude.{◌↔◌, ◌<◌, ℕ, Contains, IsTrue, length};
ghost use Rattle.lib_bind.specs.Graph.{AreLibraries, AreLinks};
ghost use Rattle.lib_bind.specs.inner.Checked.{IsNext};

use crate::library::{Library, NumberList};

/// The most libraries whose ordinals aren't special ones (`loader.h`: BIND_SPECIAL_DYLIB).
pub(crate) const MOST: usize = 240;

// Whether all numbers are below one.
fn are_below(numbers: &[usize], end: usize) -> bool
    ensures { IsTrue result ↔ ((number : ℕ) → Contains numbers.now number → number < end) }
{
    for number in numbers {
        if *number >= end {
            return false;
        }
    }
    true
}

/// Whether each of so many documents has its links, and all links lead to documents. Takes no memory.
pub fn are_links(documents: usize, links: &[NumberList]) -> bool
    ensures { IsTrue result ↔ AreLinks documents links.now }
{
    if links.len() != documents {
        return false;
    }
    for targets in links {
        if !are_below(targets.as_slice(), documents) {
            return false;
        }
    }
    true
}

// Whether a library has a document, the ordinal of its place, and a greater position than the one before.
fn is_next(documents: usize, libraries: &[Library], at: usize) -> bool
    requires { at < length libraries.now }
    ensures { IsTrue result ↔ IsNext documents libraries.now at }
{
    let library = libraries[at];
    library.document < documents
        && usize::from(library.ordinal) == at + 1
        && (at == 0 || libraries[at - 1].position < library.position)
}

/// Whether the libraries have documents among so many, ordinals that count from 1, and rising positions, and are at most
/// 240. Takes no memory.
pub fn are_libraries(documents: usize, libraries: &[Library]) -> bool
    ensures { IsTrue result ↔ AreLibraries documents libraries.now }
{
    if libraries.len() > MOST {
        return false;
    }
    for at in 0..libraries.len() {
        if !is_next(documents, libraries, at) {
            return false;
        }
    }
    true
}
