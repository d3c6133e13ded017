ghost use Rattle.std.specs.Prelude.{◌≡◌};
ghost use Rattle.lib_bind.specs.Named as spec;

use mo_types::{Bytes, Items};
use tbd_doc::StubFile;

/// A stub library that the command line names.
#[derive(Debug, Drop)]
pub struct NamedStub {
    /// Its place among the inputs of the command, counted from 0.
    pub position: u16,
    /// The path under which it was found.
    pub label: Bytes,
    pub file: StubFile,
}

/// The stub libraries of a command line, by rising position.
pub type StubFileList = Items<NamedStub>;

// The most documents that a file may have, and one. A text of fewer than 2^30 bytes has at most 2^30.
const DOCUMENT_LIMIT: usize = 1 << 32;

fn has_documents(named: &NamedStub) -> bool
    ensures { result ≡ spec.has_documents named.now }
{
    let count = named.file.docs.len();
    0 < count && count < DOCUMENT_LIMIT
}

// Whether a stub library has a position from one on, which is below a number of inputs, and documents.
fn is_next(inputs: usize, least: usize, named: &NamedStub) -> bool
    ensures { result ≡ spec.is_next inputs least named.now }
{
    let position = usize::from(named.position);
    least <= position && position < inputs && has_documents(named)
}

/// Whether the positions rise and are below a number of inputs, and each of the files has a document, but fewer than 2^32.
/// Takes no memory.
#[tactic(auto, using(crate::proofs::ClosingLemmas::naming))]
pub fn are_named(inputs: usize, named: &[NamedStub]) -> bool
    ensures { result ≡ spec.are_named inputs 0 named.now }
{
    let mut least = 0;
    for stub in named {
        if !is_next(inputs, least, stub) {
            return false;
        }
        least = usize::from(stub.position) + 1;
    }
    true
}
