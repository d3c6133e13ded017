//! What a stub library says of the library that it stands for.

use mo_types::{Bytes, Items, NameList};

/// A name that a library exports. It is weak where the library's definition is (TBD v4: `weak-symbols`), so that another
/// image's definition may take its place.
#[derive(Debug, Drop, PartialEq, Eq)]
pub struct Export {
    pub name: Bytes,
    pub weak: bool,
}

/// The names that a library exports, in the order of the names, each once.
pub type ExportList = Items<Export>;

/// A document of a stub library, as it holds for one target: the library's install name (TBD v4: `install-name`), its
/// versions in 16, 8 and 8 bits (`loader.h`: struct dylib), the install names of the libraries that it re-exports, in
/// the order of the text, and what it exports itself.
#[derive(Debug, Drop)]
pub struct Stub {
    pub install: Bytes,
    pub current: u32,
    pub compatible: u32,
    pub reexports: NameList,
    pub exports: ExportList,
}

/// Documents, in the order of the text.
pub type StubList = Items<Stub>;

/// A stub library. The first document is that of the library itself.
#[derive(Debug, Drop)]
pub struct StubFile {
    pub docs: StubList,
}
