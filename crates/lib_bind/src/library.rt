use mo_types::Items;
use tbd_doc::StubList;

/// A library that the image is bound to.
#[derive(Clone, Copy, Debug, PartialEq, Eq)]
pub struct Library {
    /// Its place among the inputs of the command, counted from 0.
    pub position: u16,
    /// Its number in the image, counted from 1 (`loader.h`: the library ordinal of two-level namespaces).
    pub ordinal: u8,
    /// It may be absent at run time (`loader.h`: LC_LOAD_WEAK_DYLIB).
    pub weak: bool,
    /// The image has its names too (`loader.h`: LC_REEXPORT_DYLIB).
    pub reexport: bool,
    /// The number of its document, counted from 0: the first one of its file.
    pub document: usize,
}

/// Libraries, by their ordinals.
pub type LibraryList = Items<Library>;

/// Numbers of documents, counted from 0.
pub type NumberList = Items<usize>;

/// Numbers of documents, for each document or for each library.
pub type LinkList = Items<NumberList>;

/// Libraries with their documents, which re-export each other.
#[derive(Debug, Drop)]
pub struct LibraryGraph {
    pub libraries: LibraryList,
    pub documents: StubList,
    /// For each document those that it re-exports.
    pub links: LinkList,
    /// For each library those that a path of links leads to from its document, that one among them, by rising number.
    pub reach: LinkList,
}
