use mo_types::{Bytes, Items};

/// The file of an input of a command line.
#[derive(Debug, Drop)]
pub struct Content {
    /// The path under which it was found.
    pub label: Bytes,
    /// Its bytes, or the first 2^30 of them.
    pub bytes: Bytes,
}

/// The files of the inputs of a command line, in their order.
pub type ContentList = Items<Content>;
