use mo_types::{Bytes, Items};

/// A part of an image.
#[derive(Debug, Drop)]
pub struct Part {
    /// The place of its first byte in the file.
    pub from: u64,
    pub bytes: Bytes,
}

/// Parts in a stated order.
pub type PartList = Items<Part>;

/// The parts of an image that are whole before the atoms are placed: the header with the load commands, and what
/// `__LINKEDIT` holds.
#[derive(Debug, Drop)]
pub struct Parts {
    /// How many bytes the image has in the file.
    pub size: u64,
    /// The parts, by rising place.
    pub parts: PartList,
}

/// What the UUID and the signature of an image need.
#[derive(Debug, Drop)]
pub struct Seal {
    /// Where the 16 bytes of the UUID stand in the file.
    pub uuid_at: u64,
    /// Where the signature stands in the file, behind all else.
    pub signature_at: u64,
    /// How many bytes of the file `__TEXT` has.
    pub text_size: u64,
    /// The name of the image in its signature.
    pub identifier: Bytes,
    /// Whether the image is a program.
    pub main: bool,
}
