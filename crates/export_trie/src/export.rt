use mo_types::{Bytes, Items};

/// One exported name.
#[derive(Debug, Drop)]
pub struct ExportAddress {
    /// The name, which holds no NUL.
    pub name: Bytes,
    /// The flags that the loader reads (`loader.h`: EXPORT_SYMBOL_FLAGS_KIND_MASK and its kin).
    pub flags: u64,
    /// The image offset: the address less that of the image's header.
    pub address: u64,
}

/// The exports of an image, in any order.
pub type ExportAddresses = Items<ExportAddress>;
