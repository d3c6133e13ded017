use mo_types::{Bytes, Items};

/// An object or an archive of a command line.
#[derive(Debug, Drop)]
pub struct Input {
    /// Its place among the inputs of the command line.
    pub position: u16,
    /// What messages call it.
    pub label: Bytes,
    /// Its bytes; of a universal file those of its slice.
    pub bytes: Bytes,
    /// Whether all members of an archive are loaded (ld(1): `-force_load`, `-all_load`).
    pub forced: bool,
}

/// Inputs in the order of the command line.
pub type InputList = Items<Input>;
