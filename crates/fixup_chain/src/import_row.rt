/// An import in a form, by the place of its name in the pool. Places rise with the names, and so rows have the order of
/// their imports.
#[derive(Clone, Copy, Debug, PartialEq, Eq, PartialOrd, Ord, Hash)]
pub(crate) struct ImportRow {
    /// Where its name begins in the pool.
    pub(crate) name: usize,
    /// What is added to its address; 0 in the narrow form, whose words have it.
    pub(crate) addend: i64,
    /// The number of the library that has it, or a special one, in 16 bits.
    pub(crate) ordinal: u16,
    /// Whether its name may be missing.
    pub(crate) optional: bool,
}
