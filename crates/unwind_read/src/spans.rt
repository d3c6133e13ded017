/// The range for which an entry stands: offsets in a section. Ranges are ordered by where they begin.
#[derive(Clone, Copy, Debug, PartialEq, Eq, PartialOrd, Ord)]
pub struct Span {
    /// The number of the section, from 1.
    pub section: u16,
    /// The offset at which the range begins.
    pub from: u64,
    /// The offset at which it ends.
    pub to: u64,
    /// The entry's place in the object's bytes.
    pub place: u64,
}
