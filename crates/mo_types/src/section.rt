use crate::object::Section;
use mo_format::loader::{
    S_4BYTE_LITERALS, S_8BYTE_LITERALS, S_16BYTE_LITERALS, S_ATTR_DEBUG, S_CSTRING_LITERALS,
    S_THREAD_LOCAL_ZEROFILL, S_ZEROFILL,
};

impl Section {
    ghost use Rattle.std.specs.Prelude.{◌≡◌};
    ghost use Rattle.mo_types.specs.Whole as whole;

    /// Whether the section isn't linked: it is for the linker itself, of debugging data, of bitcode, or of
    /// the frames that compact unwind stands for.
    #[tactic(auto, unfolding(crate::specs::Whole::is_dropped))]
    pub fn is_dropped(&self) -> bool
        ensures { result ≡ whole.is_dropped self.now }
    {
        let segment = self.segment.as_slice();
        segment == b"__LD".as_slice()
            || segment == b"__DWARF".as_slice()
            || segment == b"__LLVM".as_slice()
            || self.attributes & S_ATTR_DEBUG != 0
            || segment == b"__TEXT".as_slice() && self.name.as_slice() == b"__eh_frame".as_slice()
    }

    /// Whether the section has no bytes in the file (`S_ZEROFILL`, `S_THREAD_LOCAL_ZEROFILL`).
    pub fn is_zerofill(&self) -> bool
        ensures { result ≡ whole.is_zerofill self.now.kind }
    {
        let kind = u32::from(self.kind);
        kind == S_ZEROFILL || kind == S_THREAD_LOCAL_ZEROFILL
    }

    /// Whether the section has strings that end in NUL (`S_CSTRING_LITERALS`).
    pub fn is_strings(&self) -> bool
        ensures { result ≡ whole.is_strings self.now.kind }
    {
        u32::from(self.kind) == S_CSTRING_LITERALS
    }

    /// The bytes of each literal, where the section has literals of one size (`S_4BYTE_LITERALS`,
    /// `S_8BYTE_LITERALS`, `S_16BYTE_LITERALS`).
    pub fn literal_size(&self) -> Option<u64>
        ensures { result ≡ whole.literal_size self.now.kind }
    {
        match u32::from(self.kind) {
            S_4BYTE_LITERALS => Some(4),
            S_8BYTE_LITERALS => Some(8),
            S_16BYTE_LITERALS => Some(16),
            _ => None,
        }
    }
}
