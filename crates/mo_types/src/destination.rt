ghost use Rattle.std.specs.Prelude.{◌≡◌};
ghost use Rattle.mo_types.specs.Destination as destination;

use crate::object::Section;
use mo_format::loader::{
    S_ATTR_PURE_INSTRUCTIONS, S_REGULAR, S_THREAD_LOCAL_REGULAR, S_THREAD_LOCAL_VARIABLES,
    S_THREAD_LOCAL_ZEROFILL,
};

fn is_thread_local(kind: u32) -> bool
    ensures { result ≡ destination.is_thread_local kind }
{
    kind == S_THREAD_LOCAL_REGULAR
        || kind == S_THREAD_LOCAL_ZEROFILL
        || kind == S_THREAD_LOCAL_VARIABLES
}

#[tactic(auto, unfolding(crate::specs::Destination::is_constant))]
fn is_constant(section: &Section) -> bool
    ensures { result ≡ destination.is_constant section.now }
{
    let name = section.name.as_slice();
    section.segment.as_slice() == b"__DATA".as_slice()
        && (name == b"__const".as_slice() || name == b"__mod_init_func".as_slice())
        && !is_thread_local(u32::from(section.kind))
}

impl Section {
    /// Whether it holds only instructions (`loader.h`: `S_ATTR_PURE_INSTRUCTIONS`).
    pub fn is_instructions(&self) -> bool
        ensures { result ≡ destination.is_instructions self.now }
    {
        self.attributes & S_ATTR_PURE_INSTRUCTIONS != 0
    }

    /// The segment of the image to which its atoms go.
    #[tactic(auto, unfolding(crate::specs::Destination::destination_segment))]
    pub fn destination_segment(&self) -> &[u8]
        ensures { result.now ≡ destination.destination_segment self.now }
    {
        if self.is_instructions() {
            b"__TEXT".as_slice()
        } else if is_constant(self) {
            b"__DATA_CONST".as_slice()
        } else {
            self.segment.as_slice()
        }
    }

    /// The name of the image's section to which its atoms go.
    #[tactic(auto, unfolding(crate::specs::Destination::destination_name))]
    pub fn destination_name(&self) -> &[u8]
        ensures { result.now ≡ destination.destination_name self.now }
    {
        if self.is_instructions() {
            b"__text".as_slice()
        } else {
            self.name.as_slice()
        }
    }

    /// The type of the image's section to which its atoms go.
    #[tactic(auto, unfolding(crate::specs::Destination::destination_kind))]
    pub fn destination_kind(&self) -> u8
        ensures { result ≡ destination.destination_kind self.now }
    {
        if self.is_instructions() {
            S_REGULAR as u8
        } else {
            self.kind
        }
    }
}
