ghost use Rattle.std.specs.Prelude.{◌≡◌, false};
ghost use Rattle.std.specs.Option.{option_map_or};
ghost use Rattle.mo_types.specs.LocalEnds as ends;

use crate::key::AtomKey;

/// Where a reference leads.
#[derive(Clone, Copy, Debug, PartialEq, Eq)]
pub enum Target {
    /// A symbol, by its index in the reference's own object.
    Name(u32),
    /// An atom of the reference's own object, and an offset from its start in bytes.
    Local(AtomKey, u64),
}

impl Target {
    fn is_local(&self) -> bool
        ensures { result ≡ ends.is_local self.now }
    {
        match self {
            Target::Name(_) => false,
            Target::Local(..) => true,
        }
    }
}

// Whether there is a target that is an atom.
fn is_there_local(target: &Option<Target>) -> bool
    ensures { result ≡ option_map_or ends.is_local target.now false }
{
    match target {
        Some(target) => target.is_local(),
        None => false,
    }
}

/// What a reference's field holds (`mach-o/arm64/reloc.h`).
#[derive(Clone, Copy, Debug, PartialEq, Eq)]
pub enum RefKind {
    /// An address, of 64 bits.
    Pointer,
    /// The difference of two addresses, of 32 bits and signed.
    Diff32,
    /// The difference of two addresses, of 64 bits.
    Diff64,
    /// The distance of a branch.
    Branch,
    /// The distance in pages to the target's page.
    Page,
    /// The target's offset in its page.
    PageOff,
    /// The distance in pages to the page of the target's slot in the global offset table.
    GotPage,
    /// That slot's offset in its page.
    GotPageOff,
    /// The distance to that slot, of 32 bits and signed.
    GotDelta,
    /// That slot's address, of 64 bits.
    GotPointer,
    /// The distance in pages to the page of the target's slot for thread-local variables.
    TlvPage,
    /// That slot's offset in its page.
    TlvPageOff,
}

/// The bytes of a section that the linker fills in.
#[derive(Clone, Copy, Debug, PartialEq, Eq)]
pub struct FieldRange {
    /// The offset in the section, in bytes.
    pub offset: u64,
    /// In bytes.
    pub size: u64,
}

/// A reference: a field of an atom that the linker fills in.
#[derive(Clone, Copy, Debug, PartialEq, Eq)]
pub struct Ref {
    /// The atom that holds the field.
    pub atom: AtomKey,
    /// The field's offset in the atom, in bytes.
    pub place: u64,
    /// The field's offset in the object's bytes.
    pub file_place: u64,
    pub kind: RefKind,
    pub target: Target,
    /// What is subtracted from the target, in a difference.
    pub minus: Option<Target>,
    /// In bytes, added to the target.
    pub addend: i64,
}

impl Ref {
    /// Whether its target, or what is subtracted from it, is an atom and no symbol.
    pub(crate) fn has_local(&self) -> bool
        ensures { result ≡ ends.has_local self.now }
    {
        self.target.is_local() || is_there_local(&self.minus)
    }
}
