ghost use Rattle.std.specs.Prelude.{◌≡◌};
ghost use Rattle.std.specs.List.Sorted.{IsSorted};
ghost use Rattle.std.specs.Ordering.{on};
ghost use Rattle.tlv_plan.specs.declared.parts.Offset.{Offset};
ghost use Rattle.mo_types.specs.Keys.{compare_keys};

use mo_types::AtomKey;
use std::marker::Model;

/// Where an atom stands in the template.
#[derive(Clone, Copy, Debug, PartialEq, Eq)]
pub struct Offset {
    pub atom: AtomKey,
    /// From the template's start, in bytes.
    pub offset: u64,
}

/// Offsets in the order of their atoms. Contracts see the list of them.
#[derive(Debug, Drop)]
pub struct OffsetList {
    offsets: Vec<Offset>,
}

impl Model for OffsetList {
    ghost use Rattle.std.specs.Prelude.{List};
    ghost use Rattle.std.specs.List.Sorted.{IsSorted};
    ghost use Rattle.std.specs.Ordering.{on};
    ghost use Rattle.tlv_plan.specs.declared.parts.Offset.{Offset};
    ghost use Rattle.mo_types.specs.Keys.{compare_keys};

    ghost Value = { List Offset };

    ghost view = { λ list. list.offsets.items };

    ghost invariant = { λ list. IsSorted (on (λ (o : Offset). o.atom) compare_keys) list.offsets.items };
}

impl OffsetList {
    // The list of offsets that are in order.
    pub(crate) fn from_sorted(offsets: Vec<Offset>) -> OffsetList
        requires { IsSorted (on (λ (o : Offset). o.atom) compare_keys) offsets.items }
        ensures { result ≡ offsets.items }
    {
        OffsetList { offsets }
    }

    /// All offsets, in order.
    pub fn as_slice(&self) -> &[Offset]
        ensures all { result.now ≡ self.now }
        ensures rising { IsSorted (on (λ (o : Offset). o.atom) compare_keys) self.now }
    {
        self.offsets.as_slice()
    }
}

/// The template of an image's thread-local variables.
#[derive(Debug, Drop)]
pub struct Template {
    /// The offset of each atom in it.
    pub places: OffsetList,
    /// The alignment of its start, and of its first section, is 2 to this power.
    pub align: u8,
    /// In bytes.
    pub size: u64,
}
