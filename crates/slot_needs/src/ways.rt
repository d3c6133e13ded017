//! How references need their goals.
ghost use Rattle.std.specs.Prelude.{◌≡◌, true, ℤ, None};
ghost use Rattle.mo_types.specs.declared.goal.Goal.{Goal as Goals};
ghost use Rattle.image_read.specs.Reaches as reaches;
ghost use Rattle.slot_needs.specs.Needs as spec;
ghost use Rattle.slot_needs.specs.inner.Gathered.{has, with_way};

use mo_types::{Goal, Ref, RefKind};
use slot_plan::Way;

// Whether the loader finds a goal by its name, maybe in another image.
#[inline(always)]
fn is_looked_up(goal: &Goal) -> bool
    ensures { result ≡ reaches.is_looked_up goal.now }
{
    matches!(
        goal,
        Goal::WeakSelf(_, _, _) | Goal::Import { .. } | Goal::Flat(_)
    )
}

/// Whether another image has a goal.
pub(crate) fn is_outer(goal: &Goal) -> bool
    ensures { result ≡ spec.is_outer goal.now }
{
    matches!(goal, Goal::Import { .. } | Goal::Flat(_))
}

// Whether nothing is added to a reference's goal.
#[inline(always)]
fn adds_nothing(reference: &Ref) -> bool
    ensures { result ≡ reaches.is_zero reference.now.addend }
{
    let addend = reference.addend;
    addend == 0
}

// How a branch needs its goal.
#[inline(always)]
fn branch_way(reference: &Ref, goal: &Goal) -> Option<Way>
    ensures { result ≡ spec.branch_way reference.now.addend goal.now }
{
    if is_looked_up(goal) && adds_nothing(reference) {
        Some(Way::Stub)
    } else {
        None
    }
}

/// How a reference needs its goal, where it needs more than the goal's own address.
#[inline(always)]
pub(crate) fn way_of(reference: &Ref, goal: &Goal) -> Option<Way>
    ensures { result ≡ spec.way_of reference.now.kind reference.now.addend goal.now }
{
    match reference.kind {
        RefKind::Branch => branch_way(reference, goal),
        RefKind::GotPage | RefKind::GotPageOff | RefKind::GotDelta | RefKind::GotPointer => {
            Some(Way::Got)
        }
        RefKind::TlvPage | RefKind::TlvPageOff => Some(Way::Tlv),
        RefKind::Pointer | RefKind::Diff32 | RefKind::Diff64 | RefKind::Page | RefKind::PageOff =>
            None,
    }
}

/// Whether a reference of a kind needs no more than its goal's own address, whatever that is.
#[inline(always)]
pub(crate) fn needs_nothing(kind: RefKind) -> bool
    ensures { result ≡ true → (addend : ℤ) (goal : Goals) → spec.way_of kind addend goal ≡ None }
{
    matches!(
        kind,
        RefKind::Pointer | RefKind::Diff32 | RefKind::Diff64 | RefKind::Page | RefKind::PageOff
    )
}

/// In which ways a goal of the pool was needed so far.
#[derive(Clone, Copy, Debug)]
pub(crate) struct Ways {
    pub(crate) got: bool,
    pub(crate) stub: bool,
    pub(crate) tlv: bool,
}

/// In none.
pub(crate) const NO_WAY: Ways = Ways {
    got: false,
    stub: false,
    tlv: false,
};

impl Ways {
    /// Whether a way is among them.
    #[inline(always)]
    pub(crate) fn has(self, way: Way) -> bool
        ensures { result ≡ has self way }
    {
        match way {
            Way::Got => self.got,
            Way::Stub => self.stub,
            Way::Tlv => self.tlv,
        }
    }

    /// With a way more.
    pub(crate) fn with(self, way: Way) -> Ways
        ensures { result ≡ with_way self way }
    {
        match way {
            Way::Got => Ways { got: true, ..self },
            Way::Stub => Ways { stub: true, ..self },
            Way::Tlv => Ways { tlv: true, ..self },
        }
    }
}
