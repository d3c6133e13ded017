//! The flags of the header that pointers and sections tell.
ghost use Rattle.std.specs.Prelude.{◌≡◌, ◌==◌};
ghost use Rattle.std.specs.List.{list_any};
ghost use Rattle.mo_format.specs.declared.loader.TheConstants.{S_THREAD_LOCAL_VARIABLES};
ghost use Rattle.image_make.specs.Flags as spec;

use fixup_chain::Fixup;
use mo_format::loader::{
    MH_BINDS_TO_WEAK, MH_HAS_TLV_DESCRIPTORS, MH_NOUNDEFS, S_THREAD_LOCAL_VARIABLES,
};
use mo_types::Goal;
use sect_place::PlacedSection;

fn is_flat(goal: &Goal) -> bool
    ensures { result ≡ spec.is_flat goal.now }
{
    matches!(goal, Goal::Flat(_))
}

fn is_weak(goal: &Goal) -> bool
    ensures { result ≡ spec.is_weak goal.now }
{
    match goal {
        Goal::WeakSelf(_, _, _) => true,
        Goal::Import { by_weak, .. } => *by_weak,
        Goal::Def(_, _) | Goal::Header | Goal::Flat(_) | Goal::Nobody => false,
    }
}

fn any_flat(fixups: &[Fixup]) -> bool
    ensures { result ≡ list_any (λ fixup. spec.is_flat fixup.goal) fixups.now }
{
    fixups.iter().any(|fixup| is_flat(&fixup.goal))
}

fn any_weak(fixups: &[Fixup]) -> bool
    ensures { result ≡ list_any (λ fixup. spec.is_weak fixup.goal) fixups.now }
{
    fixups.iter().any(|fixup| is_weak(&fixup.goal))
}

fn any_descriptors(sections: &[PlacedSection]) -> bool
    ensures { result ≡ list_any (λ placed. placed.section.kind == S_THREAD_LOCAL_VARIABLES) sections.now }
{
    sections.iter().any(|placed| u32::from(placed.section.kind) == S_THREAD_LOCAL_VARIABLES)
}

/// The flags that tell what an image's pointers are bound to, and whether a section holds descriptors of thread-local
/// variables (`loader.h`).
#[tactic(auto, unfolding(crate::specs::Flags::bound_flags))]
pub(crate) fn bound_flags(fixups: &[Fixup], sections: &[PlacedSection]) -> u32
    ensures { result ≡ spec.bound_flags fixups.now sections.now }
{
    let undefs = if any_flat(fixups) { 0 } else { MH_NOUNDEFS };
    let weak = if any_weak(fixups) {
        MH_BINDS_TO_WEAK
    } else {
        0
    };
    let descriptors = if any_descriptors(sections) {
        MH_HAS_TLV_DESCRIPTORS
    } else {
        0
    };
    undefs + weak + descriptors
}
