//! The words of the pointers.
ghost use Rattle.std.specs.Prelude.{◌≡◌, ℤ, ◌<◌, ◌^◌, List, IfSome, unwrap_or};
ghost use Rattle.fixup_chain.specs.ImportOrder.{Import};
ghost use Rattle.fixup_chain.specs.Faults.{target_of};
ghost use Rattle.fixup_chain.specs.inner.Held.{HasNumber, HasOffset, offset_by};
ghost use Rattle.fixup_chain.specs.Words as words;
ghost use Rattle.sect_place.specs.declared.layout.Layout.{Layout};

use crate::chains::Fixup;
use crate::goals::is_bound;
use image_format::{ChainedBind, ChainedRebase};

/// The offset, where a rebase has room for it.
pub(crate) fn in_rebase(target: i128) -> Option<u64>
    ensures value { result ≡ words.in_rebase target }
    ensures small { IfSome result (λ offset. offset < 2 ^ 36) }
{
    if target < 0 || target >= 1 << 36 {
        return None;
    }
    Some(target as u64)
}

// What of an addend stands in the word of a bind: in the wide form its import has it.
fn word_addend(wide: bool, addend: i64) -> u8
    ensures { result ≡ words.word_addend wide addend }
{
    if wide {
        0
    } else {
        (addend.cast_unsigned() % 0x100) as u8
    }
}

// The offset that is held, or 0 where no word has room for it.
fn room_for(held: usize) -> u64
    ensures value { (target : ℤ) → held ≡ offset_by target → result ≡ unwrap_or (words.in_rebase target) 0 }
    ensures small { result < 2 ^ 36 }
{
    if held < 1 << 36 { held as u64 } else { 0 }
}

/// The word of a pointer, by the number of its import if it is bound, by what is held for it, and by the distance to the
/// next one of its page.
#[tactic(auto, unfolding(crate::specs::Words::word_by))]
pub(crate) fn word_by(wide: bool, number: u32, held: usize, next: u16, fixup: &Fixup) -> u64
    requires number { number < 2 ^ 24 }
    requires next { next < 2 ^ 12 }
    ensures { (layout : Layout) (imports : List Import) → HasNumber wide imports fixup.now number → HasOffset layout fixup.now held
        → result ≡ words.word_by wide imports (target_of layout fixup.now) next fixup.now }
{
    if is_bound(&fixup.goal) {
        let bind = ChainedBind {
            ordinal: number,
            addend: word_addend(wide, fixup.addend),
            reserved: 0,
            next,
        };
        bind.word()
    } else {
        let rebase = ChainedRebase {
            target: room_for(held),
            high8: 0,
            reserved: 0,
            next,
        };
        rebase.word()
    }
}
