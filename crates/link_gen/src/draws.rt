//! Which functions are drawn.

ghost use Rattle.std.specs.Prelude.{◌≡◌, ◌+◌, ◌*◌, ◌<◌, ◌≤◌, ◌^◌, ◌%◌, ℕ, IfOk, map, length};
ghost use Rattle.std.specs.List.{range_with_len};
ghost use Rattle.link_gen.specs.Draws as sequence;

use std::alloc::{AllocError, Global};

/// What a number is multiplied by to get the next one (Knuth's MMIX).
pub const MULTIPLIER: u64 = 6364136223846793005;

/// What is added then.
pub const INCREMENT: u64 = 1442695040888963407;

/// Some steps at once: one product and one sum, modulo 2^64.
#[derive(Clone, Copy, Debug, PartialEq, Eq)]
pub struct Steps {
    pub multiplier: u64,
    pub increment: u64,
}

const NO_STEP: Steps = Steps {
    multiplier: 1,
    increment: 0,
};

const ONE_STEP: Steps = Steps {
    multiplier: MULTIPLIER,
    increment: INCREMENT,
};

impl Steps {
    #[tactic(auto, using(crate::proofs::StepLemmas::leading))]
    fn lead(self, x: u64) -> u64
        ensures value { result ≡ (x * self.multiplier + self.increment) % 2 ^ 64 }
        ensures steps { (n : ℕ) → sequence.IsSteps n self → result ≡ sequence.after n x }
    {
        x.wrapping_mul(self.multiplier).wrapping_add(self.increment)
    }

    #[tactic(auto, using(crate::proofs::StepLemmas::composed))]
    fn then(self, later: Steps) -> Steps
        ensures { (n m : ℕ) → sequence.IsSteps n self → sequence.IsSteps m later → sequence.IsSteps (n + m) result }
    {
        Steps {
            multiplier: self.multiplier.wrapping_mul(later.multiplier),
            increment: later.lead(self.increment),
        }
    }
}

// So many steps, by two or three products for each binary digit of their count.
#[tactic(auto, using(crate::proofs::StepLemmas::stepping))]
fn steps_of(count: u32) -> Steps
    ensures { sequence.IsSteps count result }
{
    if count == 0 {
        return NO_STEP;
    }
    let half = steps_of(count / 2);
    let even = half.then(half);
    if count % 2 == 1 {
        even.then(ONE_STEP)
    } else {
        even
    }
}

#[tactic(auto, unfolding(crate::specs::Draws::next))]
fn next(x: u64) -> u64
    ensures { result ≡ sequence.next x }
{
    ONE_STEP.lead(x)
}

/// The functions that some draws choose among so many, from the draw of a number on.
#[tactic(auto, using(crate::proofs::DrawLemmas::drawing))]
pub fn draw(alloc: Global, count: u32, first: u32, draws: usize) -> Result<Vec<u32>, AllocError>
    requires some { 0 < count }
    ensures { IfOk result (λ drawn. drawn.items ≡ map (sequence.drawn count) (range_with_len first draws)) }
{
    let mut drawn = Vec::with_capacity(alloc, draws)?;
    let mut x = steps_of(first).lead(u64::from(count));
    for number in 0..draws {
        x = next(x);
        drawn.push((x >> 33) as u32 % count)?;
    }
    Ok(drawn)
}
