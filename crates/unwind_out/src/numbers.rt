ghost use Rattle.std.specs.Prelude.{◌≡◌, ◌≤◌, ◌<◌, ◌==◌, [], length, OnOk, position};
ghost use Rattle.std.specs.List.{position_or_len};
ghost use Rattle.unwind_out.specs.Pages.{with_new};
ghost use Rattle.unwind_out.specs.Held.{AreFirst, AreKnown, guess_place};

use mo_types::OutOfMemory;

/// How many guesses are kept of where a number stands.
pub const GUESSES: usize = 0x1000;

/// Guesses of where numbers stand: one more than a place, or 0 for none.
pub type Guesses = [u16; GUESSES];

// A number's guess is that of the high bits of its product with a large odd number.
#[tactic(auto, unfolding(crate::specs::Held::guess_place))]
fn guess_of(number: u32) -> usize
    ensures exact { result ≡ guess_place number }
    ensures within { result < GUESSES }
{
    (number.wrapping_mul(0x9e37_79b1) >> 20) as usize
}

/// The place of a number among numbers that stand there once each, or their count where it isn't there. A guess that
/// holds saves the search, and one that doesn't costs nothing else.
#[tactic(auto, using(crate::proofs::Uses::uses))]
pub fn place_of(numbers: &[u32], guesses: &Guesses, number: u32) -> usize
    requires once { AreFirst numbers.now }
    ensures { result ≡ position_or_len (λ other. other == number) numbers.now }
{
    let guess = usize::from(guesses[guess_of(number)]).wrapping_sub(1);
    if guess < numbers.len() && numbers[guess] == number {
        return guess;
    }
    search(numbers, number)
}

fn position_of(numbers: &[u32], number: u32) -> Option<usize>
    ensures { result ≡ position (λ other. other == number) numbers.now }
{
    numbers.iter().position(|other| *other == number)
}

#[tactic(auto, using(crate::proofs::Uses::uses))]
fn search(numbers: &[u32], number: u32) -> usize
    ensures { result ≡ position_or_len (λ other. other == number) numbers.now }
{
    position_of(numbers, number).unwrap_or(numbers.len())
}

/// Begins with no numbers.
#[tactic(auto, using(crate::proofs::Uses::knowing))]
pub fn forget(numbers: &mut Vec<u32>, guesses: &mut Guesses)
    ensures none { numbers.new.items ≡ [] }
    ensures known { AreKnown numbers.new.items guesses.new }
{
    numbers.clear();
    *guesses = [0; GUESSES];
}

// Whether a number isn't there. One without a guess isn't.
#[tactic(auto, using(crate::proofs::Uses::knowing))]
fn is_new(numbers: &[u32], guesses: &Guesses, number: u32) -> bool
    requires known { AreKnown numbers.now guesses.now }
    ensures { result ≡ (position_or_len (λ other. other == number) numbers.now == length numbers.now) }
{
    guesses[guess_of(number)] == 0 || place_of(numbers, guesses, number) == numbers.len()
}

// Puts a number that isn't there behind the others.
#[tactic(auto, using(crate::proofs::Uses::knowing))]
fn push_new(numbers: &mut Vec<u32>, guesses: &mut Guesses, number: u32) -> Result<(), OutOfMemory>
    requires known { AreKnown numbers.old.items guesses.old }
    requires few { length numbers.old.items ≤ 256 }
    requires none { position_or_len (λ other. other == number) numbers.old.items ≡ length numbers.old.items }
    ensures ok { OnOk result (numbers.new.items ≡ with_new numbers.old.items number) }
    ensures known { OnOk result (AreKnown numbers.new.items guesses.new) }
{
    numbers.push(number)?;
    guesses[guess_of(number)] = numbers.len() as u16;
    Ok(())
}

/// Puts a number behind the others, where it isn't there yet.
#[tactic(auto, using(crate::proofs::Uses::knowing))]
pub fn put_new(
    numbers: &mut Vec<u32>,
    guesses: &mut Guesses,
    number: u32,
) -> Result<(), OutOfMemory>
    requires known { AreKnown numbers.old.items guesses.old }
    requires few { length numbers.old.items ≤ 256 }
    ensures ok { OnOk result (numbers.new.items ≡ with_new numbers.old.items number) }
    ensures known { OnOk result (AreKnown numbers.new.items guesses.new) }
{
    if is_new(numbers.as_slice(), guesses, number) {
        push_new(numbers, guesses, number)?;
    }
    Ok(())
}

/// Guesses where numbers stand.
pub fn guess_all(numbers: &[u32], guesses: &mut Guesses)
    requires few { length numbers.now ≤ 256 }
{
    for (place, number) in numbers.iter().enumerate() {
        guesses[guess_of(*number)] = place as u16 + 1;
    }
}
