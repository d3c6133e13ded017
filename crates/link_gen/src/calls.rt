//! Which functions an object has, and which its functions call.

ghost use Rattle.std.specs.Prelude.{◌≡◌, ◌≤◌, ◌<◌, ◌*◌, ◌+◌, ◌∷◌, ◌%◌, ◌/◌, ◌==◌, ◌&&◌, not, IfOk, filter, length, map, min};
ghost use Rattle.std.specs.List.{range_with_len};
ghost use Rattle.std.specs.List.Sorted.{IsStrictlyIncreasing};
ghost use Rattle.link_gen.specs.Calls as calls;
ghost use Rattle.link_gen.specs.InOrder.{AreInOrder};

use crate::draws::draw;
use std::alloc::{AllocError, Global};

/// An object of an input that is made.
#[derive(Clone, Copy, Debug, PartialEq, Eq)]
pub struct MadeObject {
    /// How many functions the input has, from 1 to 20,000.
    pub count: u32,
    /// The object's number from 0.
    pub object: u32,
}

/// How many objects an input of so many functions has: each has 64, and the last one those that are left.
pub fn object_count(count: u32) -> u32
    requires { count ≤ 20000 }
    ensures { result ≡ calls.object_count count }
{
    (count + 63) / 64
}

impl MadeObject {
    /// The number of the object's first function.
    pub fn first_function(self) -> u32
        requires { calls.IsMade self }
        ensures first { result ≡ calls.first_function self }
        ensures within { result < self.count }
    {
        64 * self.object
    }

    /// How many functions it has, at most 64.
    pub fn function_count(self) -> u32
        requires { calls.IsMade self }
        ensures count { result ≡ calls.function_count self }
        ensures some { 0 < result }
        ensures few { result ≤ 64 }
    {
        (self.count - self.first_function()).min(64)
    }

    /// Whether the function of a number is its own.
    pub fn has_function(self, i: u32) -> bool
        requires { calls.IsMade self }
        ensures { result ≡ calls.has_function self i }
    {
        let first = self.first_function();
        first <= i && i < first + self.function_count()
    }

    /// Whether it defines the weak function of a number.
    pub fn has_weak(self, k: u32) -> bool
        requires { calls.IsMade self }
        ensures { result ≡ calls.has_weak self k }
    {
        k == self.object % 4 || self.object == 0 && object_count(self.count) <= k
    }
}

/// The functions that the object's functions draw, two each.
#[tactic(auto, unfolding(crate::specs::Calls::drawn_functions))]
pub fn drawn_functions(alloc: Global, made: MadeObject) -> Result<Vec<u32>, AllocError>
    requires { calls.IsMade made }
    ensures { IfOk result (λ drawn. drawn.items ≡ calls.drawn_functions made) }
{
    let draws = 2 * made.function_count() as usize;
    draw(alloc, made.count, 2 * made.first_function(), draws)
}

// Puts numbers in order, and leaves each once.
fn put_in_order(numbers: &mut Vec<u32>)
    ensures order { AreInOrder numbers.old.items numbers.new.items }
    ensures few { length numbers.new.items ≤ length numbers.old.items }
{
    numbers.sort_unstable();
    numbers.dedup();
}

// Those that the object doesn't have.
#[tactic(auto, using(crate::proofs::FilterLemmas::filtering))]
fn others(alloc: Global, made: MadeObject, drawn: &[u32]) -> Result<Vec<u32>, AllocError>
    requires { calls.IsMade made }
    ensures { IfOk result (λ others. others.items ≡ filter (λ i. not (calls.has_function made i)) drawn.now) }
{
    let mut others = Vec::with_capacity(alloc, drawn.len())?;
    for i in drawn {
        if !made.has_function(*i) {
            others.push(*i)?;
        }
    }
    Ok(others)
}

/// The functions of other objects that are drawn, each once and by number.
#[tactic(auto, using(crate::proofs::OutsideLemmas::outside))]
pub fn outside_functions(
    alloc: Global,
    made: MadeObject,
    drawn: &[u32],
) -> Result<Vec<u32>, AllocError>
    requires made { calls.IsMade made }
    requires drawn { drawn.now ≡ calls.drawn_functions made }
    ensures exact { IfOk result (λ outside. outside.items ≡ calls.outside_functions made) }
    ensures few { IfOk result (λ outside. length outside.items ≤ length drawn.now) }
{
    let mut outside = others(alloc, made, drawn)?;
    put_in_order(&mut outside);
    Ok(outside)
}

/// The weak functions that the object defines, by number.
#[tactic(auto, using(crate::proofs::FilterLemmas::filtering_range), unfolding(crate::specs::Calls::own_weaks))]
pub fn own_weaks(alloc: Global, made: MadeObject) -> Result<Vec<u32>, AllocError>
    requires { calls.IsMade made }
    ensures exact { IfOk result (λ weaks. weaks.items ≡ calls.own_weaks made) }
    ensures few { IfOk result (λ weaks. length weaks.items ≤ 4) }
{
    let mut weaks = Vec::new(alloc);
    for k in 0..4 {
        if made.has_weak(k) {
            weaks.push(k)?;
        }
    }
    Ok(weaks)
}

/// The weak functions that are called and that other objects define, by number.
#[tactic(auto, using(crate::proofs::FilterLemmas::filtering_range), unfolding(crate::specs::Calls::outside_weaks))]
pub fn outside_weaks(alloc: Global, made: MadeObject) -> Result<Vec<u32>, AllocError>
    requires { calls.IsMade made }
    ensures exact { IfOk result (λ weaks. weaks.items ≡ calls.outside_weaks made) }
    ensures few { IfOk result (λ weaks. length weaks.items ≤ 4) }
{
    let mut weaks = Vec::new(alloc);
    for k in 0..made.function_count().min(4) {
        if !made.has_weak(k) {
            weaks.push(k)?;
        }
    }
    Ok(weaks)
}
