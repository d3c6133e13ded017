//! The numbers of the symbols that are called.

ghost use Rattle.std.specs.Prelude.{◌≡◌, ◌≤◌, ◌<◌, ◌*◌, ◌+◌, ◌∷◌, [], Contains, IfOk, length, map, slice_index};
ghost use Rattle.std.specs.List.{range_with_len};
ghost use Rattle.std.specs.List.Sorted.{IsStrictlyIncreasing};
ghost use Rattle.link_gen.specs.Calls as calls;
ghost use Rattle.link_gen.specs.Numbers.{AreNumbered};
ghost use Rattle.link_gen.specs.Names as names;
ghost use Rattle.link_gen.specs.Symbols as symbols;
ghost use Rattle.link_gen.specs.declared.names.SymbolName.TheVariants.{Function};

use crate::calls::MadeObject;
use crate::names::SymbolName;
use crate::symbols::MadeSymbol;
use std::alloc::{AllocError, Global};

fn is_same(one: SymbolName, other: SymbolName) -> bool
    ensures { result ≡ names.is_same one other }
{
    match (one, other) {
        (SymbolName::Function(i), SymbolName::Function(j)) => i == j,
        (SymbolName::Weak(i), SymbolName::Weak(j)) => i == j,
        _ => false,
    }
}

// The number of the symbol of a name.
#[tactic(auto, using(crate::proofs::NumberLemmas::searching), unfolding(crate::specs::Symbols::number_of))]
fn number_of(list: &[MadeSymbol], name: SymbolName) -> usize
    ensures exact { result ≡ symbols.number_of list.now name }
    ensures within { result ≤ length list.now }
{
    for (number, symbol) in list.iter().enumerate() {
        if is_same(symbol.name, name) {
            return number;
        }
    }
    list.len()
}

// The place of a number among some that rise.
fn place_of(numbers: &[u32], i: u32) -> usize
    requires rises { IsStrictlyIncreasing numbers.now }
    requires there { Contains numbers.now i }
    ensures within { result < length numbers.now }
    ensures value { slice_index numbers.now result ≡ i }
{
    match numbers.binary_search(&i) {
        Ok(place) => place,
        Err(place) => place,
    }
}

// The number of the symbol of a function that is drawn. The object's own ones come first, those of other objects
// behind all symbols that it defines.
#[tactic(auto, using(crate::proofs::NumberLemmas::numbers))]
fn function_number(made: MadeObject, outside: &[u32], defined: usize, i: u32) -> usize
    requires made { calls.IsMade made }
    requires outside { AreNumbered made outside.now defined }
    requires drawn { calls.IsDrawn made i }
    requires few { defined + length outside.now ≤ 1000 }
    ensures exact { result ≡ symbols.number_of (symbols.symbols_of made) (Function i) }
    ensures few { result ≤ 20000 }
{
    if made.has_function(i) {
        return (i - made.first_function()) as usize;
    }
    defined + place_of(outside, i)
}

/// The numbers of the symbols of the functions that are drawn.
#[tactic(auto, using(crate::proofs::NumberLemmas::numbering))]
pub fn function_numbers(
    alloc: Global,
    made: MadeObject,
    drawn: &[u32],
    outside: &[u32],
    defined: usize,
) -> Result<Vec<u32>, AllocError>
    requires made { calls.IsMade made }
    requires drawn { drawn.now ≡ calls.drawn_functions made }
    requires outside { AreNumbered made outside.now defined }
    requires few { defined + length outside.now ≤ 1000 }
    ensures { IfOk result (λ numbers. numbers.items ≡ map (symbols.number_of_function made) drawn.now) }
{
    let mut numbers = Vec::with_capacity(alloc, drawn.len())?;
    for i in drawn {
        numbers.push(function_number(made, outside, defined, *i) as u32)?;
    }
    Ok(numbers)
}

/// The numbers of the symbols of the weak functions.
pub fn weak_numbers(list: &[MadeSymbol]) -> [u32; 4]
    requires { length list.now ≤ 1000 }
    ensures { result ≡ map (symbols.number_of_weak list.now) (range_with_len 0 4) }
{
    [
        number_of(list, SymbolName::Weak(0)) as u32,
        number_of(list, SymbolName::Weak(1)) as u32,
        number_of(list, SymbolName::Weak(2)) as u32,
        number_of(list, SymbolName::Weak(3)) as u32,
    ]
}
