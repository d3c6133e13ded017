//! What is known of an object before it is written.

ghost use Rattle.std.specs.Prelude.{◌≡◌, ◌≤◌, IfOk, length};
ghost use Rattle.link_gen.specs.Calls as calls;
ghost use Rattle.link_gen.specs.Generated as bytes;
ghost use Rattle.link_gen.specs.Symbols as symbols;
ghost use Rattle.link_gen.specs.Tables.{AreTables};

use crate::calls::{MadeObject, drawn_functions, outside_functions, outside_weaks, own_weaks};
use crate::front::Places;
use crate::numbers::{function_numbers, weak_numbers};
use crate::symbols::{MadeSymbol, add_undefined, defined_symbols};
use std::alloc::{AllocError, Global};

/// An object's symbols, and the numbers of those that are called.
#[derive(Debug, Drop)]
pub struct Tables {
    /// How many weak functions the object defines.
    pub weaks: usize,
    pub symbols: Vec<MadeSymbol>,
    /// Of the symbol of each function that is drawn, in order.
    pub numbers: Vec<u32>,
    /// Of the symbols of the four weak functions.
    pub weak_numbers: [u32; 4],
}

/// The tables of an object.
#[tactic(auto, using(crate::proofs::TableLemmas::tables))]
pub fn tables_of(alloc: Global, made: MadeObject) -> Result<Tables, AllocError>
    requires { calls.IsMade made }
    ensures { IfOk result (AreTables made) }
{
    let drawn = drawn_functions(alloc, made)?;
    let weaks = own_weaks(alloc, made)?;
    let outside = outside_functions(alloc, made, drawn.as_slice())?;
    let undefined_weaks = outside_weaks(alloc, made)?;
    let mut symbols = defined_symbols(alloc, made, weaks.as_slice())?;
    let defined = symbols.len();
    add_undefined(&mut symbols, outside.as_slice(), undefined_weaks.as_slice())?;
    let numbers = function_numbers(alloc, made, drawn.as_slice(), outside.as_slice(), defined)?;
    let weak_numbers = weak_numbers(symbols.as_slice());
    Ok(Tables {
        weaks: weaks.len(),
        symbols,
        numbers,
        weak_numbers,
    })
}

/// How many bytes the parts of the object have.
#[tactic(auto, using(crate::proofs::TableLemmas::places))]
pub fn places_of(made: MadeObject, tables: &Tables, strings: &[u8]) -> Places
    requires made { calls.IsMade made }
    requires tables { AreTables made tables.now }
    requires strings { strings.now ≡ symbols.strings_of (symbols.symbols_of made) }
    ensures exact { result ≡ bytes.places_of made }
    ensures few { bytes.AreFew result }
{
    let functions = made.function_count();
    Places {
        text_size: 16 * functions + 4 * tables.weaks as u32,
        relocations: 3 * functions,
        symbols: tables.symbols.len() as u32,
        strings_size: strings.len() as u32,
    }
}
