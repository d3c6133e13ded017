//! The names of symbols.

ghost use Rattle.std.specs.Prelude.{◌≡◌, ◌++◌, ◌≤◌, length, OnOk};
ghost use Rattle.link_gen.specs.Names as names;

use std::alloc::AllocError;

/// What a symbol of a made object names.
#[derive(Clone, Copy, Debug, PartialEq, Eq)]
pub enum SymbolName {
    /// The function of a number from 0: `_g` and its six decimal digits.
    Function(u32),
    /// The program's entry: `_main`.
    Main,
    /// The weak function of a number from 0 to 3: `_w` and its digit.
    Weak(u32),
}

// The character of a number's lowest decimal digit.
fn digit(number: u32) -> u8
    ensures { result ≡ names.digit number }
{
    b'0' + (number % 10) as u8
}

/// How many bytes a name and the NUL behind it have.
#[tactic(auto, unfolding(crate::specs::Names::string_of, crate::specs::Names::name_of))]
pub fn string_size(name: SymbolName) -> u32
    ensures size { result ≡ length (names.string_of name) }
    ensures small { result ≤ 9 }
{
    match name {
        SymbolName::Function(_) => 9,
        SymbolName::Main => 6,
        SymbolName::Weak(_) => 4,
    }
}

fn put_function(out: &mut Vec<u8>, i: u32) -> Result<(), AllocError>
    ensures { OnOk result (out.new.items ≡ out.old.items ++ names.function_name i) }
{
    out.extend_from_slice(&[
        b'_',
        b'g',
        digit(i / 100_000),
        digit(i / 10_000),
        digit(i / 1_000),
        digit(i / 100),
        digit(i / 10),
        digit(i),
    ])
}

// Appends a name.
#[tactic(auto, unfolding(crate::specs::Names::name_of))]
fn put_name(out: &mut Vec<u8>, name: SymbolName) -> Result<(), AllocError>
    ensures { OnOk result (out.new.items ≡ out.old.items ++ names.name_of name) }
{
    match name {
        SymbolName::Function(i) => put_function(out, i),
        SymbolName::Main => out.extend_from_slice(b"_main"),
        SymbolName::Weak(k) => out.extend_from_slice(&[b'_', b'w', digit(k)]),
    }
}

/// Appends a name and a NUL.
#[tactic(auto, using(crate::proofs::Appends::appends), unfolding(crate::specs::Names::string_of))]
pub fn put_string(out: &mut Vec<u8>, name: SymbolName) -> Result<(), AllocError>
    ensures { OnOk result (out.new.items ≡ out.old.items ++ names.string_of name) }
{
    put_name(out, name)?;
    out.push(0)?;
    Ok(())
}
