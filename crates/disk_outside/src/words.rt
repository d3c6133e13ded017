//! The words of the command line.

ghost use Rattle.std.specs.Prelude.{◌≡◌, ◌⊎◌, [], ◌∷◌, IfOk, IsUtf8};

use mo_types::{Arg, ArgList, OutOfMemory};
use std::alloc::Global;
use std::env::FillError;
use std::rt::Env;

// The bytes that are taken for a word at first.
const FIRST_ROOM: usize = 256;

// The word of that number, or `None` past the last one. A word longer than the room for it is asked for again with twice
// the room.
fn word<R: Env>(rt: &R, alloc: Global, number: usize) -> Result<Option<Vec<u8>>, OutOfMemory> {
    let mut room = FIRST_ROOM;
    loop {
        let mut bytes = vec![in alloc; 0; room]?;
        match rt.arg(number, bytes.as_mut_slice()) {
            Ok(len) => {
                bytes.truncate(len);
                return Ok(Some(bytes));
            }
            Err(FillError::NotPresent) => return Ok(None),
            Err(FillError::TooLong) => room *= 2,
        }
    }
}

// A word of a command line. One that isn't UTF-8 becomes a lone NUL, which no word that is given has, and which
// is an unknown word wherever it stands.
fn text_of(alloc: Global, bytes: Vec<u8>) -> Result<Arg, OutOfMemory>
    ensures text { IsUtf8 bytes.items → IfOk result (λ arg. arg ≡ bytes.items) }
    ensures other { IfOk result (λ arg. (arg ≡ bytes.items) ⊎ (arg ≡ 0 ∷ [])) }
{
    match String::from_utf8(bytes) {
        Ok(text) => Ok(Arg::new(text)),
        Err(_) => Ok(Arg::new(String::from_str(alloc, "\0")?)),
    }
}

/// The words after the program's name, each of them text or a lone NUL.
pub fn gather<R: Env>(rt: &R, alloc: Global) -> Result<ArgList, OutOfMemory> {
    let mut words = ArgList::new(alloc);
    for number in 1..usize::MAX {
        let Some(bytes) = word(rt, alloc, number)? else {
            break;
        };
        words.push(text_of(alloc, bytes)?)?;
    }
    Ok(words)
}
