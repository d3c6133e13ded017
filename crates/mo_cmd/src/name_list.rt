ghost use Rattle.std.specs.Prelude.{◌≡◌, ◌<◌, ◌∷◌, IfSome, length};
ghost use Rattle.std.specs.Option.{option_map};
ghost use Rattle.mo_types.specs.Gives.{Gives};
ghost use Rattle.mo_cmd.specs.Lists as lists;

use crate::faults::has_wildcard;
use memchr::memchr;
use mo_types::{Bytes, Feature, Items, NameList, ObjFault};
use std::alloc::Global;

fn is_white(byte: u8) -> bool
    ensures { result ≡ lists.is_white byte }
{
    byte == b' ' || byte == b'\t' || byte == b'\r' || byte == 0x0b || byte == 0x0c
}

#[tactic(auto, using(crate::proofs::LineLemmas::trims))]
fn without_front(line: &[u8]) -> &[u8]
    ensures { result.now ≡ lists.without_front line.now }
{
    let mut rest = line;
    while let [byte, others @ ..] = rest {
        if !is_white(*byte) {
            return rest;
        }
        rest = others;
    }
    rest
}

#[tactic(auto, using(crate::proofs::LineLemmas::ends))]
fn without_end(line: &[u8]) -> &[u8]
    ensures { result.now ≡ lists.without_end line.now }
{
    let mut rest = line;
    while let [others @ .., byte] = rest {
        if !is_white(*byte) {
            return rest;
        }
        rest = others;
    }
    rest
}

fn is_name(line: &[u8]) -> bool
    ensures { result ≡ lists.is_name line.now }
{
    match line {
        [] => false,
        [byte, ..] => *byte != b'#',
    }
}

// The first line of a text, and what follows it.
#[tactic(auto, using(crate::proofs::LineLemmas::cuts))]
fn cut_line(text: &[u8]) -> (&[u8], Option<&[u8]>)
    ensures exact { result.0.now ∷ lists.lines_left (option_map (λ rest. rest.now) result.1) ≡ lists.lines_of text.now }
    ensures less { IfSome result.1 (λ rest. length rest.now < length text.now) }
{
    match memchr(b'\n', text) {
        Some(end) => (&text[..end], Some(&text[end + 1..])),
        None => (text, None),
    }
}

/// Reads a list of names, as one of exported symbols (ld(1)): one name a line, without white space at its ends; empty
/// lines and lines that begin with `#` are passed over. A name with a wildcard is `Unsupported(Wildcard)`.
#[tactic(auto, using(crate::proofs::LineLemmas::reading))]
pub fn read_list(alloc: Global, bytes: &[u8]) -> Result<NameList, ObjFault>
    ensures { Gives lists.IsListFault result (lists.list_of bytes.now) }
{
    let mut names = Items::new(alloc);
    let mut left = Some(bytes);
    while let Some(text) = left {
        let (line, rest) = cut_line(text);
        let name = without_end(without_front(line));
        if is_name(name) {
            if has_wildcard(name) {
                return Err(ObjFault::Unsupported(Feature::Wildcard));
            }
            names.push(Bytes::from_slice(alloc, name)?)?;
        }
        left = rest;
    }
    Ok(names)
}
