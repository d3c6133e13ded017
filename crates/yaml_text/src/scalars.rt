//! Plain scalars, keys, and scalars at the end of a line.

ghost use Rattle.std.specs.Prelude.{◌≡◌, ◌+◌, ◌<◌, ◌≤◌, IfOk, IfSome, Some, false, drop, take, length};
ghost use Rattle.std.specs.Option.{option_map};
ghost use Rattle.mo_types.specs.Gives.{Gives};
ghost use Rattle.yaml_text.specs.FaultText.{IsYamlFault};
ghost use Rattle.yaml_text.specs.Lines as lines;
ghost use Rattle.yaml_text.specs.Scalars as scalars;
ghost use Rattle.yaml_text.specs.inner.Units.{keyed_in, quoted_in};

use crate::characters::{is_blank, is_forbidden, is_quote};
use crate::fault::YamlFault;
use crate::lines::{is_empty, is_ended, trimmed_size};
use crate::quoted::{QuotedText, quoted_of};
use mo_types::{Bytes, OutOfMemory, Rule};
use std::alloc::Global;

fn is_separator(text: &[u8]) -> bool
    ensures { result ≡ scalars.is_separator text.now }
{
    match text {
        [] => true,
        [byte, ..] => *byte == b' ',
    }
}

/// Whether a text begins with a colon that ends a key.
pub fn is_key_end(text: &[u8]) -> bool
    ensures { result ≡ scalars.is_key_end text.now }
{
    match text {
        [] => false,
        [byte, rest @ ..] => *byte == b':' && is_separator(rest),
    }
}

fn ends_plain(in_flow: bool, spaced: bool, byte: u8, rest: &[u8]) -> bool
    ensures { result ≡ scalars.ends_plain in_flow spaced byte rest.now }
{
    (byte == b':' && is_separator(rest))
        || (byte == b'#' && spaced)
        || (in_flow && (byte == b',' || byte == b']'))
}

/// How many bytes stand before the end of a plain scalar, the blanks before its end among them.
#[tactic(auto, using(crate::proofs::PlainLemmas::plains))]
pub fn plain_from(in_flow: bool, text: &[u8]) -> usize
    ensures exact { result ≡ scalars.plain_from in_flow false text.now }
    ensures within { result ≤ length text.now }
{
    let mut spaced = false;
    let mut at = 0;
    while at < text.len() {
        let byte = text[at];
        if ends_plain(in_flow, spaced, byte, &text[at + 1..]) {
            return at;
        }
        spaced = is_blank(byte);
        at += 1;
    }
    at
}

/// The scalar of so many bytes from a place in a line on, without the blanks at its end.
#[tactic(auto, using(crate::proofs::PlainLemmas::parts))]
pub fn plain_part(line: &Bytes, at: usize, size: usize) -> Result<Bytes, OutOfMemory>
    requires { at + size ≤ length line.now }
    ensures { IfOk result (λ part. part ≡ lines.trimmed (take size (drop at line.now))) }
{
    let kept = trimmed_size(&line.as_slice()[at..at + size]);
    line.part(at, kept)
}

/// A key of a line, and the place of what follows its colon.
#[derive(Debug, Drop)]
pub struct KeyText {
    pub name: Bytes,
    pub rest: usize,
}

#[tactic(auto, using(crate::proofs::PlainLemmas::keys))]
fn quoted_key(line: &Bytes, quoted: QuotedText) -> Option<KeyText>
    requires { quoted.rest ≤ length line.now }
    ensures exact { option_map (keyed_in line.now) result ≡ scalars.quoted_key (Some (quoted_in line.now quoted)) }
    ensures within { IfSome result (λ key. key.rest ≤ length line.now) }
{
    let QuotedText { text, known, rest } = quoted;
    if known && is_key_end(&line.as_slice()[rest..]) {
        Some(KeyText {
            name: text,
            rest: rest + 1,
        })
    } else {
        None
    }
}

#[tactic(auto, using(crate::proofs::PlainLemmas::keys))]
fn plain_key(line: &Bytes, at: usize, size: usize) -> Result<Option<KeyText>, OutOfMemory>
    requires { at + size ≤ length line.now }
    ensures exact { IfOk result (λ key. option_map (keyed_in line.now) key ≡ scalars.plain_key size (drop at line.now)) }
    ensures within { IfOk result (λ key. IfSome key (λ key. key.rest ≤ length line.now)) }
{
    if size > 0 && is_key_end(&line.as_slice()[at + size..]) {
        let name = plain_part(line, at, size)?;
        Ok(Some(KeyText {
            name,
            rest: at + size + 1,
        }))
    } else {
        Ok(None)
    }
}

/// The key that stands at a place in a line.
#[tactic(auto, using(crate::proofs::PlainLemmas::keys), unfolding(crate::specs::Scalars::key_of, crate::specs::Scalars::plain_size))]
pub fn key_of(alloc: Global, line: &Bytes, at: usize) -> Result<Option<KeyText>, OutOfMemory>
    requires { at ≤ length line.now }
    ensures exact { IfOk result (λ key. option_map (keyed_in line.now) key ≡ scalars.key_of (drop at line.now)) }
    ensures within { IfOk result (λ key. IfSome key (λ key. key.rest ≤ length line.now)) }
{
    let text = &line.as_slice()[at..];
    if is_empty(text) {
        return Ok(None);
    }
    let byte = text[0];
    if is_quote(byte) {
        match quoted_of(alloc, line, byte, at + 1)? {
            None => Ok(None),
            Some(quoted) => Ok(quoted_key(line, quoted)),
        }
    } else if is_forbidden(byte) {
        Ok(None)
    } else {
        plain_key(line, at, plain_from(false, text))
    }
}

fn quoted_alone(line: &Bytes, quoted: Option<QuotedText>, number: u32) -> Result<Bytes, YamlFault>
    requires { IfSome quoted (λ quoted. quoted.rest ≤ length line.now) }
    ensures { result ≡ scalars.quoted_alone number (option_map (quoted_in line.now) quoted) }
{
    match quoted {
        None => Err(YamlFault::At {
            line: number,
            rule: Rule::Quote,
        }),
        Some(quoted) => {
            let QuotedText { text, known, rest } = quoted;
            if !is_ended(&line.as_slice()[rest..]) {
                Err(YamlFault::At {
                    line: number,
                    rule: Rule::Key,
                })
            } else if !known {
                Err(YamlFault::At {
                    line: number,
                    rule: Rule::Escape,
                })
            } else {
                Ok(text)
            }
        }
    }
}

fn plain_alone(line: &Bytes, at: usize, size: usize, number: u32) -> Result<Bytes, YamlFault>
    requires { at + size ≤ length line.now }
    ensures { Gives IsYamlFault result (scalars.plain_alone number size (drop at line.now)) }
{
    if is_key_end(&line.as_slice()[at + size..]) {
        Err(YamlFault::At {
            line: number,
            rule: Rule::Key,
        })
    } else {
        Ok(plain_part(line, at, size)?)
    }
}

/// The scalar that stands at a place in a line, alone on the rest of the line.
#[tactic(auto, using(crate::proofs::PlainLemmas::keys), unfolding(crate::specs::Scalars::scalar_of, crate::specs::Scalars::plain_size))]
pub fn scalar_of(alloc: Global, line: &Bytes, at: usize, number: u32) -> Result<Bytes, YamlFault>
    requires { at ≤ length line.now }
    ensures { Gives IsYamlFault result (scalars.scalar_of number (drop at line.now)) }
{
    let text = &line.as_slice()[at..];
    if is_empty(text) {
        return Ok(Bytes::new());
    }
    let byte = text[0];
    if is_quote(byte) {
        let quoted = quoted_of(alloc, line, byte, at + 1)?;
        quoted_alone(line, quoted, number)
    } else if is_forbidden(byte) {
        Err(YamlFault::At {
            line: number,
            rule: Rule::Scalar,
        })
    } else {
        plain_alone(line, at, plain_from(false, text), number)
    }
}
