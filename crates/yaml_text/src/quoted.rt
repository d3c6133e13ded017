//! Quoted scalars.

ghost use Rattle.std.specs.Prelude.{◌≡◌, ◌+◌, ◌^◌, ◌++◌, ◌<◌, ◌≤◌, IfOk, IfSome, OnOk, Some, drop, length};
ghost use Rattle.std.specs.Option.{option_map};
ghost use Rattle.yaml_text.specs.Scalars as scalars;
ghost use Rattle.yaml_text.specs.inner.Units as units;
ghost use Rattle.yaml_text.specs.inner.Units.{IsSpan, quoted_in};

use crate::units::{QuotedUnit, unit_of};
use mo_types::{Bytes, OutOfMemory};
use std::alloc::Global;

/// A quoted scalar of a line: what it means, whether all its escapes are known, and the place in the line of what
/// follows it.
#[derive(Debug, Drop)]
pub struct QuotedText {
    pub text: Bytes,
    pub known: bool,
    pub rest: usize,
}

/// Where a quoted scalar ends: how many bytes stand before its closing quote, whether all its escapes are known, and
/// whether each of these bytes stands for itself.
#[derive(Clone, Copy, Debug)]
pub struct Span {
    pub size: usize,
    pub known: bool,
    pub plain: bool,
}

// The span with a unit more; `None` where the unit closes the scalar.
fn with_unit(span: Span, byte: u8, unit: QuotedUnit) -> Option<Span>
    requires { span.size + units.size_of unit < 2 ^ 63 }
    ensures { result ≡ units.with_unit span byte unit }
{
    match unit {
        QuotedUnit::Closing => None,
        QuotedUnit::Meant { byte: meant, size } => Some(Span {
            size: span.size + size,
            known: span.known,
            plain: span.plain && size == 1 && meant == byte,
        }),
        QuotedUnit::Unknown { size } => Some(Span {
            size: span.size + size,
            known: false,
            plain: false,
        }),
    }
}

/// Finds the closing quote of a scalar whose opening quote stands before the text.
#[tactic(auto, using(crate::proofs::QuotedLemmas::spans))]
fn span_of(quote: u8, text: &[u8]) -> Option<Span>
    ensures span { IsSpan text.now result (scalars.quoted_of quote text.now) }
    ensures within { IfSome result (λ span. span.size < length text.now) }
{
    let mut span = Span {
        size: 0,
        known: true,
        plain: true,
    };
    while span.size < text.len() {
        let byte = text[span.size];
        let unit = unit_of(quote, byte, &text[span.size + 1..]);
        match with_unit(span, byte, unit) {
            Some(longer) => span = longer,
            None => return Some(span),
        }
    }
    None
}

fn push_meant(bytes: &mut Vec<u8>, unit: QuotedUnit) -> Result<(), OutOfMemory>
    ensures { OnOk result (bytes.new.items ≡ bytes.old.items ++ units.meant_bytes unit) }
{
    if let QuotedUnit::Meant { byte, size: _ } = unit {
        bytes.push(byte)?;
    }
    Ok(())
}

fn size_of(unit: QuotedUnit) -> usize
    ensures { result ≡ units.size_of unit }
{
    match unit {
        QuotedUnit::Closing => 1,
        QuotedUnit::Meant { byte: _, size } => size,
        QuotedUnit::Unknown { size } => size,
    }
}

fn is_closing(unit: QuotedUnit) -> bool
    ensures { result ≡ units.is_closing unit }
{
    matches!(unit, QuotedUnit::Closing)
}

/// What a quoted scalar means, whose opening quote stands before the text.
#[tactic(auto, using(crate::proofs::QuotedLemmas::texts_read))]
fn meant_text(alloc: Global, quote: u8, text: &[u8]) -> Result<Vec<u8>, OutOfMemory>
    ensures { IfOk result (λ bytes. IfSome (scalars.quoted_of quote text.now) (λ quoted. bytes.items ≡ quoted.text)) }
{
    let mut bytes = Vec::new(alloc);
    let mut at = 0;
    while at < text.len() {
        let unit = unit_of(quote, text[at], &text[at + 1..]);
        if is_closing(unit) {
            return Ok(bytes);
        }
        push_meant(&mut bytes, unit)?;
        at += size_of(unit);
    }
    Ok(bytes)
}

// What the quoted scalar of a span means: a part of the line where each byte stands for itself.
#[tactic(auto, using(crate::proofs::QuotedLemmas::parts))]
fn text_of(
    alloc: Global,
    line: &Bytes,
    quote: u8,
    at: usize,
    span: Span,
) -> Result<Bytes, OutOfMemory>
    requires within { at + span.size ≤ length line.now }
    requires span { IsSpan (drop at line.now) (Some span) (scalars.quoted_of quote (drop at line.now)) }
    ensures { IfOk result (λ text. IfSome (scalars.quoted_of quote (drop at line.now)) (λ quoted. text ≡ quoted.text)) }
{
    if span.plain {
        return line.part(at, span.size);
    }
    Bytes::from_vec(meant_text(alloc, quote, &line.as_slice()[at..])?)
}

/// The quoted scalar whose text begins at a place in a line, behind its opening quote; `None` where the line doesn't
/// close it.
#[tactic(auto, using(crate::proofs::QuotedLemmas::parts))]
pub fn quoted_of(
    alloc: Global,
    line: &Bytes,
    quote: u8,
    at: usize,
) -> Result<Option<QuotedText>, OutOfMemory>
    requires { at ≤ length line.now }
    ensures exact { IfOk result (λ quoted. option_map (quoted_in line.now) quoted ≡ scalars.quoted_of quote (drop at line.now)) }
    ensures within { IfOk result (λ quoted. IfSome quoted (λ quoted. (at < quoted.rest) × (quoted.rest ≤ length line.now))) }
{
    match span_of(quote, &line.as_slice()[at..]) {
        None => Ok(None),
        Some(span) => {
            let text = text_of(alloc, line, quote, at, span)?;
            Ok(Some(QuotedText {
                text,
                known: span.known,
                rest: at + span.size + 1,
            }))
        }
    }
}
