//! Blanks and comments of a line.

ghost use Rattle.std.specs.Prelude.{◌≡◌, ◌+◌, ◌^◌, ◌<◌, ◌≤◌, length, drop};
ghost use Rattle.yaml_text.specs.Lines as lines;

use crate::characters::is_blank;
use mo_types::Bytes;

/// The bytes of a line from a place on.
#[tactic(auto, using(crate::proofs::LineLemmas::rests))]
pub fn behind(line: &Bytes, at: usize) -> &[u8]
    requires { at ≤ length line.now }
    ensures exact { result.now ≡ drop at line.now }
    ensures few { length line.now < 2 ^ 63 }
{
    &line.as_slice()[at..]
}

/// The bytes of a line behind an item's mark at a place.
#[tactic(auto, using(crate::proofs::LineLemmas::rests))]
pub fn behind_mark(line: &Bytes, at: usize) -> &[u8]
    requires { at + 2 ≤ length line.now }
    ensures exact { result.now ≡ drop (at + 2) line.now }
    ensures few { length line.now < 2 ^ 63 }
{
    &line.as_slice()[at + 2..]
}

/// How many spaces stand at the front of a text.
#[tactic(auto, using(crate::proofs::LineLemmas::fronts))]
pub fn spaces(text: &[u8]) -> usize
    ensures exact { result ≡ lines.spaces text.now }
    ensures within { result ≤ length text.now }
{
    let mut at = 0;
    while at < text.len() {
        if text[at] != b' ' {
            return at;
        }
        at += 1;
    }
    at
}

/// How many blanks stand at the front of a text.
#[tactic(auto, using(crate::proofs::LineLemmas::fronts))]
pub fn blanks(text: &[u8]) -> usize
    ensures exact { result ≡ lines.blanks text.now }
    ensures within { result ≤ length text.now }
{
    let mut at = 0;
    while at < text.len() {
        if !is_blank(text[at]) {
            return at;
        }
        at += 1;
    }
    at
}

/// How many bytes stand before the first blank.
#[tactic(auto, using(crate::proofs::LineLemmas::fronts))]
pub fn word_size(text: &[u8]) -> usize
    ensures exact { result ≡ lines.word_size text.now }
    ensures within { result ≤ length text.now }
{
    let mut at = 0;
    while at < text.len() {
        if is_blank(text[at]) {
            return at;
        }
        at += 1;
    }
    at
}

/// A text without the blanks at its front.
pub fn without_blanks(text: &[u8]) -> &[u8]
    ensures { result.now ≡ lines.without_blanks text.now }
{
    &text[blanks(text)..]
}

/// How many bytes a text has without the blanks at its end.
#[tactic(auto, using(crate::proofs::LineLemmas::trims))]
pub fn trimmed_size(text: &[u8]) -> usize
    ensures exact { result ≡ lines.trimmed_size text.now }
    ensures within { result ≤ length text.now }
{
    let mut size = 0;
    for (i, byte) in text.iter().enumerate() {
        if !is_blank(*byte) {
            size = i + 1;
        }
    }
    size
}

/// Whether a text begins with a byte.
pub fn begins_with(wanted: u8, text: &[u8]) -> bool
    ensures { result ≡ lines.begins_with wanted text.now }
{
    match text {
        [] => false,
        [byte, ..] => *byte == wanted,
    }
}

/// Whether a text has no byte.
pub fn is_empty(text: &[u8]) -> bool
    ensures { result ≡ lines.is_empty text.now }
{
    match text {
        [] => true,
        [_, ..] => false,
    }
}

/// Whether a text has nothing but blanks and a comment.
pub fn is_bare(text: &[u8]) -> bool
    ensures { result ≡ lines.is_bare text.now }
{
    let rest = without_blanks(text);
    is_empty(rest) || begins_with(b'#', rest)
}

/// Whether nothing but a comment follows what stands before a text.
pub fn is_ended(text: &[u8]) -> bool
    ensures { result ≡ lines.is_ended text.now }
{
    match text {
        [] => true,
        [byte, rest @ ..] => is_blank(*byte) && is_bare(rest),
    }
}
