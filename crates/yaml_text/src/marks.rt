//! The lines that open and end documents, and items.

ghost use Rattle.std.specs.Prelude.{◌≡◌, ◌+◌, ◌≤◌, length, IfOk, IfSome, take, drop};
ghost use Rattle.std.specs.Option.{option_map};
ghost use Rattle.yaml_text.specs.Lines as lines;

use crate::characters::is_blank;
use crate::lines::{is_bare, is_ended, without_blanks, word_size};
use mo_types::{Bytes, OutOfMemory};
use std::alloc::Global;

fn tag_in(text: &[u8]) -> Option<&[u8]>
    ensures { option_map (λ tag. tag.now) result ≡ lines.tag_in text.now }
{
    let size = word_size(text);
    if is_bare(&text[size..]) {
        Some(&text[..size])
    } else {
        None
    }
}

fn tag_after(text: &[u8]) -> Option<&[u8]>
    ensures { option_map (λ tag. tag.now) result ≡ lines.tag_after text.now }
{
    match text {
        [] => Some(text),
        [byte, rest @ ..] => {
            if !is_blank(*byte) {
                None
            } else if is_bare(rest) {
                Some(&text[..0])
            } else {
                tag_in(without_blanks(rest))
            }
        }
    }
}

/// The tag of a line that opens a document.
#[tactic(auto, unfolding(crate::specs::Lines::tag_of))]
fn tag_text(line: &[u8]) -> Option<&[u8]>
    ensures { option_map (λ tag. tag.now) result ≡ lines.tag_of line.now }
{
    if line.starts_with(b"---") {
        tag_after(&line[3..])
    } else {
        None
    }
}

/// The tag of a line that opens a document, as a string of its own.
pub fn tag_of(alloc: Global, line: &[u8]) -> Result<Option<Bytes>, OutOfMemory>
    ensures { IfOk result (λ tag. tag ≡ lines.tag_of line.now) }
{
    match tag_text(line) {
        Some(tag) => Ok(Some(Bytes::from_slice(alloc, tag)?)),
        None => Ok(None),
    }
}

/// Whether a line is `...`.
#[tactic(auto, unfolding(crate::specs::Lines::is_end))]
pub fn is_end(line: &[u8]) -> bool
    ensures { result ≡ lines.is_end line.now }
{
    line.starts_with(b"...") && is_ended(&line[3..])
}

/// Whether a text begins an item of a block list.
#[tactic(auto, unfolding(crate::specs::Lines::is_item))]
pub fn is_item(text: &[u8]) -> bool
    ensures { result ≡ lines.is_item text.now }
{
    text.starts_with(b"- ")
}
