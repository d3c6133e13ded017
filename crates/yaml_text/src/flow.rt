//! Flow lists.

ghost use Rattle.std.specs.Prelude.{◌≡◌, ◌+◌, ◌^◌, ◌==◌, ◌&&◌, ◌||◌, nat_lt, ◌<◌, ◌≤◌, true, false, if◌then◌else◌};
ghost use Rattle.std.specs.Prelude.{IfOk, IfSome, drop, length, slice_index, Ok, Err};
ghost use Rattle.std.specs.Option.{option_map};
ghost use Rattle.mo_types.specs.Gives.{Gives};
ghost use Rattle.yaml_text.specs.FaultText.{IsYamlFault};
ghost use Rattle.yaml_text.specs.Flow as flow;
ghost use Rattle.yaml_text.specs.inner.Tokens.{IsLexeme, IsNext};
ghost use Rattle.yaml_text.specs.inner.Units.{quoted_in};

use crate::characters::{is_blank, is_forbidden, is_quote};
use crate::fault::YamlFault;
use crate::file::{EventList, YamlEvent};
use crate::lines::{behind, blanks, is_ended};
use crate::quoted::{QuotedText, quoted_of};
use crate::scalars::{is_key_end, plain_from, plain_part};
use crate::token::Token;
use mo_types::{Bytes, OutOfMemory, Rule};
use std::alloc::Global;

/// A token, the place in the line behind it, and whether a `#` there begins a comment.
#[derive(Debug, Drop)]
pub struct Lexeme {
    pub token: Token,
    pub next: usize,
    pub spaced: bool,
}

/// Where a line stands to a flow list: the numbers of the line that opened the list and of the line itself.
#[derive(Clone, Copy, Debug)]
pub struct FlowPlace {
    pub opened: u32,
    pub line: u32,
}

/// A flow list on a line: the tree with its items so far, whether it wants a scalar, whether it is closed, and what was
/// at fault in its scalars on this line.
#[derive(Debug, Drop)]
pub struct FlowState {
    pub events: EventList,
    pub wants: bool,
    pub closed: bool,
    pub escaped: bool,
    pub spoiled: bool,
}

fn quoted_lexeme(line: &Bytes, at: usize, quoted: Option<QuotedText>) -> Lexeme
    requires inside { at < length line.now }
    requires rest { IfSome quoted (λ quoted. (at < quoted.rest) × (quoted.rest ≤ length line.now)) }
    ensures { IsLexeme line.now at result (flow.quoted_token (drop (at + 1) line.now) (option_map (quoted_in line.now) quoted)) }
{
    match quoted {
        None => Lexeme {
            token: Token::Unclosed,
            next: line.len(),
            spaced: false,
        },
        Some(quoted) => {
            let QuotedText { text, known, rest } = quoted;
            let token = if known {
                Token::Scalar(text)
            } else {
                Token::Escaped
            };
            Lexeme {
                token,
                next: rest,
                spaced: false,
            }
        }
    }
}

fn mark(token: Token, at: usize) -> Lexeme
    requires { at < 2 ^ 63 }
    ensures { result ≡ record { token = token; next = at + 1; spaced = false } }
{
    Lexeme {
        token,
        next: at + 1,
        spaced: false,
    }
}

fn forbidden_lexeme(at: usize, size: usize) -> Lexeme
    requires { at + size < 2 ^ 63 }
    ensures { result ≡ record { token = Token.Forbidden; next = at + size; spaced = true } }
{
    Lexeme {
        token: Token::Forbidden,
        next: at + size,
        spaced: true,
    }
}

fn plain_lexeme(text: Bytes, at: usize, size: usize) -> Lexeme
    requires { at + size < 2 ^ 63 }
    ensures { result ≡ record { token = Token.Scalar text; next = at + size; spaced = true } }
{
    Lexeme {
        token: Token::Scalar(text),
        next: at + size,
        spaced: true,
    }
}

/// The token that begins at a place in a line.
fn lexed(alloc: Global, line: &Bytes, at: usize, byte: u8) -> Result<Lexeme, OutOfMemory>
    requires within { at < length line.now }
    requires first { byte ≡ slice_index line.now at }
    ensures { IfOk result (λ lexeme. IsLexeme line.now at lexeme (flow.lexed byte (drop (at + 1) line.now))) }
{
    let text = behind(line, at);
    let rest = behind(line, at + 1);
    if byte == b',' {
        Ok(mark(Token::Comma, at))
    } else if byte == b']' {
        Ok(mark(Token::Close(is_ended(rest)), at))
    } else if is_key_end(text) {
        Ok(mark(Token::Colon, at))
    } else if is_quote(byte) {
        let quoted = quoted_of(alloc, line, byte, at + 1)?;
        Ok(quoted_lexeme(line, at, quoted))
    } else if is_forbidden(byte) {
        let size = plain_from(true, rest) + 1;
        Ok(forbidden_lexeme(at, size))
    } else {
        let size = plain_from(true, rest) + 1;
        let scalar = plain_part(line, at, size)?;
        Ok(plain_lexeme(scalar, at, size))
    }
}

// Whether a byte behind some blanks begins a comment.
fn begins_comment(byte: u8, spaced: bool, passed: usize) -> bool
    ensures { result ≡ (byte == 0x23 && (spaced || nat_lt 0 passed)) }
{
    byte == b'#' && (spaced || 0 < passed)
}

/// The next token of a line from a place on; `None` at its end and before a comment.
#[tactic(auto, using(crate::proofs::FlowLemmas::nexts))]
fn next_token(
    alloc: Global,
    line: &Bytes,
    at: usize,
    spaced: bool,
) -> Result<Option<Lexeme>, OutOfMemory>
    requires { at ≤ length line.now }
    ensures { IfOk result (λ lexeme. IsNext line.now at spaced lexeme) }
{
    let passed = blanks(behind(line, at));
    let place = at + passed;
    if place == line.len() {
        return Ok(None);
    }
    let byte = line.as_slice()[place];
    if begins_comment(byte, spaced, passed) {
        return Ok(None);
    }
    Ok(Some(lexed(alloc, line, place, byte)?))
}

// The fault of a token that doesn't belong where it stands.
fn flow_fault(place: FlowPlace) -> YamlFault
    ensures { result ≡ YamlFault.At place.opened Rule.Flow }
{
    YamlFault::At {
        line: place.opened,
        rule: Rule::Flow,
    }
}

// The fault of a quoted scalar without its end.
fn unclosed_fault(place: FlowPlace, wants: bool) -> YamlFault
    ensures { result ≡ (if wants then YamlFault.At place.line Rule.Quote else YamlFault.At place.opened Rule.Flow) }
{
    if wants {
        YamlFault::At {
            line: place.line,
            rule: Rule::Quote,
        }
    } else {
        flow_fault(place)
    }
}

// The list with the scalar that it wants.
fn filled(place: FlowPlace, state: FlowState) -> Result<FlowState, YamlFault>
    ensures { result ≡ (if state.wants then Ok (record state { wants = false }) else Err (YamlFault.At place.opened Rule.Flow)) }
{
    if !state.wants {
        return Err(flow_fault(place));
    }
    let mut state = state;
    state.wants = false;
    Ok(state)
}

fn with_token(place: FlowPlace, token: Token, state: FlowState) -> Result<FlowState, YamlFault>
    ensures { Gives IsYamlFault result (flow.with_token place token state) }
{
    let mut state = state;
    match token {
        Token::Colon => return Err(flow_fault(place)),
        Token::Comma => {
            if state.wants {
                return Err(flow_fault(place));
            }
            state.wants = true;
        }
        Token::Close(ended) => {
            if !ended {
                return Err(flow_fault(place));
            }
            state.events.push(YamlEvent::End)?;
            state.closed = true;
        }
        Token::Scalar(text) => {
            state = filled(place, state)?;
            state.events.push(YamlEvent::Scalar(text))?;
        }
        Token::Escaped => {
            state = filled(place, state)?;
            state.escaped = true;
        }
        Token::Forbidden => {
            state = filled(place, state)?;
            state.spoiled = true;
        }
        Token::Unclosed => return Err(unclosed_fault(place, state.wants)),
    }
    Ok(state)
}

fn settled(place: FlowPlace, state: FlowState) -> Result<FlowState, YamlFault>
    ensures { result ≡ flow.settled place state }
{
    if state.escaped {
        Err(YamlFault::At {
            line: place.line,
            rule: Rule::Escape,
        })
    } else if state.spoiled {
        Err(YamlFault::At {
            line: place.line,
            rule: Rule::Scalar,
        })
    } else {
        Ok(state)
    }
}

fn new_state(wants: bool, events: EventList) -> FlowState
    ensures { result ≡ flow.new_state wants events }
{
    FlowState {
        events,
        wants,
        closed: false,
        escaped: false,
        spoiled: false,
    }
}

/// Where the rest of a line begins, and whether a `#` there begins a comment.
#[derive(Clone, Copy, Debug)]
pub struct FlowStart {
    pub at: usize,
    pub spaced: bool,
}

/// Reads the rest of a line into an open flow list, which wants a scalar or doesn't.
#[tactic(auto, using(crate::proofs::FlowLemmas::flows))]
pub fn flow_of(
    alloc: Global,
    place: FlowPlace,
    line: &Bytes,
    start: FlowStart,
    wants: bool,
    events: EventList,
) -> Result<FlowState, YamlFault>
    requires { start.at ≤ length line.now }
    ensures { Gives IsYamlFault result (flow.flow_of place wants start.spaced events (drop start.at line.now)) }
{
    let mut state = new_state(wants, events);
    let mut at = start.at;
    let mut spaced = start.spaced;
    loop {
        match next_token(alloc, line, at, spaced)? {
            None => return settled(place, state),
            Some(lexeme) => {
                let Lexeme {
                    token,
                    next,
                    spaced: after,
                } = lexeme;
                state = with_token(place, token, state)?;
                if state.closed {
                    return settled(place, state);
                }
                at = next;
                spaced = after;
            }
        }
    }
}
