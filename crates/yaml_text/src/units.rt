//! What stands between quotes, unit by unit.

ghost use Rattle.std.specs.Prelude.{◌≡◌, ◌<◌, ◌≤◌, ◌+◌, length, zero, suc};
ghost use Rattle.yaml_text.specs.Scalars as scalars;
ghost use Rattle.yaml_text.specs.inner.Units.{IsUnit};

use crate::lines::begins_with;

/// What stands first in a quoted scalar.
#[derive(Clone, Copy, Debug, PartialEq, Eq)]
pub enum QuotedUnit {
    /// The closing quote.
    Closing,
    /// Some bytes that mean one.
    Meant { byte: u8, size: usize },
    /// Some bytes that mean nothing.
    Unknown { size: usize },
}

fn hex_value(byte: u8) -> u8
    ensures exact { result ≡ scalars.hex_value byte }
    ensures within { result ≤ 16 }
{
    if 0x2f < byte && byte < 0x3a {
        byte - 0x30
    } else if 0x40 < byte && byte < 0x47 {
        byte - 0x37
    } else if 0x60 < byte && byte < 0x67 {
        byte - 0x57
    } else {
        16
    }
}

fn hex_unit(text: &[u8]) -> QuotedUnit
    ensures exact { result ≡ scalars.hex_unit text.now }
    ensures unit { IsUnit (2 + length text.now) result }
{
    match text {
        [high, low, ..] => {
            let high = hex_value(*high);
            let low = hex_value(*low);
            if high < 8 && low < 16 {
                QuotedUnit::Meant {
                    byte: 16 * high + low,
                    size: 4,
                }
            } else {
                QuotedUnit::Unknown { size: 2 }
            }
        }
        _ => QuotedUnit::Unknown { size: 2 },
    }
}

#[tactic(auto, unfolding(crate::specs::Scalars::escape))]
fn escape(text: &[u8]) -> QuotedUnit
    ensures exact { result ≡ scalars.escape text.now }
    ensures unit { IsUnit (1 + length text.now) result }
{
    match text {
        [] => QuotedUnit::Unknown { size: 1 },
        [b'\\', ..] => meant(b'\\'),
        [b'"', ..] => meant(b'"'),
        [b'n', ..] => meant(b'\n'),
        [b't', ..] => meant(b'\t'),
        [b'0', ..] => meant(0),
        [b'x', rest @ ..] => hex_unit(rest),
        _ => QuotedUnit::Unknown { size: 2 },
    }
}

fn meant(byte: u8) -> QuotedUnit
    ensures { result ≡ QuotedUnit.Meant byte 2 }
{
    QuotedUnit::Meant { byte, size: 2 }
}

/// The unit that a byte begins, between quotes.
#[tactic(auto, unfolding(crate::specs::Scalars::unit_of))]
pub fn unit_of(quote: u8, byte: u8, rest: &[u8]) -> QuotedUnit
    ensures exact { result ≡ scalars.unit_of quote byte rest.now }
    ensures unit { IsUnit (1 + length rest.now) result }
{
    if byte == quote {
        if quote == b'\'' && begins_with(b'\'', rest) {
            QuotedUnit::Meant {
                byte: b'\'',
                size: 2,
            }
        } else {
            QuotedUnit::Closing
        }
    } else if quote == b'"' && byte == b'\\' {
        escape(rest)
    } else {
        QuotedUnit::Meant { byte, size: 1 }
    }
}
