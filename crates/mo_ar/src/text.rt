//! The texts in a member's header (ar(5)).

ghost use Rattle.std.specs.Prelude.{◌≡◌, ◌≤◌, ◌<◌, ◌^◌, length, take, IfSome};
ghost use Rattle.mo_ar.specs.Text as texts;

/// How many bytes of a text stand before the padding at its end.
#[tactic(auto, using(crate::proofs::TextLemmas::trims))]
pub fn trimmed_len(text: &[u8], padding: u8) -> usize
    ensures exact { take result text.now ≡ texts.trimmed padding text.now }
    ensures within { result ≤ length text.now }
{
    let mut end = text.len();
    while end > 0 && text[end - 1] == padding {
        end -= 1;
    }
    end
}

/// The number that up to 16 decimal digits spell.
#[tactic(auto, using(crate::proofs::TextLemmas::digits))]
pub fn decimal(text: &[u8]) -> Option<u64>
    requires { length text.now ≤ 16 }
    ensures value { result ≡ texts.decimal text.now }
    ensures few { IfSome result (λ n. n < 10 ^ 16) }
{
    if text.is_empty() {
        return None;
    }
    let mut number = 0;
    for digit in text {
        if !digit.is_ascii_digit() {
            return None;
        }
        number = 10 * number + u64::from(*digit - b'0');
    }
    Some(number)
}
