//! Where strings end.

ghost use Rattle.std.specs.Prelude.{◌≡◌, ◌<◌, length, IfSome};
ghost use Rattle.std.specs.Option.{option_map};
ghost use Rattle.mo_strings.specs.Strings as strings;

use memchr::memchr;

/// The place of the first NUL.
#[tactic(auto, using(crate::proofs::SearchLemmas::nuls), unfolding(crate::specs::Strings::first_nul))]
pub fn first_nul(bytes: &[u8]) -> Option<usize>
    ensures value { result ≡ strings.first_nul bytes.now }
    ensures within { IfSome result (λ at. at < length bytes.now) }
{
    memchr(0, bytes)
}

/// The string that begins at a place and ends before a NUL, or `None` where no NUL follows. It is looked for byte by
/// byte: `Strings` is for many strings of one table.
#[tactic(auto, using(crate::proofs::SearchLemmas::past), unfolding(crate::specs::Strings::string_at))]
pub fn string_at(bytes: &[u8], at: usize) -> Option<&[u8]>
    ensures { option_map (λ name. name.now) result ≡ strings.string_at bytes.now at }
{
    if bytes.len() < at {
        return None;
    }
    let rest = &bytes[at..];
    let end = first_nul(rest)?;
    Some(&rest[..end])
}
