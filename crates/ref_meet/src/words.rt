//! The words of chains by their addresses.
ghost use Rattle.std.specs.Prelude.{◌≡◌, ◌≤◌, All, IfSome, IsTrue, MatchOption, None};
ghost use Rattle.ref_meet.specs.Mets as spec;
ghost use Rattle.ref_meet.specs.Ready.{AreInOrder};
ghost use Rattle.ref_meet.specs.inner.Words.{StandsAt};

use fixup_chain::ChainWord;

// Whether the word at a place stands at an address.
fn stands_at(words: &[ChainWord], address: u64, at: usize) -> bool
    ensures { IsTrue result → StandsAt words.now address at }
{
    match words.get(at) {
        Some(chained) => chained.address == address,
        None => false,
    }
}

// The place of the word at an address, if it is beside another one.
fn place_beside(words: &[ChainWord], address: u64, other: usize) -> Option<usize>
    ensures { IfSome result (StandsAt words.now address) }
{
    let (before, after) = (other.saturating_sub(1), other.saturating_add(1));
    if stands_at(words, address, before) {
        return Some(before);
    }
    if stands_at(words, address, after) {
        return Some(after);
    }
    None
}

// The place of the word at an address.
fn place_of(words: &[ChainWord], address: u64) -> Option<usize>
    requires { AreInOrder words.now }
    ensures { MatchOption result (spec.word_at words.now address ≡ None) (StandsAt words.now address) }
{
    match words.binary_search_by(|chained| chained.address.cmp(&address)) {
        Ok(at) => Some(at),
        Err(_) => None,
    }
}

// The same, where the word mostly stands beside another one.
fn place_near(words: &[ChainWord], address: u64, other: usize) -> Option<usize>
    requires { AreInOrder words.now }
    ensures { MatchOption result (spec.word_at words.now address ≡ None) (StandsAt words.now address) }
{
    match place_beside(words, address, other) {
        Some(at) => Some(at),
        None => place_of(words, address),
    }
}

/// The word at an address, which mostly stands beside the one that was sought last, at a place that is noted.
pub fn word_near(words: &[ChainWord], last: &mut usize, address: u64) -> Option<u64>
    requires { AreInOrder words.now }
    ensures { result ≡ spec.word_at words.now address }
{
    let at = place_near(words, address, *last)?;
    *last = at;
    Some(words[at].word)
}

/// The greatest address of a word, or 0.
pub(crate) fn last_address(words: &[ChainWord]) -> u64
    requires { AreInOrder words.now }
    ensures { All (λ chained. chained.address ≤ result) words.now }
{
    let count = words.len();
    if count == 0 {
        return 0;
    }
    words[count - 1].address
}
