//! sleb128 (DWARF 5, section 7.6).

ghost use Rattle.std.specs.Prelude.{◌≡◌, ◌+◌, ◌*◌, ◌^◌, ◌<◌, ◌≤◌, length, IfSome};
ghost use Rattle.dyld_ops.specs.Sleb as slebs;
ghost use Rattle.dyld_ops.specs.Sleb.{AreGroups};

/// The most bytes that a number of 64 bits takes where no byte is spent in vain.
const MOST_BYTES: usize = 10;

// The groups that the bytes begin with, as one number, and how many they are.
#[tactic(auto, using(crate::proofs::SlebLemmas::groups))]
fn groups_within(bytes: &[u8], most: usize) -> Option<(u128, usize)>
    requires { most ≤ 10 }
    ensures exact { result ≡ slebs.groups_within most bytes.now }
    ensures groups { IfSome result (AreGroups most bytes.now) }
{
    match bytes {
        [byte, ..] if most > 0 && *byte < 0x80 => Some((u128::from(*byte), 1)),
        [byte, rest @ ..] if most > 0 => {
            let (high, count) = groups_within(rest, most - 1)?;
            Some((u128::from(*byte - 0x80) + 0x80 * high, count + 1))
        }
        _ => None,
    }
}

// A number of so many groups in two's complement.
#[tactic(auto, using(crate::proofs::SlebLemmas::signs), unfolding(crate::specs::Sleb::signed_64))]
fn signed_64(number: u128, count: usize) -> Option<i64>
    requires few { count ≤ 10 }
    requires small { number < 2 ^ (7 * count) }
    ensures { result ≡ slebs.signed_64 (7 * count) number }
{
    let end = 1u128 << (7 * count);
    if 2 * number < end {
        return i64::try_from(number).ok();
    }
    let below = i64::try_from(end - 1 - number).ok()?;
    Some(-1 - below)
}

/// The number at `at` and the place after it, or `None` exactly where no whole sleb128 of at most ten bytes stands there
/// that is a number of 64 bits.
#[tactic(auto, using(crate::proofs::SlebLemmas::sleb_past), unfolding(crate::specs::Sleb::sleb_at))]
pub fn sleb_read(bytes: &[u8], at: usize) -> Option<(i64, usize)>
    ensures exact { result ≡ slebs.sleb_at bytes.now at }
    ensures within { IfSome result (λ found. (at < found.1) × (found.1 ≤ length bytes.now)) }
{
    if at > bytes.len() {
        return None;
    }
    let (groups, count) = groups_within(&bytes[at..], MOST_BYTES)?;
    let number = signed_64(groups, count)?;
    Some((number, at + count))
}
