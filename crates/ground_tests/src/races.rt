//! The words of small races, counted by hand.
ghost use Rattle.std.specs.Prelude.{◌<◌};

use race_core::{Offer, replay};

const NONE: u64 = u64::MAX;

fn offer(i: u32) -> Offer
    ensures { result.name < 3 }
{
    let (worker, name, word) = match i {
        0 => (0, 0, 7),
        1 => (1, 0, 5),
        2 => (1, 2, 9),
        _ => (0, 0, 5),
    };
    Offer { worker, name, word }
}

// Whether four offers leave these words in the order of their numbers.
fn is_settled(a: u32, b: u32, c: u32, d: u32) -> bool {
    let events = [offer(a), offer(b), offer(c), offer(d)];
    let mut words = [NONE; 3];
    replay(&mut words, &events);
    words == [5, NONE, 9]
}

// In how many orders four offers leave those words.
pub(crate) fn settled_orders() -> u8 {
    let mut orders = 0u8;
    for a in 0..4u32 {
        for b in 0..4u32 {
            for c in 0..4u32 {
                if a == b || a == c || b == c {
                    continue;
                }
                if is_settled(a, b, c, 6 - (a + b + c)) {
                    orders = orders.saturating_add(1);
                }
            }
        }
    }
    orders
}

pub(crate) fn words_at_the_start_count() -> bool {
    let mut words = [3, 8];
    replay(&mut words, &[]);
    let are_kept = words == [3, 8];
    let events = [
        Offer {
            worker: 0,
            name: 0,
            word: 4,
        },
        Offer {
            worker: 0,
            name: 1,
            word: 0,
        },
    ];
    replay(&mut words, &events);
    are_kept && words == [3, 0]
}
