//! Pointers of an image, which are read as its loader reads them.
use anyhow::Result;
use image_read::{FixupRead, fixup_at};
use std::fs;

// How many pointers of each kind there are.
#[derive(Clone, Copy, Debug, Default)]
struct Tally {
    rebased: u64,
    bound: u64,
    plain: u64,
    broken: u64,
}

impl Tally {
    fn count(&mut self, fixup: FixupRead) {
        let count = match fixup {
            FixupRead::Rebase { .. } => &mut self.rebased,
            FixupRead::Bind { .. } => &mut self.bound,
            FixupRead::Plain => &mut self.plain,
            FixupRead::Broken => &mut self.broken,
        };
        *count = count.saturating_add(1);
    }
}

fn count_fixups(image: &[u8], first: u64, count: u64) -> Tally {
    let mut tally = Tally::default();
    for k in 0..count {
        tally.count(fixup_at(image, first.saturating_add(k.saturating_mul(8))));
    }
    tally
}

/// Prints how many of an image's pointers from an address on the loader rebases, binds, leaves as they are, and can't
/// read.
pub(crate) fn read_fixups(rt: &HostRuntime, path: &str, first: u64, count: u64) -> Result<()> {
    let image = fs::read(rt, path)?;
    let Tally {
        rebased,
        bound,
        plain,
        broken,
    } = count_fixups(image.as_slice(), first, count);
    println!(rt; "{rebased} rebased, {bound} bound, {plain} plain, {broken} broken")?;
    Ok(())
}
