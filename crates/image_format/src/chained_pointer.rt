ghost use Rattle.std.specs.Prelude.{◌≡◌, ◌<◌, ◌≤◌, ◌^◌, true};
ghost use Rattle.image_format.specs.ChainedPointer.{IsRebasePackable, rebase_word, rebase_of, IsBindPackable, bind_word, bind_of, is_bind};

/// A pointer on a chain to which the image's address is added (`fixup-chains.h`: `dyld_chained_ptr_64_rebase`, with the
/// pointer format `DYLD_CHAINED_PTR_64_OFFSET`). In a file it is the 8 bytes of its word, the lowest first.
#[derive(Clone, Copy, Debug, PartialEq, Eq)]
pub struct ChainedRebase {
    /// The offset of the target from the image's first address; 36 bits.
    pub target: u64,
    /// What the pointer has in its upper 8 bits.
    pub high8: u8,
    /// 0; 7 bits.
    pub reserved: u8,
    /// The distance to the next pointer of the chain in steps of 4 bytes, or 0 at its end; 12 bits.
    pub next: u16,
}

impl ChainedRebase {
    /// The fields of a word. The uppermost bit, which tells a bind from a rebase, isn't looked at.
    #[tactic(auto, unfolding(crate::specs::ChainedPointer::rebase_of))]
    pub fn of(word: u64) -> ChainedRebase
        ensures exact { result ≡ rebase_of word }
        ensures packable { IsRebasePackable result }
    {
        ChainedRebase {
            target: word % 0x10_0000_0000,
            high8: (word / 0x10_0000_0000 % 0x100) as u8,
            reserved: (word / 0x1000_0000_0000 % 0x80) as u8,
            next: (word / 0x8_0000_0000_0000 % 0x1000) as u16,
        }
    }

    /// The word with these fields.
    pub fn word(self) -> u64
        requires { IsRebasePackable self }
        ensures exact { result ≡ rebase_word self }
        ensures read_back { rebase_of result ≡ self }
        ensures is_rebase { result < 2 ^ 63 }
    {
        pack_rebase(self)
    }
}

// The bit fields as one number: the first field has the low bits.
fn pack_rebase(rebase: ChainedRebase) -> u64
    requires { IsRebasePackable rebase }
    ensures { result ≡ rebase_word rebase }
{
    rebase.target
        + 0x10_0000_0000 * u64::from(rebase.high8)
        + 0x1000_0000_0000 * u64::from(rebase.reserved)
        + 0x8_0000_0000_0000 * u64::from(rebase.next)
}

/// A pointer on a chain that gets the address of an import (`fixup-chains.h`: `dyld_chained_ptr_64_bind`). In a file it
/// is the 8 bytes of its word, the lowest first.
#[derive(Clone, Copy, Debug, PartialEq, Eq)]
pub struct ChainedBind {
    /// The number of the import from 0; 24 bits.
    pub ordinal: u32,
    /// What is added to the address.
    pub addend: u8,
    /// 0; 19 bits.
    pub reserved: u32,
    /// The distance to the next pointer of the chain in steps of 4 bytes, or 0 at its end; 12 bits.
    pub next: u16,
}

impl ChainedBind {
    /// The fields of a word. The uppermost bit, which tells a bind from a rebase, isn't looked at.
    #[tactic(auto, unfolding(crate::specs::ChainedPointer::bind_of))]
    pub fn of(word: u64) -> ChainedBind
        ensures exact { result ≡ bind_of word }
        ensures packable { IsBindPackable result }
    {
        ChainedBind {
            ordinal: (word % 0x100_0000) as u32,
            addend: (word / 0x100_0000 % 0x100) as u8,
            reserved: (word / 0x1_0000_0000 % 0x8_0000) as u32,
            next: (word / 0x8_0000_0000_0000 % 0x1000) as u16,
        }
    }

    /// The word with these fields.
    pub fn word(self) -> u64
        requires { IsBindPackable self }
        ensures exact { result ≡ bind_word self }
        ensures read_back { bind_of result ≡ self }
        ensures is_bind { is_bind result ≡ true }
    {
        pack_bind(self)
    }
}

fn pack_bind(bind: ChainedBind) -> u64
    requires { IsBindPackable bind }
    ensures { result ≡ bind_word bind }
{
    u64::from(bind.ordinal)
        + 0x100_0000 * u64::from(bind.addend)
        + 0x1_0000_0000 * u64::from(bind.reserved)
        + 0x8_0000_0000_0000 * u64::from(bind.next)
        + 0x8000_0000_0000_0000
}
