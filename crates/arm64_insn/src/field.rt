//! Runs of bits of an instruction word, and signed numbers in them.

ghost use Rattle.std.specs.Prelude.{◌≡◌, ◌+◌, ◌<◌, ◌≤◌, ◌^◌, ◌≤ℤ◌, ◌<ℤ◌, neg_ℤ, pos};

/// A field of an instruction word: `width` bits, of which the lowest is bit `low`.
#[derive(Clone, Copy)]
pub struct BitField {
    pub low: u32,
    pub width: u32,
    ghost begins_in_word: { low < 32 },
    ghost ends_in_word: { low + width ≤ 32 },
    ghost narrow: { width < 32 },
}

impl BitField {
    ghost use Rattle.arm64_insn.specs.Field.{field_at, with_field};

    /// The value of the field in a word.
    pub fn read(self, word: u32) -> u32
        ensures value { result ≡ field_at self.low self.width word }
        ensures fits { result < 2 ^ self.width }
    {
        word >> self.low & ((1 << self.width) - 1)
    }

    /// The word with this value in the field, and every other bit as before.
    pub fn write(self, word: u32, value: u32) -> u32
        requires { value < 2 ^ self.width }
        ensures { result ≡ with_field self.low self.width word value }
    {
        let mask = ((1 << self.width) - 1) << self.low;
        word & !mask | value << self.low
    }
}

ghost use Rattle.arm64_insn.specs.Field.{twos_complement, sign_extended};

/// The low `width` bits of the two's complement of `number`.
pub fn twos_complement(number: i64, width: u32) -> u32
    requires { width < 32 }
    ensures value { result ≡ twos_complement width number }
    ensures fits { result < 2 ^ width }
{
    (number.cast_unsigned() & ((1 << width) - 1)) as u32
}

/// The signed number whose two's complement in `width` bits is `bits`.
pub fn sign_extended(bits: u32, width: u32) -> i64
    requires some_bits { 0 < width }
    requires in_word { width < 32 }
    requires fits { bits < 2 ^ width }
    ensures value { result ≡ sign_extended width bits }
    ensures least { neg_ℤ (pos (2 ^ 31)) ≤ℤ result }
    ensures greatest { result <ℤ pos (2 ^ 31) }
{
    if bits < 1 << (width - 1) {
        i64::from(bits)
    } else {
        i64::from(bits) - (1 << width)
    }
}
