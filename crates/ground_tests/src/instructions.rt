//! The words are those of LLVM's assembler for arm64 (`llvm-mc -triple=arm64-apple-macos`).

use arm64_insn::{branch_of, low12_of, page_of, put_branch, put_low12, put_page};

// A word, how far its branch leads, and the word that does so.
const BRANCHES: [(u32, i64, u32); 5] = [
    (0x9400_0000, 134_217_724, 0x95ff_ffff), // bl
    (0x9400_0000, -134_217_728, 0x9600_0000), // bl
    (0x97ff_ffff, 4, 0x9400_0001), // bl
    (0x1400_0000, -4, 0x17ff_ffff), // b
    (0x1555_5555, 0, 0x1400_0000), // b
];

const FAR: [i64; 5] = [134_217_728, -134_217_732, 2, -1, 4_611_686_018_427_387_904];

// A word, by how many pages its target lies off, and the word that says so.
const PAGES: [(u32, i64, u32); 6] = [
    (0x9000_0010, -1_048_576, 0x9080_0010), // adrp x16
    (0x9000_0010, 1_048_575, 0xf07f_fff0), // adrp x16
    (0xf0ff_ffe0, 1, 0xb000_0000), // adrp x0
    (0x9000_0001, -1, 0xf0ff_ffe1), // adrp x1
    (0x9000_0002, 3, 0xf000_0002), // adrp x2
    (0x9000_0003, 4, 0x9000_0023), // adrp x3
];

// A word, its target, and the word with the target's place in its page.
const LOW_BITS: [(u32, u64, u32); 12] = [
    (0x9100_0020, 0x1_0000_4fff, 0x913f_fc20), // add x0, x1
    (0x1100_0062, 0x1_0000_4040, 0x1101_0062), // add w2, w3
    (0xb940_0020, 0x1_0000_4ffc, 0xb94f_fc20), // ldr w0, [x1]
    (0xf940_0062, 0x1_0000_4ff8, 0xf947_fc62), // ldr x2, [x3]
    (0x3dc0_0000, 0x1_0000_4ff0, 0x3dc3_fc00), // ldr q0, [x0]
    (0x3dc0_0000, 0x1_0000_4040, 0x3dc0_1000), // ldr q0, [x0]
    (0x3dbf_fc41, 0x1_0000_4030, 0x3d80_0c41), // str q1, [x2]
    (0x7d40_0083, 0x1_0000_4ffe, 0x7d5f_fc83), // ldr h3, [x4]
    (0x3d40_00c5, 0x1_0000_4fff, 0x3d7f_fcc5), // ldr b5, [x6]
    (0x3940_00c5, 0x1_0000_4fff, 0x397f_fcc5), // ldrb w5, [x6]
    (0x39c0_0041, 0x1_0000_4003, 0x39c0_0c41), // ldrsb w1, [x2]
    (0xb980_0041, 0x1_0000_4004, 0xb980_0441), // ldrsw x1, [x2]
];

const NO_STEPS: [(u32, u64); 4] = [
    (0x3dc0_0000, 0x1_0000_4048), // ldr q0, [x0]
    (0x3d80_0041, 0x1_0000_4008), // str q1, [x2]
    (0xf940_0062, 0x1_0000_4ffc), // ldr x2, [x3]
    (0x7d40_0083, 0x1_0000_4001), // ldr h3, [x4]
];

fn is_branch(word: u32, delta: i64, want: u32) -> bool {
    put_branch(word, delta) == Some(want) && branch_of(want) == delta
}

fn is_page(word: u32, pages: i64, want: u32) -> bool {
    put_page(word, pages) == Some(want) && page_of(want) == pages
}

fn is_low12(word: u32, target: u64, want: u32) -> bool {
    put_low12(word, target) == Some(want) && u64::from(low12_of(want)) == target & 0xfff
}

/// Whether branches have their words, and those that don't reach have none.
pub(crate) fn branches_are_written() -> bool {
    for (word, delta, want) in &BRANCHES {
        if !is_branch(*word, *delta, *want) {
            return false;
        }
    }
    for delta in &FAR {
        if put_branch(0x9400_0000, *delta).is_some() {
            return false;
        }
    }
    true
}

/// Whether pages have their words, and those too far have none.
pub(crate) fn pages_are_written() -> bool {
    for (word, pages, want) in &PAGES {
        if !is_page(*word, *pages, *want) {
            return false;
        }
    }
    put_page(0x9000_0010, 1_048_576).is_none() && put_page(0x9000_0010, -1_048_577).is_none()
}

/// Whether places in pages have their words, and those that are no steps of a load have none. The last step of a load of
/// four words lies beyond 12 bits.
pub(crate) fn low_bits_are_written() -> bool {
    for (word, target, want) in &LOW_BITS {
        if !is_low12(*word, *target, *want) {
            return false;
        }
    }
    for (word, target) in &NO_STEPS {
        if put_low12(*word, *target).is_some() {
            return false;
        }
    }
    low12_of(0x3dff_fc00) == 65_520
}
