//! Objects that clang made, with the unwind entries that llvm-objdump tells of them. Written by bench/clang_unwinds.py
//! from the sources in bench/clang.

use crate::made::Raw;

/// A section of an object.
pub struct ClangSection {
    /// Of the segment and of the section.
    pub names: (&'static [u8], &'static [u8]),
    /// The address, the size, and the alignment's exponent.
    pub place: (u64, u64, u8),
    /// The type, and the flags without it.
    pub flags: (u8, u32),
    /// The offsets of the contents and of the relocations in the file.
    pub offsets: (u64, u64),
    pub bytes: &'static [u8],
    pub relocs: &'static [Raw],
}

/// A place: its atom's section and offset, and the offset there.
pub type Place = (u16, u64, u64);

/// An entry: its place, length and encoding, the personality's symbol or its place, and the place of the lsda.
pub type UnwindRow = (
    u16,
    u64,
    u64,
    u32,
    u32,
    Option<u32>,
    Option<Place>,
    Option<Place>,
);

/// An object, and what it is to be read as.
pub struct ClangObject {
    pub subsections: bool,
    pub sections: &'static [ClangSection],
    /// Each symbol's name, section (0: undefined), value, and whether it is external and an alternative entry.
    pub symbols: &'static [(&'static [u8], u8, u64, bool, bool)],
    pub unwinds: &'static [UnwindRow],
}

pub static OBJECTS: [ClangObject; 3] = [
    // Of bench/clang/frames.cpp.
    ClangObject {
        subsections: true,
        sections: &[
            ClangSection {
                names: (b"__TEXT", b"__text"),
                place: (0x0, 0x104, 2),
                flags: (0x0, 0x80000400),
                offsets: (0x1d8, 0x3b8),
                bytes: b"\
\x00\x04\x00\x11\xc0\x03\x5f\xd6\xf4\x4f\xbe\xa9\xfd\x7b\x01\xa9\xfd\x43\x00\x91\xf3\x03\x00\xaa\
\x00\x00\x00\x94\xf4\x03\x00\xaa\x60\x06\x00\x11\x00\x00\x00\x94\x00\x00\x14\x0b\xfd\x7b\x41\xa9\
\xf4\x4f\xc2\xa8\xc0\x03\x5f\xd6\xff\xc3\x00\xd1\xf4\x4f\x01\xa9\xfd\x7b\x02\xa9\xfd\x83\x00\x91\
\x00\x00\x00\x94\xf3\x03\x00\xaa\xe0\x23\x00\x91\x00\x00\x00\x94\xe0\x03\x13\xaa\xfd\x7b\x42\xa9\
\xf4\x4f\x41\xa9\xff\xc3\x00\x91\xc0\x03\x5f\xd6\xf3\x03\x00\xaa\xe0\x23\x00\x91\x00\x00\x00\x94\
\xe0\x03\x13\xaa\x00\x00\x00\x94\xf4\x4f\xbe\xa9\xfd\x7b\x01\xa9\xfd\x43\x00\x91\x00\x00\x00\x94\
\xfd\x7b\x41\xa9\xf4\x4f\xc2\xa8\xc0\x03\x5f\xd6\x00\x00\x00\x94\x13\x00\x40\xb9\x00\x00\x00\x94\
\xe0\x03\x13\xaa\xf9\xff\xff\x17\xf4\x4f\xbe\xa9\xfd\x7b\x01\xa9\xfd\x43\x00\x91\xf4\x03\x00\xaa\
\x00\x0c\x00\x11\x00\x00\x00\x94\xf3\x03\x00\xaa\x80\x12\x00\x11\x00\x00\x00\x94\x00\x00\x13\x0b\
\xfd\x7b\x41\xa9\xf4\x4f\xc2\xa8\xc0\x03\x5f\xd6\x00\x00\x00\x94\x00\x00\x00\x94\xe0\x00\x80\x52\
\xf9\xff\xff\x17\x00\x00\x00\x94\x00\x00\x00\x94\xf3\x00\x80\x52\xf3\xff\xff\x17",
                relocs: &[
                    (2, 0xf8, 15, true, 2, true),
                    (2, 0xf4, 14, true, 2, true),
                    (2, 0xe8, 15, true, 2, true),
                    (2, 0xe4, 14, true, 2, true),
                    (2, 0xd0, 17, true, 2, true),
                    (2, 0xc4, 17, true, 2, true),
                    (2, 0xa4, 15, true, 2, true),
                    (2, 0x9c, 14, true, 2, true),
                    (2, 0x8c, 17, true, 2, true),
                    (2, 0x7c, 11, true, 2, true),
                    (2, 0x74, 12, true, 2, true),
                    (2, 0x54, 12, true, 2, true),
                    (2, 0x48, 17, true, 2, true),
                    (2, 0x24, 17, true, 2, true),
                    (2, 0x18, 17, true, 2, true),
                ],
            },
            ClangSection {
                names: (b"__TEXT", b"__gcc_except_tab"),
                place: (0x104, 0x38, 2),
                flags: (0x0, 0x0),
                offsets: (0x2dc, 0x430),
                bytes: b"\
\xff\xff\x01\x08\x10\x04\x34\x00\x14\x34\x00\x00\xff\x9b\x11\x01\x08\x0c\x04\x1c\x01\x10\x20\x00\
\x00\x01\x00\x00\xe4\xff\xff\xff\xff\x9b\x15\x01\x0c\x14\x04\x44\x01\x20\x04\x34\x01\x24\x30\x00\
\x00\x01\x00\x00\x00\x00\x00\x00",
                relocs: &[(7, 0x1c, 13, true, 2, true)],
            },
            ClangSection {
                names: (b"__LD", b"__compact_unwind"),
                place: (0x140, 0xa0, 3),
                flags: (0x0, 0x2000000),
                offsets: (0x318, 0x438),
                bytes: b"\
\x00\x00\x00\x00\x00\x00\x00\x00\x08\x00\x00\x00\x00\x00\x00\x02\x00\x00\x00\x00\x00\x00\x00\x00\
\x00\x00\x00\x00\x00\x00\x00\x00\x08\x00\x00\x00\x00\x00\x00\x00\x30\x00\x00\x00\x01\x00\x00\x04\
\x00\x00\x00\x00\x00\x00\x00\x00\x00\x00\x00\x00\x00\x00\x00\x00\x38\x00\x00\x00\x00\x00\x00\x00\
\x48\x00\x00\x00\x01\x00\x00\x44\x00\x00\x00\x00\x00\x00\x00\x00\x04\x01\x00\x00\x00\x00\x00\x00\
\x80\x00\x00\x00\x00\x00\x00\x00\x30\x00\x00\x00\x01\x00\x00\x44\x00\x00\x00\x00\x00\x00\x00\x00\
\x10\x01\x00\x00\x00\x00\x00\x00\xb0\x00\x00\x00\x00\x00\x00\x00\x54\x00\x00\x00\x01\x00\x00\x44\
\x00\x00\x00\x00\x00\x00\x00\x00\x24\x01\x00\x00\x00\x00\x00\x00",
                relocs: &[
                    (0, 0x98, 2, false, 3, false),
                    (0, 0x90, 16, false, 3, true),
                    (0, 0x80, 1, false, 3, false),
                    (0, 0x78, 2, false, 3, false),
                    (0, 0x70, 16, false, 3, true),
                    (0, 0x60, 1, false, 3, false),
                    (0, 0x58, 2, false, 3, false),
                    (0, 0x50, 16, false, 3, true),
                    (0, 0x40, 1, false, 3, false),
                    (0, 0x20, 1, false, 3, false),
                    (0, 0x0, 1, false, 3, false),
                ],
            },
        ],
        symbols: &[
            (b"ltmp0", 1, 0x0, false, false),
            (b"ltmp1", 2, 0x104, false, false),
            (b"GCC_except_table2", 2, 0x104, false, false),
            (b"GCC_except_table3", 2, 0x110, false, false),
            (b"GCC_except_table4", 2, 0x124, false, false),
            (b"ltmp2", 3, 0x140, false, false),
            (b"__Z4leafi", 1, 0x0, true, false),
            (b"__Z5framei", 1, 0x8, true, false),
            (b"__Z5outeri", 1, 0xb0, true, false),
            (b"__Z6caughti", 1, 0x80, true, false),
            (b"__Z7guardedi", 1, 0x38, true, false),
            (b"__Unwind_Resume", 0, 0x0, true, false),
            (b"__ZN5GuardD1Ev", 0, 0x0, true, false),
            (b"__ZTIi", 0, 0x0, true, false),
            (b"___cxa_begin_catch", 0, 0x0, true, false),
            (b"___cxa_end_catch", 0, 0x0, true, false),
            (b"___gxx_personality_v0", 0, 0x0, true, false),
            (b"_may", 0, 0x0, true, false),
        ],
        unwinds: &[
            (1, 0x0, 0x0, 0x8, 0x2000000, None, None, None),
            (1, 0x8, 0x0, 0x30, 0x4000001, None, None, None),
            (
                1,
                0x38,
                0x0,
                0x48,
                0x44000001,
                Some(16),
                None,
                Some((2, 0x0, 0x0)),
            ),
            (
                1,
                0x80,
                0x0,
                0x30,
                0x44000001,
                Some(16),
                None,
                Some((2, 0xc, 0x0)),
            ),
            (
                1,
                0xb0,
                0x0,
                0x54,
                0x44000001,
                Some(16),
                None,
                Some((2, 0x20, 0x0)),
            ),
        ],
    },
    // Of bench/clang/pieces.s.
    ClangObject {
        subsections: true,
        sections: &[
            ClangSection {
                names: (b"__TEXT", b"__text"),
                place: (0x0, 0x1c, 2),
                flags: (0x0, 0x80000400),
                offsets: (0x1d8, 0x240),
                bytes: b"\
\xfd\x7b\xbf\xa9\xfd\x03\x00\x91\x00\x00\x00\x94\xfd\x7b\xc1\xa8\xc0\x03\x5f\xd6\xc0\x03\x5f\xd6\
\xc0\x03\x5f\xd6",
                relocs: &[(2, 0x8, 7, true, 2, true)],
            },
            ClangSection {
                names: (b"__TEXT", b"__gcc_except_tab"),
                place: (0x1c, 0x8, 0),
                flags: (0x0, 0x0),
                offsets: (0x1f4, 0x0),
                bytes: b"\
\x01\x02\x03\x04\x05\x06\x07\x08",
                relocs: &[],
            },
            ClangSection {
                names: (b"__LD", b"__compact_unwind"),
                place: (0x28, 0x40, 3),
                flags: (0x0, 0x2000000),
                offsets: (0x200, 0x248),
                bytes: b"\
\x00\x00\x00\x00\x00\x00\x00\x00\x14\x00\x00\x00\x00\x00\x00\x04\x00\x00\x00\x00\x00\x00\x00\x00\
\x00\x00\x00\x00\x00\x00\x00\x00\x14\x00\x00\x00\x00\x00\x00\x00\x04\x00\x00\x00\x00\x00\x00\x42\
\x18\x00\x00\x00\x00\x00\x00\x00\x20\x00\x00\x00\x00\x00\x00\x00",
                relocs: &[
                    (0, 0x38, 2, false, 3, false),
                    (0, 0x30, 1, false, 3, false),
                    (0, 0x20, 1, false, 3, false),
                    (0, 0x0, 1, false, 3, false),
                ],
            },
        ],
        symbols: &[
            (b"ltmp0", 1, 0x0, false, false),
            (b"ltmp1", 2, 0x1c, false, false),
            (b"ltmp2", 3, 0x28, false, false),
            (b"_handler", 1, 0x18, true, false),
            (b"_own", 1, 0x14, true, false),
            (b"_second", 1, 0x8, true, false),
            (b"_whole", 1, 0x0, true, false),
            (b"_may", 0, 0x0, true, false),
        ],
        unwinds: &[
            (1, 0x0, 0x0, 0x8, 0x4000000, None, None, None),
            (
                1,
                0x14,
                0x0,
                0x4,
                0x42000000,
                None,
                Some((1, 0x18, 0x0)),
                Some((2, 0x0, 0x4)),
            ),
        ],
    },
    // Of bench/clang/names.c.
    ClangObject {
        subsections: true,
        sections: &[
            ClangSection {
                names: (b"__TEXT", b"__text"),
                place: (0x0, 0xd4, 2),
                flags: (0x0, 0x80000400),
                offsets: (0x238, 0x3c0),
                bytes: b"\
\x08\x00\x00\x90\x08\x01\x40\xf9\x08\x01\x40\xb9\x00\x01\x00\x0b\xc0\x03\x5f\xd6\x08\x00\x00\x90\
\x08\x01\x40\xb9\x00\x00\x08\x4b\xc0\x03\x5f\xd6\x08\x00\x00\x90\x08\x01\x40\xb9\x00\x7d\x00\x1b\
\xc0\x03\x5f\xd6\xf4\x4f\xbe\xa9\xfd\x7b\x01\xa9\xfd\x43\x00\x91\xf3\x03\x00\xaa\x08\x00\x00\x90\
\x08\x01\x40\xf9\x88\x00\x00\xb4\xe0\x03\x13\xaa\x00\x00\x00\x94\xf3\x03\x00\xaa\xe0\x03\x13\xaa\
\x00\x00\x00\x94\x00\x00\x00\x94\xf4\x03\x00\xaa\xe0\x03\x13\xaa\x00\x00\x00\x94\x08\x00\x00\x90\
\x08\x01\x40\xb9\x00\x7d\x00\x1b\x00\x00\x00\x94\x08\x00\x00\x90\x08\x01\x00\x91\x08\xc9\xf3\x38\
\x09\x00\x14\x0b\x28\x01\x08\x0b\x09\x00\x00\x90\x29\x01\x40\xb9\x0a\x00\x00\x90\x4a\x01\x40\xb9\
\x08\x01\x09\x0b\x00\x01\x0a\x0b\xfd\x7b\x41\xa9\xf4\x4f\xc2\xa8\xc0\x03\x5f\xd6\x08\x00\x00\x90\
\x09\x01\x40\xb9\x2a\x05\x00\x11\x0a\x01\x00\xb9\x20\x01\x00\x0b\xc0\x03\x5f\xd6",
                relocs: &[
                    (4, 0xc8, 2, false, 2, true),
                    (4, 0xc0, 2, false, 2, true),
                    (3, 0xbc, 2, true, 2, true),
                    (4, 0xa4, 10, false, 2, true),
                    (3, 0xa0, 10, true, 2, true),
                    (4, 0x9c, 8, false, 2, true),
                    (3, 0x98, 8, true, 2, true),
                    (4, 0x88, 6, false, 2, true),
                    (3, 0x84, 6, true, 2, true),
                    (2, 0x80, 7, true, 2, true),
                    (4, 0x78, 11, false, 2, true),
                    (3, 0x74, 11, true, 2, true),
                    (2, 0x70, 1, true, 2, true),
                    (2, 0x64, 17, true, 2, true),
                    (2, 0x60, 15, true, 2, true),
                    (2, 0x54, 16, true, 2, true),
                    (6, 0x48, 16, false, 2, true),
                    (5, 0x44, 16, true, 2, true),
                    (4, 0x28, 11, false, 2, true),
                    (3, 0x24, 11, true, 2, true),
                    (4, 0x18, 14, false, 2, true),
                    (3, 0x14, 14, true, 2, true),
                    (6, 0x4, 12, false, 2, true),
                    (5, 0x0, 12, true, 2, true),
                ],
            },
            ClangSection {
                names: (b"__DATA", b"__data"),
                place: (0xd4, 0x10, 2),
                flags: (0x0, 0x0),
                offsets: (0x30c, 0x0),
                bytes: b"\
\x03\x00\x00\x00\x05\x00\x00\x00\x09\x00\x00\x00\x07\x00\x00\x00",
                relocs: &[],
            },
            ClangSection {
                names: (b"__DATA", b"__common"),
                place: (0x1a0, 0x90, 5),
                flags: (0x1, 0x0),
                offsets: (0x0, 0x0),
                bytes: b"",
                relocs: &[],
            },
            ClangSection {
                names: (b"__LD", b"__compact_unwind"),
                place: (0xe8, 0xa0, 3),
                flags: (0x0, 0x2000000),
                offsets: (0x320, 0x480),
                bytes: b"\
\x00\x00\x00\x00\x00\x00\x00\x00\x14\x00\x00\x00\x00\x00\x00\x02\x00\x00\x00\x00\x00\x00\x00\x00\
\x00\x00\x00\x00\x00\x00\x00\x00\x14\x00\x00\x00\x00\x00\x00\x00\x10\x00\x00\x00\x00\x00\x00\x02\
\x00\x00\x00\x00\x00\x00\x00\x00\x00\x00\x00\x00\x00\x00\x00\x00\x24\x00\x00\x00\x00\x00\x00\x00\
\x10\x00\x00\x00\x00\x00\x00\x02\x00\x00\x00\x00\x00\x00\x00\x00\x00\x00\x00\x00\x00\x00\x00\x00\
\x34\x00\x00\x00\x00\x00\x00\x00\x88\x00\x00\x00\x01\x00\x00\x04\x00\x00\x00\x00\x00\x00\x00\x00\
\x00\x00\x00\x00\x00\x00\x00\x00\xbc\x00\x00\x00\x00\x00\x00\x00\x18\x00\x00\x00\x00\x00\x00\x02\
\x00\x00\x00\x00\x00\x00\x00\x00\x00\x00\x00\x00\x00\x00\x00\x00",
                relocs: &[
                    (0, 0x80, 1, false, 3, false),
                    (0, 0x60, 1, false, 3, false),
                    (0, 0x40, 1, false, 3, false),
                    (0, 0x20, 1, false, 3, false),
                    (0, 0x0, 1, false, 3, false),
                ],
            },
        ],
        symbols: &[
            (b"ltmp0", 1, 0x0, false, false),
            (b"_local", 1, 0xbc, false, false),
            (b"_own", 2, 0xe0, false, false),
            (b"ltmp1", 2, 0xd4, false, false),
            (b"ltmp2", 3, 0x1a0, false, false),
            (b"ltmp3", 4, 0xe8, false, false),
            (b"_block", 3, 0x1c0, true, false),
            (b"_both", 1, 0x14, true, false),
            (b"_covered", 3, 0x228, true, false),
            (b"_hidden", 1, 0x24, true, false),
            (b"_inner", 2, 0xdc, true, false),
            (b"_plain", 2, 0xd8, true, false),
            (b"_spare", 2, 0xd4, true, false),
            (b"_strong", 1, 0x34, true, false),
            (b"_tentative", 3, 0x1a0, true, false),
            (b"_weak", 1, 0x0, true, false),
            (b"_missing", 0, 0x0, true, false),
            (b"_outside", 0, 0x0, true, false),
        ],
        unwinds: &[
            (1, 0x0, 0x0, 0x14, 0x2000000, None, None, None),
            (1, 0x14, 0x0, 0x10, 0x2000000, None, None, None),
            (1, 0x24, 0x0, 0x10, 0x2000000, None, None, None),
            (1, 0x34, 0x0, 0x88, 0x4000001, None, None, None),
            (1, 0xbc, 0x0, 0x18, 0x2000000, None, None, None),
        ],
    },
];
