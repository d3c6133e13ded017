//! Objects that clang made, with the atoms and references that llvm-readobj's account of them gives. Written by
//! bench/clang_objects.py from the sources in bench/clang.

use mo_types::RefKind;

/// A relocation: its type, address, number, and its r_pcrel, r_length and r_extern.
pub type Raw = (u8, u32, u32, bool, u8, bool);

/// A section of an object.
pub struct ClangSection {
    /// Of the segment and of the section.
    pub names: (&'static [u8], &'static [u8]),
    /// The address, the size, and the alignment's exponent.
    pub place: (u64, u64, u8),
    /// The type, and the flags without it.
    pub flags: (u8, u32),
    /// The offsets of the contents and of the relocations in the file.
    pub offsets: (u64, u64),
    pub bytes: &'static [u8],
    pub relocs: &'static [Raw],
}

/// An object, and what it is to be read as.
pub struct ClangObject {
    pub subsections: bool,
    pub sections: &'static [ClangSection],
    /// Each symbol's name, section (0: undefined), value, and whether it is external and an alternative entry.
    pub symbols: &'static [(&'static [u8], u8, u64, bool, bool)],
    /// Each atom's section, offset, size, and alignment's exponent.
    pub atoms: &'static [(u16, u64, u64, u8)],
    /// Each reference's atom by section and offset, place in it and in the file, kind, target and subtracted
    /// symbol by index, and addend.
    pub refs: &'static [(u16, u64, u64, u64, RefKind, u32, Option<u32>, i64)],
}

pub static OBJECTS: [ClangObject; 5] = [
    // Of bench/clang/calls.s.
    ClangObject {
        subsections: true,
        sections: &[
            ClangSection {
                names: (b"__TEXT", b"__text"),
                place: (0x0, 0x38, 2),
                flags: (0x0, 0x80000400),
                offsets: (0x188, 0x1e8),
                bytes: b"\
\x00\x00\x00\x94\x00\x00\x00\x90\x00\x00\x00\x91\x01\x00\x40\xf9\x02\x00\x00\x90\x42\x00\x40\xf9\
\x03\x00\x00\x90\x63\x00\x40\xf9\x00\x00\x00\x14\x00\x00\x00\x94\xc0\x03\x5f\xd6\x04\x00\x00\x90\
\x84\x00\x00\x91\x00\x00\x00\x14",
                relocs: &[
                    (2, 0x34, 6, true, 2, true),
                    (4, 0x30, 3, false, 2, true),
                    (3, 0x2c, 3, true, 2, true),
                    (10, 0x24, 8, false, 2, false),
                    (2, 0x24, 7, true, 2, true),
                    (2, 0x20, 2, true, 2, true),
                    (9, 0x1c, 9, false, 2, true),
                    (8, 0x18, 9, true, 2, true),
                    (6, 0x14, 8, false, 2, true),
                    (5, 0x10, 8, true, 2, true),
                    (10, 0xc, 8, false, 2, false),
                    (4, 0xc, 1, false, 2, true),
                    (10, 0x8, 16, false, 2, false),
                    (4, 0x8, 1, false, 2, true),
                    (10, 0x4, 16, false, 2, false),
                    (3, 0x4, 1, true, 2, true),
                    (2, 0x0, 7, true, 2, true),
                ],
            },
            ClangSection {
                names: (b"__DATA", b"__data"),
                place: (0x40, 0x20, 4),
                flags: (0x0, 0x0),
                offsets: (0x1c8, 0x0),
                bytes: b"\
\x00\x00\x00\x00\x00\x00\x00\x00\x01\x00\x00\x00\x00\x00\x00\x00\x02\x00\x00\x00\x00\x00\x00\x00\
\x03\x00\x00\x00\x00\x00\x00\x00",
                relocs: &[],
            },
        ],
        symbols: &[
            (b"ltmp0", 1, 0x0, false, false),
            (b"_table", 2, 0x48, false, false),
            (b"l_local", 1, 0x2c, false, false),
            (b"_second", 1, 0x24, false, true),
            (b"ltmp1", 2, 0x40, false, false),
            (b"_before", 2, 0x40, false, false),
            (b"_main", 1, 0x0, true, false),
            (b"_callee", 0, 0x0, true, false),
            (b"_outside", 0, 0x0, true, false),
            (b"_variable", 0, 0x0, true, false),
        ],
        atoms: &[
            (1, 0x0, 0x2c, 2),
            (1, 0x2c, 0xc, 2),
            (2, 0x0, 0x8, 4),
            (2, 0x8, 0x18, 3),
        ],
        refs: &[
            (1, 0x2c, 0x8, 0x1bc, RefKind::Branch, 6, None, 0),
            (1, 0x2c, 0x4, 0x1b8, RefKind::PageOff, 3, None, 0),
            (1, 0x2c, 0x0, 0x1b4, RefKind::Page, 3, None, 0),
            (1, 0x0, 0x24, 0x1ac, RefKind::Branch, 7, None, 8),
            (1, 0x0, 0x20, 0x1a8, RefKind::Branch, 2, None, 0),
            (1, 0x0, 0x1c, 0x1a4, RefKind::TlvPageOff, 9, None, 0),
            (1, 0x0, 0x18, 0x1a0, RefKind::TlvPage, 9, None, 0),
            (1, 0x0, 0x14, 0x19c, RefKind::GotPageOff, 8, None, 0),
            (1, 0x0, 0x10, 0x198, RefKind::GotPage, 8, None, 0),
            (1, 0x0, 0xc, 0x194, RefKind::PageOff, 1, None, 8),
            (1, 0x0, 0x8, 0x190, RefKind::PageOff, 1, None, 16),
            (1, 0x0, 0x4, 0x18c, RefKind::Page, 1, None, 16),
            (1, 0x0, 0x0, 0x188, RefKind::Branch, 7, None, 0),
        ],
    },
    // Of bench/clang/pointers.s.
    ClangObject {
        subsections: true,
        sections: &[
            ClangSection {
                names: (b"__TEXT", b"__text"),
                place: (0x0, 0x8, 2),
                flags: (0x0, 0x80000400),
                offsets: (0x1d8, 0x0),
                bytes: b"\
\x1f\x20\x03\xd5\xc0\x03\x5f\xd6",
                relocs: &[],
            },
            ClangSection {
                names: (b"__DATA", b"__const"),
                place: (0x8, 0x58, 3),
                flags: (0x0, 0x0),
                offsets: (0x1e0, 0x250),
                bytes: b"\
\x00\x00\x00\x00\x00\x00\x00\x00\x00\x00\x00\x00\x00\x00\x00\x00\x28\x00\x00\x00\x00\x00\x00\x00\
\xd8\xff\xff\xff\xff\xff\xff\xff\x00\x00\x00\x00\x01\x00\x00\x00\x04\x00\x00\x00\x00\x00\x00\x00\
\x00\x00\x00\x00\x00\x00\x00\x00\xe8\xff\xff\xff\xff\xff\xff\xff\x00\x00\x00\x00\x04\x00\x00\x00\
\xfc\xff\xff\xff\xb4\xff\xff\xff\x00\x00\x00\x00\x00\x00\x00\x00",
                relocs: &[
                    (7, 0x50, 1, false, 3, true),
                    (7, 0x4c, 9, true, 2, true),
                    (1, 0x48, 1, false, 2, true),
                    (0, 0x48, 9, false, 2, true),
                    (1, 0x44, 1, false, 2, true),
                    (0, 0x44, 9, false, 2, true),
                    (1, 0x40, 4, false, 2, true),
                    (0, 0x40, 2, false, 2, true),
                    (1, 0x38, 4, false, 3, true),
                    (0, 0x38, 9, false, 3, true),
                    (1, 0x30, 4, false, 3, true),
                    (0, 0x30, 9, false, 3, true),
                    (0, 0x20, 2, false, 3, true),
                    (0, 0x18, 9, false, 3, true),
                    (0, 0x10, 9, false, 3, true),
                    (0, 0x8, 9, false, 3, true),
                    (0, 0x0, 1, false, 3, true),
                ],
            },
            ClangSection {
                names: (b"__DATA", b"__data"),
                place: (0x60, 0x18, 2),
                flags: (0x0, 0x0),
                offsets: (0x238, 0x2d8),
                bytes: b"\
\x04\x00\x00\x00\x00\x00\x00\x00\x10\x00\x00\x00\x00\x00\x00\x00\x00\x00\x00\x00\x00\x00\x00\x00",
                relocs: &[
                    (1, 0x10, 6, false, 3, true),
                    (0, 0x10, 8, false, 3, true),
                    (0, 0x8, 8, false, 3, true),
                    (0, 0x0, 6, false, 3, true),
                ],
            },
        ],
        symbols: &[
            (b"ltmp0", 1, 0x0, false, false),
            (b"_code", 1, 0x0, false, false),
            (b"_after", 1, 0x4, false, false),
            (b"ltmp1", 2, 0x8, false, false),
            (b"_pointers", 2, 0x8, false, false),
            (b"_differences", 2, 0x30, false, false),
            (b"_slots", 2, 0x54, false, false),
            (b"ltmp2", 3, 0x60, false, false),
            (b"_last", 3, 0x60, false, false),
            (b"_outside", 0, 0x0, true, false),
        ],
        atoms: &[
            (1, 0x0, 0x4, 2),
            (1, 0x4, 0x4, 2),
            (2, 0x0, 0x28, 3),
            (2, 0x28, 0x24, 3),
            (2, 0x4c, 0xc, 2),
            (3, 0x0, 0x18, 2),
        ],
        refs: &[
            (2, 0x4c, 0x4, 0x230, RefKind::GotPointer, 1, None, 0),
            (2, 0x4c, 0x0, 0x22c, RefKind::GotDelta, 9, None, 0),
            (2, 0x28, 0x20, 0x228, RefKind::Diff32, 9, Some(1), -4),
            (2, 0x28, 0x1c, 0x224, RefKind::Diff32, 9, Some(1), 4),
            (2, 0x28, 0x18, 0x220, RefKind::Diff32, 2, Some(4), 0),
            (2, 0x28, 0x10, 0x218, RefKind::Diff64, 9, Some(4), -24),
            (2, 0x28, 0x8, 0x210, RefKind::Diff64, 9, Some(4), 0),
            (2, 0x0, 0x20, 0x200, RefKind::Pointer, 2, None, 4294967296),
            (2, 0x0, 0x18, 0x1f8, RefKind::Pointer, 9, None, -40),
            (2, 0x0, 0x10, 0x1f0, RefKind::Pointer, 9, None, 40),
            (2, 0x0, 0x8, 0x1e8, RefKind::Pointer, 9, None, 0),
            (2, 0x0, 0x0, 0x1e0, RefKind::Pointer, 1, None, 0),
            (3, 0x0, 0x10, 0x248, RefKind::Diff64, 8, Some(6), 0),
            (3, 0x0, 0x8, 0x240, RefKind::Pointer, 8, None, 16),
            (3, 0x0, 0x0, 0x238, RefKind::Pointer, 6, None, 4),
        ],
    },
    // Of bench/clang/literals.s.
    ClangObject {
        subsections: true,
        sections: &[
            ClangSection {
                names: (b"__TEXT", b"__text"),
                place: (0x0, 0x1c, 2),
                flags: (0x0, 0x80000400),
                offsets: (0x2c8, 0x350),
                bytes: b"\
\x00\x00\x00\x90\x00\x00\x00\x91\x01\x00\x00\x90\x21\x00\x00\x91\x02\x00\x00\x90\x42\x00\x40\xfd\
\xc0\x03\x5f\xd6",
                relocs: &[
                    (4, 0x14, 4, false, 2, true),
                    (3, 0x10, 4, true, 2, true),
                    (10, 0xc, 1, false, 2, false),
                    (4, 0xc, 3, false, 2, true),
                    (10, 0x8, 1, false, 2, false),
                    (3, 0x8, 3, true, 2, true),
                    (4, 0x4, 2, false, 2, true),
                    (3, 0x0, 2, true, 2, true),
                ],
            },
            ClangSection {
                names: (b"__TEXT", b"__cstring"),
                place: (0x1c, 0x14, 0),
                flags: (0x2, 0x0),
                offsets: (0x2e4, 0x0),
                bytes: b"\
\x66\x69\x72\x73\x74\x00\x00\x73\x65\x63\x6f\x6e\x64\x00\x74\x68\x69\x72\x64\x00",
                relocs: &[],
            },
            ClangSection {
                names: (b"__TEXT", b"__literal4"),
                place: (0x30, 0xc, 2),
                flags: (0x3, 0x0),
                offsets: (0x2f8, 0x0),
                bytes: b"\
\x01\x00\x00\x00\x02\x00\x00\x00\x03\x00\x00\x00",
                relocs: &[],
            },
            ClangSection {
                names: (b"__TEXT", b"__literal8"),
                place: (0x40, 0x10, 3),
                flags: (0x4, 0x0),
                offsets: (0x308, 0x0),
                bytes: b"\
\x01\x00\x00\x00\x00\x00\x00\x00\x02\x00\x00\x00\x00\x00\x00\x00",
                relocs: &[],
            },
            ClangSection {
                names: (b"__TEXT", b"__literal16"),
                place: (0x50, 0x20, 4),
                flags: (0xe, 0x0),
                offsets: (0x318, 0x0),
                bytes: b"\
\x01\x00\x00\x00\x00\x00\x00\x00\x02\x00\x00\x00\x00\x00\x00\x00\x03\x00\x00\x00\x00\x00\x00\x00\
\x04\x00\x00\x00\x00\x00\x00\x00",
                relocs: &[],
            },
            ClangSection {
                names: (b"__DATA", b"__data"),
                place: (0x70, 0x18, 3),
                flags: (0x0, 0x0),
                offsets: (0x338, 0x390),
                bytes: b"\
\x00\x00\x00\x00\x00\x00\x00\x00\x03\x00\x00\x00\x00\x00\x00\x00\x00\x00\x00\x00\x00\x00\x00\x00",
                relocs: &[
                    (0, 0x10, 9, false, 3, true),
                    (0, 0x8, 3, false, 3, true),
                    (0, 0x0, 2, false, 3, true),
                ],
            },
        ],
        symbols: &[
            (b"ltmp0", 1, 0x0, false, false),
            (b"_use", 1, 0x0, false, false),
            (b"L_first", 2, 0x1c, false, false),
            (b"_second", 2, 0x23, false, false),
            (b"L_eight", 4, 0x48, false, false),
            (b"ltmp1", 2, 0x1c, false, false),
            (b"ltmp2", 3, 0x30, false, false),
            (b"ltmp3", 4, 0x40, false, false),
            (b"ltmp4", 5, 0x50, false, false),
            (b"_sixteen", 5, 0x60, false, false),
            (b"ltmp5", 6, 0x70, false, false),
            (b"_texts", 6, 0x70, false, false),
        ],
        atoms: &[
            (1, 0x0, 0x1c, 2),
            (2, 0x0, 0x6, 0),
            (2, 0x6, 0x1, 0),
            (2, 0x7, 0x7, 0),
            (2, 0xe, 0x6, 0),
            (3, 0x0, 0x4, 2),
            (3, 0x4, 0x4, 2),
            (3, 0x8, 0x4, 2),
            (4, 0x0, 0x8, 3),
            (4, 0x8, 0x8, 3),
            (5, 0x0, 0x10, 4),
            (5, 0x10, 0x10, 4),
            (6, 0x0, 0x18, 3),
        ],
        refs: &[
            (1, 0x0, 0x14, 0x2dc, RefKind::PageOff, 4, None, 0),
            (1, 0x0, 0x10, 0x2d8, RefKind::Page, 4, None, 0),
            (1, 0x0, 0xc, 0x2d4, RefKind::PageOff, 3, None, 1),
            (1, 0x0, 0x8, 0x2d0, RefKind::Page, 3, None, 1),
            (1, 0x0, 0x4, 0x2cc, RefKind::PageOff, 2, None, 0),
            (1, 0x0, 0x0, 0x2c8, RefKind::Page, 2, None, 0),
            (6, 0x0, 0x10, 0x348, RefKind::Pointer, 9, None, 0),
            (6, 0x0, 0x8, 0x340, RefKind::Pointer, 3, None, 3),
            (6, 0x0, 0x0, 0x338, RefKind::Pointer, 2, None, 0),
        ],
    },
    // Of bench/clang/uncut.s.
    ClangObject {
        subsections: false,
        sections: &[
            ClangSection {
                names: (b"__TEXT", b"__text"),
                place: (0x0, 0xc, 3),
                flags: (0x0, 0x80000400),
                offsets: (0x228, 0x0),
                bytes: b"\
\x02\x00\x00\x14\x1f\x20\x03\xd5\xfe\xff\xff\x97",
                relocs: &[],
            },
            ClangSection {
                names: (b"__TEXT", b"__cstring"),
                place: (0xc, 0x5, 0),
                flags: (0x2, 0x0),
                offsets: (0x234, 0x0),
                bytes: b"\
\x61\x00\x62\x63\x00",
                relocs: &[],
            },
            ClangSection {
                names: (b"__DATA", b"__data"),
                place: (0x18, 0x10, 3),
                flags: (0x0, 0x0),
                offsets: (0x240, 0x250),
                bytes: b"\
\x00\x00\x00\x00\x00\x00\x00\x00\x00\x00\x00\x00\x00\x00\x00\x00",
                relocs: &[
                    (1, 0x8, 3, false, 3, true),
                    (0, 0x8, 8, false, 3, true),
                    (0, 0x0, 8, false, 3, true),
                ],
            },
            ClangSection {
                names: (b"__DATA", b"__bss"),
                place: (0x30, 0x20, 4),
                flags: (0x1, 0x0),
                offsets: (0x0, 0x0),
                bytes: b"",
                relocs: &[],
            },
        ],
        symbols: &[
            (b"ltmp0", 1, 0x0, false, false),
            (b"ltmp1", 2, 0xc, false, false),
            (b"ltmp2", 3, 0x18, false, false),
            (b"_one", 3, 0x18, false, false),
            (b"_two", 3, 0x20, false, false),
            (b"ltmp3", 4, 0x30, false, false),
            (b"_zero", 4, 0x30, false, false),
            (b"_first", 1, 0x0, true, false),
            (b"_other", 1, 0x8, true, false),
        ],
        atoms: &[
            (1, 0x0, 0xc, 3),
            (2, 0x0, 0x2, 0),
            (2, 0x2, 0x3, 0),
            (3, 0x0, 0x10, 3),
            (4, 0x0, 0x20, 4),
        ],
        refs: &[
            (3, 0x0, 0x8, 0x248, RefKind::Diff64, 8, Some(3), 0),
            (3, 0x0, 0x0, 0x240, RefKind::Pointer, 8, None, 0),
        ],
    },
    // Of bench/clang/variables.c.
    ClangObject {
        subsections: true,
        sections: &[
            ClangSection {
                names: (b"__TEXT", b"__text"),
                place: (0x0, 0xc0, 2),
                flags: (0x0, 0x80000400),
                offsets: (0x3c8, 0x558),
                bytes: b"\
\x08\xf2\x9e\xd2\x48\xb5\xb2\xf2\x28\xe1\xd7\xf2\xa8\x00\xe8\xf2\x01\x01\x67\x9e\xc8\xcd\x90\xd2\
\x68\x03\xbe\xf2\x28\x3f\xc4\xf2\x28\x01\xe8\xf2\x02\x01\x67\x9e\x00\x04\x42\x1f\xc0\x03\x5f\xd6\
\xfd\x7b\xbf\xa9\xfd\x03\x00\x91\xe8\x03\x00\xaa\x00\x00\x00\x90\x00\x00\x40\xf9\x09\x00\x40\xf9\
\x20\x01\x3f\xd6\x09\x00\x40\xb9\x29\x01\x08\x0b\x09\x00\x00\xb9\x00\x00\x00\x90\x00\x00\x40\xf9\
\x09\x00\x40\xf9\x20\x01\x3f\xd6\x09\x00\x40\xb9\x29\x01\x08\x4b\x09\x00\x00\xb9\x09\x05\x00\x12\
\x29\xf5\x7e\xd3\x0a\x00\x00\x90\x4a\x01\x00\x91\x48\x69\x29\xb8\x0a\x00\x00\x90\x4a\x01\x00\x91\
\x08\x01\x00\x12\x40\x59\x68\xf8\x08\x00\x00\x90\x08\x01\x00\x91\x01\x01\x09\x8b\x00\x00\x00\x94\
\x08\x00\x00\x90\x08\x01\x40\xf9\x08\x01\x40\xb9\x00\x01\x00\x0b\xfd\x7b\xc1\xa8\xc0\x03\x5f\xd6",
                relocs: &[
                    (6, 0xac, 22, false, 2, true),
                    (5, 0xa8, 22, true, 2, true),
                    (2, 0xa4, 23, true, 2, true),
                    (4, 0x9c, 3, false, 2, true),
                    (3, 0x98, 3, true, 2, true),
                    (4, 0x8c, 2, false, 2, true),
                    (3, 0x88, 2, true, 2, true),
                    (4, 0x80, 1, false, 2, true),
                    (3, 0x7c, 1, true, 2, true),
                    (9, 0x5c, 17, false, 2, true),
                    (8, 0x58, 17, true, 2, true),
                    (9, 0x40, 16, false, 2, true),
                    (8, 0x3c, 16, true, 2, true),
                ],
            },
            ClangSection {
                names: (b"__DATA", b"__thread_data"),
                place: (0xc0, 0x4, 2),
                flags: (0x11, 0x0),
                offsets: (0x488, 0x0),
                bytes: b"\
\x07\x00\x00\x00",
                relocs: &[],
            },
            ClangSection {
                names: (b"__DATA", b"__thread_vars"),
                place: (0xc4, 0x30, 0),
                flags: (0x13, 0x0),
                offsets: (0x48c, 0x5c0),
                bytes: b"\
\x00\x00\x00\x00\x00\x00\x00\x00\x00\x00\x00\x00\x00\x00\x00\x00\x00\x00\x00\x00\x00\x00\x00\x00\
\x00\x00\x00\x00\x00\x00\x00\x00\x00\x00\x00\x00\x00\x00\x00\x00\x00\x00\x00\x00\x00\x00\x00\x00",
                relocs: &[
                    (0, 0x28, 11, false, 3, true),
                    (0, 0x18, 21, false, 3, true),
                    (0, 0x10, 5, false, 3, true),
                    (0, 0x0, 21, false, 3, true),
                ],
            },
            ClangSection {
                names: (b"__DATA", b"__data"),
                place: (0xf4, 0x10, 2),
                flags: (0x0, 0x0),
                offsets: (0x4bc, 0x0),
                bytes: b"\
\x01\x00\x00\x00\x02\x00\x00\x00\x03\x00\x00\x00\x04\x00\x00\x00",
                relocs: &[],
            },
            ClangSection {
                names: (b"__DATA", b"__bss"),
                place: (0x190, 0x18, 2),
                flags: (0x1, 0x0),
                offsets: (0x0, 0x0),
                bytes: b"",
                relocs: &[],
            },
            ClangSection {
                names: (b"__DATA", b"__const"),
                place: (0x108, 0x38, 3),
                flags: (0x0, 0x0),
                offsets: (0x4d0, 0x5e0),
                bytes: b"\
\x08\x00\x00\x00\x00\x00\x00\x00\x00\x00\x00\x00\x00\x00\x00\x00\x0c\x00\x00\x00\x00\x00\x00\x00\
\x14\x00\x00\x00\x00\x00\x00\x00\x00\x00\x00\x00\x00\x00\x00\x00\x00\x00\x00\x00\x00\x00\x00\x00\
\x01\x00\x00\x00\x00\x00\x00\x00",
                relocs: &[
                    (0, 0x30, 13, false, 3, true),
                    (0, 0x28, 13, false, 3, true),
                    (0, 0x20, 12, false, 3, true),
                    (0, 0x18, 1, false, 3, true),
                    (0, 0x10, 22, false, 3, true),
                    (0, 0x8, 22, false, 3, true),
                    (0, 0x0, 3, false, 3, true),
                ],
            },
            ClangSection {
                names: (b"__DATA", b"__thread_bss"),
                place: (0x1a8, 0x4, 2),
                flags: (0x12, 0x0),
                offsets: (0x0, 0x0),
                bytes: b"",
                relocs: &[],
            },
            ClangSection {
                names: (b"__TEXT", b"__cstring"),
                place: (0x140, 0x9, 0),
                flags: (0x2, 0x0),
                offsets: (0x508, 0x0),
                bytes: b"\
\x7a\x65\x72\x6f\x00\x6f\x6e\x65\x00",
                relocs: &[],
            },
            ClangSection {
                names: (b"__LD", b"__compact_unwind"),
                place: (0x150, 0x40, 3),
                flags: (0x0, 0x2000000),
                offsets: (0x518, 0x618),
                bytes: b"\
\x00\x00\x00\x00\x00\x00\x00\x00\x30\x00\x00\x00\x00\x00\x00\x02\x00\x00\x00\x00\x00\x00\x00\x00\
\x00\x00\x00\x00\x00\x00\x00\x00\x30\x00\x00\x00\x00\x00\x00\x00\x90\x00\x00\x00\x00\x00\x00\x04\
\x00\x00\x00\x00\x00\x00\x00\x00\x00\x00\x00\x00\x00\x00\x00\x00",
                relocs: &[(0, 0x20, 1, false, 3, false), (0, 0x0, 1, false, 3, false)],
            },
        ],
        symbols: &[
            (b"ltmp0", 1, 0x0, false, false),
            (b"_zeros", 5, 0x190, false, false),
            (b"_names", 6, 0x128, false, false),
            (b"_counters", 4, 0xf4, false, false),
            (b"ltmp1", 2, 0xc0, false, false),
            (b"_depth$tlv$init", 2, 0xc0, false, false),
            (b"ltmp2", 3, 0xc4, false, false),
            (b"ltmp3", 4, 0xf4, false, false),
            (b"ltmp4", 5, 0x190, false, false),
            (b"ltmp5", 6, 0x108, false, false),
            (b"ltmp6", 7, 0x1a8, false, false),
            (b"_fresh$tlv$init", 7, 0x1a8, false, false),
            (b"l_.str", 8, 0x140, false, false),
            (b"l_.str.1", 8, 0x145, false, false),
            (b"ltmp7", 8, 0x140, false, false),
            (b"ltmp8", 9, 0x150, false, false),
            (b"_depth", 3, 0xc4, true, false),
            (b"_fresh", 3, 0xdc, true, false),
            (b"_places", 6, 0x108, true, false),
            (b"_run", 1, 0x30, true, false),
            (b"_scale", 1, 0x0, true, false),
            (b"__tlv_bootstrap", 0, 0x0, true, false),
            (b"_shared", 0, 0x0, true, false),
            (b"_work", 0, 0x0, true, false),
        ],
        atoms: &[
            (1, 0x0, 0x30, 2),
            (1, 0x30, 0x90, 2),
            (2, 0x0, 0x4, 2),
            (3, 0x0, 0x18, 0),
            (3, 0x18, 0x18, 0),
            (4, 0x0, 0x10, 2),
            (5, 0x0, 0x18, 2),
            (6, 0x0, 0x20, 3),
            (6, 0x20, 0x18, 3),
            (7, 0x0, 0x4, 2),
            (8, 0x0, 0x5, 0),
            (8, 0x5, 0x4, 0),
        ],
        refs: &[
            (1, 0x30, 0x7c, 0x474, RefKind::GotPageOff, 22, None, 0),
            (1, 0x30, 0x78, 0x470, RefKind::GotPage, 22, None, 0),
            (1, 0x30, 0x74, 0x46c, RefKind::Branch, 23, None, 0),
            (1, 0x30, 0x6c, 0x464, RefKind::PageOff, 3, None, 0),
            (1, 0x30, 0x68, 0x460, RefKind::Page, 3, None, 0),
            (1, 0x30, 0x5c, 0x454, RefKind::PageOff, 2, None, 0),
            (1, 0x30, 0x58, 0x450, RefKind::Page, 2, None, 0),
            (1, 0x30, 0x50, 0x448, RefKind::PageOff, 1, None, 0),
            (1, 0x30, 0x4c, 0x444, RefKind::Page, 1, None, 0),
            (1, 0x30, 0x2c, 0x424, RefKind::TlvPageOff, 17, None, 0),
            (1, 0x30, 0x28, 0x420, RefKind::TlvPage, 17, None, 0),
            (1, 0x30, 0x10, 0x408, RefKind::TlvPageOff, 16, None, 0),
            (1, 0x30, 0xc, 0x404, RefKind::TlvPage, 16, None, 0),
            (3, 0x18, 0x10, 0x4b4, RefKind::Pointer, 11, None, 0),
            (3, 0x18, 0x0, 0x4a4, RefKind::Pointer, 21, None, 0),
            (3, 0x0, 0x10, 0x49c, RefKind::Pointer, 5, None, 0),
            (3, 0x0, 0x0, 0x48c, RefKind::Pointer, 21, None, 0),
            (6, 0x20, 0x10, 0x500, RefKind::Pointer, 13, None, 1),
            (6, 0x20, 0x8, 0x4f8, RefKind::Pointer, 13, None, 0),
            (6, 0x20, 0x0, 0x4f0, RefKind::Pointer, 12, None, 0),
            (6, 0x0, 0x18, 0x4e8, RefKind::Pointer, 1, None, 20),
            (6, 0x0, 0x10, 0x4e0, RefKind::Pointer, 22, None, 12),
            (6, 0x0, 0x8, 0x4d8, RefKind::Pointer, 22, None, 0),
            (6, 0x0, 0x0, 0x4d0, RefKind::Pointer, 3, None, 8),
        ],
    },
];
