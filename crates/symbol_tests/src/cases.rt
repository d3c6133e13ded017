//! Images whose symbols and maps are known: their files, where atoms stand, and what is written of them
//! (bench/llvm_symbols.py puts each image together with its parts and has LLVM list them).

use crate::given::{ImageRow, Is, Lead};

/// What is written of an image.
pub struct Wanted {
    /// The place of the name, the type, the section, the bits and the address of each symbol (`nlist.h`: nlist_64).
    pub symbols: &'static [(u32, u8, u8, u16, u64)],
    /// How many are local, how many other images see, and how many these have.
    pub counts: (u32, u32, u32),
    pub strings: &'static [u8],
    pub indirect: &'static [u8],
    pub map: &'static [u8],
}

/// An image and what is written of it.
pub struct Case {
    pub image: ImageRow,
    pub wanted: Wanted,
}

/// A strong definition and a weak one at one place, a hidden one and a name for a compiler's own use, an alternative
/// entry, a common symbol, and a name that the first library has.
pub const OF_ALL_KINDS: Case = Case {
    image: ImageRow {
        files: &[(
            b"main.o",
            &[(b"__TEXT", b"__text", 0, b"\0\0\0\0\0\0\0\0\0\0\0\0")],
            &[
                (b"_main", Is::Seen(1, 0)),
                (b"_hidden", Is::Hidden(1, 4)),
                (b"lown", Is::Local(1, 4)),
                (b"_entry", Is::Entry(1, 8)),
                (b"_weak", Is::Weak(1, 0)),
                (b"_puts", Is::Undefined),
                (b"_common", Is::Common(3, 8)),
            ],
        )],
        sections: &[
            (
                b"__text",
                &[((0, 1, 0), 0x1_0000_0268), ((0, 1, 4), 0x1_0000_026c)],
            ),
            (b"__common", &[((0, 256, 6), 0x1_0000_4000)]),
        ],
        commons: &[((0, 256, 6), 8)],
        bound: &[(1, false)],
        needs: &[(Lead::Puts, true), (Lead::Weak, false), (Lead::Main, false)],
    },
    wanted: Wanted {
        symbols: &[
            (1, 0x1e, 1, 0, 0x1_0000_026c),
            (9, 0x0e, 1, 0x200, 0x1_0000_0270),
            (16, 0x0f, 2, 0, 0x1_0000_4000),
            (24, 0x0f, 1, 0, 0x1_0000_0268),
            (30, 0x0f, 1, 0x80, 0x1_0000_0268),
            (36, 0x01, 0, 0x100, 0),
        ],
        counts: (2, 3, 1),
        strings: b"\0_hidden\0_entry\0_common\0_main\0_weak\0_puts\0\0\0\0\0\0\0",
        indirect: b"\x05\0\0\0\x05\0\0\0\x04\0\0\0\0\0\0\x80",
        map: b"0000000100000268 00000004 main.o _main\n\
            000000010000026c 00000008 main.o _hidden\n\
            0000000100004000 00000008 main.o _common\n",
    },
};

/// The same, where library 240 may have the name.
pub const MAY_BE_MISSING: Case = Case {
    image: ImageRow {
        files: &[(
            b"main.o",
            &[(b"__TEXT", b"__text", 0, b"\0\0\0\0\0\0\0\0\0\0\0\0")],
            &[
                (b"_main", Is::Seen(1, 0)),
                (b"_hidden", Is::Hidden(1, 4)),
                (b"lown", Is::Local(1, 4)),
                (b"_entry", Is::Entry(1, 8)),
                (b"_weak", Is::Weak(1, 0)),
                (b"_puts", Is::Undefined),
                (b"_common", Is::Common(3, 8)),
            ],
        )],
        sections: &[
            (
                b"__text",
                &[((0, 1, 0), 0x1_0000_0268), ((0, 1, 4), 0x1_0000_026c)],
            ),
            (b"__common", &[((0, 256, 6), 0x1_0000_4000)]),
        ],
        commons: &[((0, 256, 6), 8)],
        bound: &[(240, true)],
        needs: &[(Lead::Puts, true), (Lead::Weak, false), (Lead::Main, false)],
    },
    wanted: Wanted {
        symbols: &[
            (1, 0x1e, 1, 0, 0x1_0000_026c),
            (9, 0x0e, 1, 0x200, 0x1_0000_0270),
            (16, 0x0f, 2, 0, 0x1_0000_4000),
            (24, 0x0f, 1, 0, 0x1_0000_0268),
            (30, 0x0f, 1, 0x80, 0x1_0000_0268),
            (36, 0x01, 0, 0xf040, 0),
        ],
        counts: (2, 3, 1),
        strings: b"\0_hidden\0_entry\0_common\0_main\0_weak\0_puts\0\0\0\0\0\0\0",
        indirect: b"\x05\0\0\0\x05\0\0\0\x04\0\0\0\0\0\0\x80",
        map: b"0000000100000268 00000004 main.o _main\n\
            000000010000026c 00000008 main.o _hidden\n\
            0000000100004000 00000008 main.o _common\n",
    },
};

/// The same, where any image may have it.
pub const OF_ANY_IMAGE: Case = Case {
    image: ImageRow {
        files: &[(
            b"main.o",
            &[(b"__TEXT", b"__text", 0, b"\0\0\0\0\0\0\0\0\0\0\0\0")],
            &[
                (b"_main", Is::Seen(1, 0)),
                (b"_hidden", Is::Hidden(1, 4)),
                (b"lown", Is::Local(1, 4)),
                (b"_entry", Is::Entry(1, 8)),
                (b"_weak", Is::Weak(1, 0)),
                (b"_puts", Is::Undefined),
                (b"_common", Is::Common(3, 8)),
            ],
        )],
        sections: &[
            (
                b"__text",
                &[((0, 1, 0), 0x1_0000_0268), ((0, 1, 4), 0x1_0000_026c)],
            ),
            (b"__common", &[((0, 256, 6), 0x1_0000_4000)]),
        ],
        commons: &[((0, 256, 6), 8)],
        bound: &[(0, false)],
        needs: &[(Lead::Puts, true), (Lead::Weak, false), (Lead::Main, false)],
    },
    wanted: Wanted {
        symbols: &[
            (1, 0x1e, 1, 0, 0x1_0000_026c),
            (9, 0x0e, 1, 0x200, 0x1_0000_0270),
            (16, 0x0f, 2, 0, 0x1_0000_4000),
            (24, 0x0f, 1, 0, 0x1_0000_0268),
            (30, 0x0f, 1, 0x80, 0x1_0000_0268),
            (36, 0x01, 0, 0xfe00, 0),
        ],
        counts: (2, 3, 1),
        strings: b"\0_hidden\0_entry\0_common\0_main\0_weak\0_puts\0\0\0\0\0\0\0",
        indirect: b"\x05\0\0\0\x05\0\0\0\x04\0\0\0\0\0\0\x80",
        map: b"0000000100000268 00000004 main.o _main\n\
            000000010000026c 00000008 main.o _hidden\n\
            0000000100004000 00000008 main.o _common\n",
    },
};

/// A program of one function.
pub const ONE_FUNCTION: Case = Case {
    image: ImageRow {
        files: &[(
            b"main.o",
            &[(b"__TEXT", b"__text", 0, b"\x00\x00\x80\x52\xc0\x03\x5f\xd6")],
            &[(b"_main", Is::Seen(1, 0))],
        )],
        sections: &[(b"__text", &[((0, 1, 0), 0x1_0000_0268)])],
        commons: &[],
        bound: &[],
        needs: &[],
    },
    wanted: Wanted {
        symbols: &[(1, 0x0f, 1, 0, 0x1_0000_0268)],
        counts: (0, 1, 0),
        strings: b"\0_main\0\0",
        indirect: b"",
        map: b"0000000100000268 00000008 main.o _main\n",
    },
};

/// A program that calls a function of a library by a stub, with a string whose name is a compiler's own.
pub const HELLO: Case = Case {
    image: ImageRow {
        files: &[(
            b"hello.o",
            &[
                (
                    b"__TEXT",
                    b"__text",
                    0,
                    b"\0\0\0\0\0\0\0\0\0\0\0\0\0\0\0\0\0\0\0\0\0\0\0\0\0\0\0\0\0\0\0\0",
                ),
                (b"__TEXT", b"__cstring", 2, b"hi\0"),
            ],
            &[
                (b"ltmp0", Is::Local(1, 0)),
                (b"l_.str", Is::Local(2, 0)),
                (b"_main", Is::Seen(1, 0)),
                (b"_puts", Is::Undefined),
            ],
        )],
        sections: &[
            (b"__text", &[((0, 1, 0), 0x1_0000_0428)]),
            (b"__stubs", &[]),
            (b"__cstring", &[((0, 2, 0), 0x1_0000_0454)]),
            (b"__unwind_info", &[]),
            (b"__got", &[]),
        ],
        commons: &[],
        bound: &[(1, false)],
        needs: &[(Lead::Puts, true)],
    },
    wanted: Wanted {
        symbols: &[(1, 0x0f, 1, 0, 0x1_0000_0428), (7, 0x01, 0, 0x100, 0)],
        counts: (0, 1, 1),
        strings: b"\0_main\0_puts\0\0\0\0",
        indirect: b"\x01\0\0\0\x01\0\0\0",
        map: b"0000000100000428 00000020 hello.o _main\n\
            0000000100000454 00000003 hello.o -\n",
    },
};

/// A library of an object without sections.
pub const EMPTY: Case = Case {
    image: ImageRow {
        files: &[(b"empty.o", &[], &[])],
        sections: &[],
        commons: &[],
        bound: &[],
        needs: &[],
    },
    wanted: Wanted {
        symbols: &[],
        counts: (0, 0, 0),
        strings: b"\0\0\0\0\0\0\0\0",
        indirect: b"",
        map: b"",
    },
};

/// Two files with one string: that of the first stands for both. So the names of the second that other files see stand at
/// the first's, and its own name isn't written.
pub const ONE_STRING: Case = Case {
    image: ImageRow {
        files: &[
            (
                b"a.o",
                &[(b"__TEXT", b"__cstring", 2, b"hi\0")],
                &[(b"_own", Is::Local(1, 0))],
            ),
            (
                b"b.o",
                &[(b"__TEXT", b"__cstring", 2, b"hi\0")],
                &[
                    (b"_lost", Is::Local(1, 0)),
                    (b"_said", Is::Seen(1, 0)),
                    (b"_tail", Is::Hidden(1, 1)),
                ],
            ),
        ],
        sections: &[(b"__cstring", &[((0, 1, 0), 0x1_0000_0300)])],
        commons: &[],
        bound: &[],
        needs: &[],
    },
    wanted: Wanted {
        symbols: &[
            (1, 0x0e, 1, 0, 0x1_0000_0300),
            (6, 0x1e, 1, 0, 0x1_0000_0301),
            (12, 0x0f, 1, 0, 0x1_0000_0300),
        ],
        counts: (2, 1, 0),
        strings: b"\0_own\0_tail\0_said\0\0\0\0\0\0\0",
        indirect: b"",
        map: b"0000000100000300 00000003 a.o _own\n",
    },
};
