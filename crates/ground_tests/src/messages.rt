ghost use Rattle.std.specs.Prelude.{Some};

use mo_message::tell;
use mo_outside::{Diag, Failed};
use mo_types::{Bytes, Feature, RangeKind, Refusal, Rule, Status, UsageRule, Which};
use std::alloc::Global;

// Keeps what is put. The call of one number fails, and keeps the first half of its piece.
#[derive(Drop)]
struct Kept {
    bytes: Vec<u8>,
    calls: u64,
    failing: u64,
    faults: u64,
}

impl Diag for Kept {
    ghost lines = { λ kept. Some kept.bytes.items };

    ghost faults = { λ kept. kept.faults };

    fn put(&mut self, bytes: &[u8]) -> Result<(), Failed> {
        self.calls = self.calls.saturating_add(1);
        let fails = self.calls == self.failing;
        let taken = if fails { bytes.len() / 2 } else { bytes.len() };
        if self.bytes.extend_from_slice(&bytes[..taken]).is_err() || fails {
            self.faults = self.faults.saturating_add(1);
            return Err(Failed);
        }
        Ok(())
    }
}

fn bytes(text: &'static str) -> Bytes {
    Bytes::from_static(text.as_bytes())
}

fn told(alloc: Global, failing: u64, status: &Status) -> Kept {
    let mut kept = Kept {
        bytes: Vec::new(alloc),
        calls: 0,
        failing,
        faults: 0,
    };
    tell(&mut kept, b"out", status);
    kept
}

fn is_line(alloc: Global, status: &Status, line: &str) -> bool {
    let kept = told(alloc, 0, status);
    kept.bytes.as_slice() == line.as_bytes() && kept.faults == 0
}

fn read_fault() -> Status {
    Status::ReadFault {
        path: bytes("main.o"),
    }
}

// How many refusals have lines here.
const REFUSALS: u32 = 10;

// A refusal by its number, and its line.
fn refusal(number: u32) -> (Refusal, &'static str) {
    match number {
        0 => (
            Refusal::Missing {
                path: bytes("main.o"),
            },
            "atomld: not found: main.o\n",
        ),
        1 => (
            Refusal::Malformed {
                file: bytes("main.o"),
                place: 104,
                rule: Rule::Relocations,
            },
            "atomld: main.o: malformed at 104: relocations\n",
        ),
        2 => (
            Refusal::Unsupported {
                file: bytes("main.o"),
                feature: Feature::Later,
            },
            "atomld: main.o: unsupported: later\n",
        ),
        3 => (
            Refusal::Limit {
                which: Which::Sections,
            },
            "atomld: limit: sections\n",
        ),
        4 => (
            Refusal::Duplicate {
                name: bytes("_f"),
                first: bytes("main.o"),
                second: bytes("libx.a(h.o)"),
            },
            "atomld: duplicate _f: main.o, libx.a(h.o)\n",
        ),
        _ => refusal_of_names_and_places(number),
    }
}

fn refusal_of_names_and_places(number: u32) -> (Refusal, &'static str) {
    match number {
        5 => (
            Refusal::Undefined {
                name: bytes("_main"),
                file: bytes(""),
            },
            "atomld: undefined _main\n",
        ),
        6 => (
            Refusal::Undefined {
                name: bytes("_nobody"),
                file: bytes("main.o"),
            },
            "atomld: undefined _nobody: main.o\n",
        ),
        7 => (
            Refusal::NeedsImage {
                file: bytes("main.o"),
                place: 416,
            },
            "atomld: main.o: import without slot at 416\n",
        ),
        8 => (
            Refusal::Range {
                file: bytes("main.o"),
                place: 704,
                kind: RangeKind::FixupPlace,
                value: 16393,
            },
            "atomld: main.o: out of range at 704: fixupplace 16393\n",
        ),
        _ => (
            Refusal::Range {
                file: bytes("main.o"),
                place: u64::MAX,
                kind: RangeKind::Branch,
                value: i128::MIN,
            },
            "atomld: main.o: out of range at 18446744073709551615: branch -170141183460469231731687303715884105728\n",
        ),
    }
}

// How many answers have lines here.
const ANSWERS: u32 = 5 + REFUSALS;

// An answer by its number, and its line.
fn answer(number: u32) -> (Status, &'static str) {
    match number {
        0 => (Status::Done, ""),
        1 => (
            Status::Usage {
                word: 2,
                rule: UsageRule::NoValue,
            },
            "atomld: usage: word 2: novalue\n",
        ),
        2 => (read_fault(), "atomld: cannot read main.o\n"),
        3 => (Status::WriteFault, "atomld: cannot write out\n"),
        4 => (Status::OutOfMemory, "atomld: out of memory\n"),
        _ => {
            let (refusal, line) = refusal(number.wrapping_sub(5));
            (Status::Refused(refusal), line)
        }
    }
}

fn has_line(alloc: Global, number: u32) -> bool {
    let (status, line) = answer(number);
    is_line(alloc, &status, line)
}

// Whether a message ends so where the call of a number fails, and nothing is put after it.
fn is_cut_off(alloc: Global, failing: u64, line: &str) -> bool {
    let status = read_fault();
    let kept = told(alloc, failing, &status);
    kept.bytes.as_slice() == line.as_bytes() && kept.faults == 1 && kept.calls == failing
}

/// Whether each answer has its line.
pub(crate) fn answers_have_lines(alloc: Global) -> bool {
    for number in 0..ANSWERS {
        if !has_line(alloc, number) {
            return false;
        }
    }
    true
}

// How a message ends whose call of each number fails, from 1 on.
const CUT_OFF: [&str; 3] = [
    "atomld: ca",
    "atomld: cannot read mai",
    "atomld: cannot read main.o",
];

/// Whether a message whose call fails ends where it should.
pub(crate) fn messages_are_cut_off(alloc: Global) -> bool {
    for (line, failing) in CUT_OFF.iter().zip(1u64..) {
        if !is_cut_off(alloc, failing, line) {
            return false;
        }
    }
    true
}
