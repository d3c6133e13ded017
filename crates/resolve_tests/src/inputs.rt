//! What inputs are, by tables that were written by hand.
use crate::{files, forms};
use input_files::{Input, LoadFault};
use input_read::{Opened, are_in_order, open_inputs};
use mo_outside::FreeGate;
use mo_types::{Bytes, OutOfMemory, Refusal};
use std::alloc::Global;
use std::test::Fail;
use std::thread::Threads;

// A file: what messages call it, its bytes, and the word for its fault, or nothing where it has none.
struct File {
    label: &'static [u8],
    bytes: &'static [u8],
    fault: &'static [u8],
}

fn input_of(position: u16, file: &File) -> Input {
    Input {
        position,
        label: Bytes::from_static(file.label),
        bytes: Bytes::from_static(file.bytes),
        forced: false,
    }
}

// The labels of inputs, each with a blank after it: first those of objects and archives, then those of stub libraries.
fn labels_of(alloc: Global, opened: &Opened) -> Result<Vec<u8>, OutOfMemory> {
    let mut out = Vec::new(alloc);
    for source in opened.sources.as_slice() {
        out.extend_from_slice(source.input.label.as_slice())?;
        out.push(b' ')?;
    }
    for stub in opened.stubs.as_slice() {
        out.extend_from_slice(stub.label.as_slice())?;
        out.push(b' ')?;
    }
    Ok(out)
}

// The file that a fault names, and the fault's word.
fn told(alloc: Global, fault: &LoadFault) -> Result<Vec<u8>, OutOfMemory> {
    let (file, word) = match fault {
        LoadFault::Refused(Refusal::Malformed { file, rule, .. }) => {
            (file.as_slice(), rule.as_str())
        }
        LoadFault::Refused(Refusal::Unsupported { file, feature }) => {
            (file.as_slice(), feature.as_str())
        }
        _ => return Ok(Vec::new(alloc)),
    };
    line(alloc, file, word.as_bytes())
}

fn line(alloc: Global, file: &[u8], word: &[u8]) -> Result<Vec<u8>, OutOfMemory> {
    let mut out = Vec::new(alloc);
    out.extend_from_slice(file)?;
    out.push(b' ')?;
    out.extend_from_slice(word)?;
    Ok(out)
}

// What is told of inputs.
fn said<R: Threads + Sync>(
    rt: &R,
    alloc: Global,
    workers: u32,
    inputs: &[Input],
) -> Result<Vec<u8>, OutOfMemory> {
    if !are_in_order(inputs) {
        return Ok(Vec::new(alloc));
    }
    match open_inputs(rt, alloc, &FreeGate, workers, inputs) {
        Ok(opened) => labels_of(alloc, &opened),
        Err(fault) => told(alloc, &fault),
    }
}

// What is to be told of two files: the fault of the first that has one, or both labels, that of a stub library last.
fn wanted(alloc: Global, first: &File, second: &File) -> Result<Vec<u8>, OutOfMemory> {
    for file in [first, second] {
        if !file.fault.is_empty() {
            return line(alloc, file.label, file.fault);
        }
    }
    let (first, second) = if first.label == b"stub".as_slice() {
        (second, first)
    } else {
        (first, second)
    };
    let mut out = line(alloc, first.label, second.label)?;
    out.push(b' ')?;
    Ok(out)
}

// Whether what is told of two files is what is to be told.
fn tells<R: Threads + Sync>(
    rt: &R,
    alloc: Global,
    workers: u32,
    first: &File,
    second: &File,
) -> Result<bool, OutOfMemory> {
    let mut inputs = Vec::new(alloc);
    inputs.push(input_of(3, first))?;
    inputs.push(input_of(8, second))?;
    let said = said(rt, alloc, workers, inputs.as_slice())?;
    Ok(said == wanted(alloc, first, second)?)
}

const FILES: [File; 20] = [
    File {
        label: b"calls",
        bytes: files::STUB_MAIN,
        fault: b"",
    },
    File {
        label: b"differences",
        bytes: forms::DIFFERENCES,
        fault: b"",
    },
    File {
        label: b"pages",
        bytes: forms::PAGES,
        fault: b"",
    },
    File {
        label: b"dropped",
        bytes: forms::DROPPED_STRINGS,
        fault: b"",
    },
    File {
        label: b"pointer",
        bytes: forms::POINTER,
        fault: b"",
    },
    File {
        label: b"got",
        bytes: forms::GOT,
        fault: b"",
    },
    File {
        label: b"common",
        bytes: forms::COMMON,
        fault: b"",
    },
    File {
        label: b"strings",
        bytes: forms::STRINGS,
        fault: b"",
    },
    File {
        label: b"literals",
        bytes: forms::LITERALS,
        fault: b"",
    },
    File {
        label: b"threads",
        bytes: forms::THREAD_LOCAL,
        fault: b"",
    },
    // a rule that is broken, and a feature that the linker doesn't have
    File {
        label: b"open",
        bytes: forms::OPEN_STRINGS,
        fault: b"literals",
    },
    File {
        label: b"aligned",
        bytes: forms::ALIGNED_STRINGS,
        fault: b"alignment",
    },
    File {
        label: b"cut",
        bytes: b"\xcf\xfa\xed\xfe",
        fault: b"header",
    },
    File {
        label: b"archive",
        bytes: files::ROUNDS_A,
        fault: b"",
    },
    File {
        label: b"universal",
        bytes: b"\xca\xfe\xba\xbe\0\0\0\x01",
        fault: b"slice",
    },
    File {
        label: b"stub",
        bytes: b"--- !tapi-tbd\ntbd-version: 4\ntargets: [ arm64-macos ]\ninstall-name: '/l'\n...\n",
        fault: b"",
    },
    File {
        label: b"text",
        bytes: b"text",
        fault: b"notaninput",
    },
    File {
        label: b"bitcode",
        bytes: b"BC\xc0\xde",
        fault: b"bitcode",
    },
    File {
        label: b"thin",
        bytes: b"!<thin>\n",
        fault: b"thinarchive",
    },
    File {
        label: b"wide",
        bytes: b"\xca\xfe\xba\xbf",
        fault: b"fat64",
    },
];

#[test]
fn first_of_two_files_at_fault(rt: HostRuntime) -> Result<(), Fail> {
    let alloc = rt.alloc();
    for first in &FILES {
        for second in &FILES {
            for workers in [1, 2, 7] {
                assert!(rt; tells(&rt, alloc, workers, first, second)?);
            }
        }
    }
    Ok(())
}

// So many files: all of one form, but those at two places.
fn many(alloc: Global, count: u16, first: u16, second: u16) -> Result<Vec<Input>, OutOfMemory> {
    let mut inputs = Vec::new(alloc);
    for position in 0..count {
        let file = if position == first {
            &FILES[16]
        } else if position == second {
            &FILES[11]
        } else {
            &FILES[0]
        };
        inputs.push(input_of(position, file))?;
    }
    Ok(inputs)
}

#[test]
fn thousands_of_files(rt: HostRuntime) -> Result<(), Fail> {
    let alloc = rt.alloc();
    for (first, second, length, end) in [
        (5000, 5000, 18_000, b"calls ".as_slice()),
        (2999, 5000, 15, b"notaninput".as_slice()),
        (2000, 1000, 17, b"alignment".as_slice()),
        (1000, 2000, 15, b"notaninput".as_slice()),
    ] {
        let inputs = many(alloc, 3000, first, second)?;
        let said = said(&rt, alloc, 3, inputs.as_slice())?;
        assert!(rt; said.len() == length && said.as_slice().ends_with(end));
    }
    Ok(())
}
