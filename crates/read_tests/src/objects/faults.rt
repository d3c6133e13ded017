//! One object at fault for each rule and each feature, and any two faults in one object.
use super::sample::{fault_of, sample, tells};
use crate::edits::edit;
use mo_types::OutOfMemory;
use std::alloc::Global;

// Bytes of the sample, and what is told: a place and the bytes that stand there. The lines are in the order in which
// faults are told: of two that stand together, the upper one.
fn cases() -> &'static str {
    "\
# the type of another machine, arm64e, a dynamic library
4=07: unsupported: machine
8=02: unsupported: machine
12=06: unsupported: filetype
# sizes 12, 0 and 28; commands of 519 bytes; the last one of 288 bytes; a fourth one
36=0c00: malformed at 32: commands
36=0000: malformed at 32: commands
508=1c: malformed at 504: commands
20=0702: malformed at 528: commands
532=2001: malformed at 528: commands
16=04: malformed at 552: commands
# headers of 4 and of 6 sections in the room of 5; a second segment; a second symbol table
96=04: malformed at 32: segment
96=06: malformed at 32: segment
528=19: malformed at 528: segment
528=02: malformed at 528: segment
# contents from 833 on; the end at 2^63; 2^63 bytes; zeros up to 2^63; debugging data outside
152=4103: malformed at 104: section
136=f0ffffffffffff7f: malformed at 104: section
304=0000000000000080: malformed at 264: section
384=c8ffffffffffff7f: malformed at 344: section
472=ffffffff: malformed at 424: section
# 30 relocations; none from 849 on; one of debugging data from 841 on
164=1e: malformed at 104: relocations
400=5103: malformed at 344: relocations
480=4903: malformed at 424: relocations
# symbols from 721 on; 12 symbols; 57 bytes of strings
512=d102: malformed at 504: symbols
516=0c: malformed at 504: symbols
524=39: malformed at 504: symbols
# a name behind the strings; a value below the section; a stab's name behind the strings
664=38: malformed at 664: symbol
672=0f: malformed at 664: symbol
680=39: malformed at 680: symbol
# sections 0 and 6; a value behind the section's end; a name without NUL
701=00: malformed at 696: symbol
701=06: malformed at 696: symbol
704=11: malformed at 696: symbol
847=78: malformed at 776: symbol
# strings without the last NUL; literals of 16, 4 and 8 bytes in 8, 6 and 4 bytes
328=02 304=08 607=6f: malformed at 264: literals
328=0e: malformed at 264: literals
328=03 304=06: malformed at 264: literals
328=04 304=04: malformed at 264: literals
# the same in a section that isn't linked
488=02 615=78: malformed at 424: literals
# ADDEND at 4 before PAGE21 at 0; SUBTRACTOR at 0 before UNSIGNED at 4, and before SUBTRACTOR; ADDEND last
623=ad 624=00: malformed at 616: pair
640=04: malformed at 632: pair
647=1e: malformed at 632: pair
655=a6: malformed at 648: pair
# BRANCH26 with r_length 3; type 12; PAGEOFF12 with r_pcrel; lengths 3 and 2 in a pair; UNSIGNED of 4 bytes
623=2f: malformed at 616: shape
631=cd: malformed at 624: shape
631=4d: malformed at 624: shape
647=0c: malformed at 632: shape
655=04: malformed at 648: shape
# an instruction at 3; two at 4; one below 0
616=03: malformed at 616: place
624=04000000: malformed at 616: place
627=80: malformed at 624: place
# a pointer at 4 over the difference at 0
648=04 655=06: malformed at 632: place
# a pointer in zeros, in a literal, in a string
408=01 400=8002 404=01: malformed at 640: place
328=04 320=8002 324=01: malformed at 640: place
603=6f 320=8002 324=01: malformed at 640: place
# a pointer over the section's end; one across `_debug`, which stands at 12 in its section
648=1c 655=06: malformed at 648: place
765=02 768=1c 655=06: malformed at 648: place
# no such symbol; a stab; an undefined symbol that isn't external; a local one of debugging data
620=08: malformed at 616: target
628=01: malformed at 624: target
628=07: malformed at 624: target
628=06: malformed at 624: target
# no such symbol, of either relocation of a pair
636=09: malformed at 632: target
644=09: malformed at 640: target
# sections 0, 6, and one that isn't linked; addresses behind and before section 3
652=00000006: malformed at 648: target
652=06000006: malformed at 648: target
652=05000006: malformed at 648: target
576=39 655=06: malformed at 648: target
576=2f 655=06: malformed at 648: target
# frames in their compact form that aren't whole
424=5f5f636f6d706163745f756e77696e64 440=5f5f4c44000000 464=08 472=6002: malformed at 608: unwind
# non-lazy pointers, stubs
248=06: unsupported: sectiontype
408=08: unsupported: sectiontype
184=5f5f6f626a635f636f6e7374: unsupported: objcsection
# sections of 2^15 and 2^(2^24 + 3), a common of 2^15
396=0f: unsupported: alignment
399=01: unsupported: alignment
735=0f: unsupported: alignment
# code in `__DATA`, and in a section of another type
251=80: unsupported: codesegment
168=09: unsupported: codesegment
# segments of the linker's own, and thread-local zeros and variables outside `__DATA`
360=5f5f4c494e4b45444954: unsupported: segmentname
360=5f5f504147455a45524f: unsupported: segmentname
408=12 360=5f5f42535300: unsupported: segmentname
248=13 200=5f5f54455854: unsupported: segmentname
360=5f5f54455854: unsupported: textzerofill
# N_INDR, N_PBUD, a resolver
716=0b: unsupported: symbolkind
716=0d: unsupported: symbolkind
703=01: unsupported: symbolkind
# external; named by a relocation, and by a SUBTRACTOR
748=03: unsupported: absolute
620=05: unsupported: absolute
636=05: unsupported: absolute
655=b6: unsupported: pointerauth"
}

// Bytes at the edge of a rule, or that no rule looks at.
fn accepted() -> &'static str {
    "\
# contents, relocations and zeros that end where they may
152=4003
400=5003
376=f7ffffffffffff7f
392=ffffffff
# a symbol and a pointer at a section's end, alignments of a page
704=10
576=38
396=0e
735=0e
# a section that isn't linked: its alignment, type, attributes, name, and a frame's in `__TEXT`
476=20
488=06
491=82
424=5f5f6f626a635f636f6e7374
344=5f5f65685f6672616d65 360=5f5f54455854
440=5f5f4c4c564d00
# no frames in their compact form, and no relocations of theirs
424=5f5f636f6d706163745f756e77696e64 440=5f5f4c44000000 464=00 484=00
# one whole frame, whose function a pointer to `_main` tells
424=5f5f636f6d706163745f756e77696e64 440=5f5f4c44000000 464=20 472=4802 480=8002
# a command of no known kind, a minimal version's number
528=ffffffff
540=ffffffff"
}

// The line's bytes and its message; a line that begins with `#` has neither.
fn case(line: &str) -> Option<(&str, &str)> {
    if line.starts_with('#') {
        return None;
    }
    line.split_once(": ")
}

fn changed(alloc: Global, edits: &str, more: &str) -> Result<Vec<u8>, OutOfMemory> {
    let mut bytes = sample(alloc)?;
    edit(&mut bytes, edits);
    edit(&mut bytes, more);
    Ok(bytes)
}

// Whether the sample with changes tells a fault; where the file is too short for a header, nothing else is asked.
fn is_told(alloc: Global, others: &str, edits: &str, text: &str) -> Result<bool, OutOfMemory> {
    let bytes = changed(alloc, others, edits)?;
    let first = bytes.get(..31).unwrap_or(b"");
    Ok(tells(alloc, &bytes, text)? && tells(alloc, first, "malformed at 0: header")?)
}

fn is_accepted(alloc: Global, edits: &str, more: &str) -> Result<bool, OutOfMemory> {
    let bytes = changed(alloc, edits, more)?;
    Ok(fault_of(alloc, &bytes).is_none())
}

// Whether a line of the cases is told where the changes of itself or of a later line come first.
fn is_told_with_later(
    alloc: Global,
    number: usize,
    edits: &str,
    text: &str,
) -> Result<bool, OutOfMemory> {
    for (others, _) in cases().lines().filter_map(case).skip(number) {
        if !is_told(alloc, others, edits, text)? {
            return Ok(false);
        }
    }
    Ok(true)
}

/// Of two faults the first one here is told, whatever the places: a rule before a feature, an earlier rule at a
/// later place, the lesser place of one rule. Each fault stands beside itself too, and so alone. Gives the first
/// changes for which that isn't so.
pub fn first_of_two_faults(alloc: Global) -> Result<Option<&'static str>, OutOfMemory> {
    for (i, (edits, text)) in cases().lines().filter_map(case).enumerate() {
        if !is_told_with_later(alloc, i, edits, text)? {
            return Ok(Some(edits));
        }
    }
    Ok(None)
}

// The third command is a symbol table of 32 bytes, and the second one is passed over.
const LATER_TABLE: &str =
    "504=32 528=02 532=20 20=1002 536=98020000 540=08000000 544=18030000 548=38000000";

/// Whether symbol tables have one size.
pub fn symbol_tables_have_one_size(alloc: Global) -> Result<bool, OutOfMemory> {
    Ok(
        is_told(alloc, "", LATER_TABLE, "malformed at 528: symbols")?
            && is_accepted(alloc, LATER_TABLE, "532=18 20=08")?,
    )
}

/// The first changes that are to be accepted and aren't.
pub fn no_fault(alloc: Global) -> Result<Option<&'static str>, OutOfMemory> {
    for line in accepted().lines() {
        if !line.starts_with('#') && !is_accepted(alloc, line, "")? {
            return Ok(Some(line));
        }
    }
    Ok(None)
}
