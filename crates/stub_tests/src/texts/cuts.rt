use super::{place_of, read, tells};
use std::alloc::Global;

const TEXT: &str = "\
    --- !tapi-tbd~\
    tbd-version:     4~\
    targets:         [ x86_64-macos, arm64-macos ]~\
    install-name:    '/usr/lib/libit''s.dylib'~\
    current-version: 1.2.3 # the last~\
    exports:~  \
      - targets:         [ arm64-macos ]~    \
        symbols:         [ _a, \"_b\\x41\",~                       \
                           '_c', ]~  \
      - targets: [ arm64-macos ]~    \
        weak-symbols: []~\
    reexports: # nothing~\
    - targets: [ arm64-macos ]~  \
      symbols: [ ]~\
    ...~\
    anything: [~\
";

// Up to each length, what the front of that many bytes is: a file (line 0), or a line and the rule that it breaks.
const CUTS: &str = "\
    2 1 open\n\
    14 0 read\n\
    25 2 key\n\
    33 0 read\n\
    40 3 key\n\
    50 0 read\n\
    78 3 flow\n\
    80 0 read\n\
    92 4 key\n\
    97 0 read\n\
    112 4 quote\n\
    113 0 read\n\
    121 4 quote\n\
    123 0 read\n\
    138 5 key\n\
    157 0 read\n\
    164 6 key\n\
    168 0 read\n\
    170 7 key\n\
    187 0 read\n\
    201 7 flow\n\
    207 0 read\n\
    214 8 key\n\
    224 0 read\n\
    230 8 flow\n\
    237 8 quote\n\
    263 8 flow\n\
    266 9 quote\n\
    269 8 flow\n\
    273 0 read\n\
    275 10 key\n\
    284 0 read\n\
    298 10 flow\n\
    304 0 read\n\
    316 11 key\n\
    318 0 read\n\
    319 11 flow\n\
    321 0 read\n\
    330 12 key\n\
    342 0 read\n\
    344 13 key\n\
    353 0 read\n\
    367 13 flow\n\
    371 0 read\n\
    378 14 key\n\
    380 0 read\n\
    382 14 flow\n\
    384 0 read\n\
    386 15 key\n\
    400 0 read\n\
";

fn is_so(alloc: Global, size: usize, number: u32, name: &str) -> bool {
    let read = read(alloc, TEXT.get(..size).unwrap_or(""));
    tells(&read, number, name)
}

// How many bytes the last of a row's fronts has, the line, and the rule.
fn row_of(row: &str) -> (usize, u32, &str) {
    let (last, rest) = row.split_once(' ').unwrap_or(("", ""));
    let (number, name) = place_of(rest);
    (last.parse::<usize>().unwrap_or(0), number, name)
}

/// The first row of which a front of the text is something else.
pub fn wrong_cut(alloc: Global) -> Option<&'static str> {
    let mut from = 0;
    for row in CUTS.lines() {
        let (last, number, name) = row_of(row);
        if last < from || last > TEXT.len() {
            return Some(row);
        }
        for size in from..=last {
            if !is_so(alloc, size, number, name) {
                return Some(row);
            }
        }
        from = last.min(400) + 1;
    }
    if from == TEXT.len() + 1 {
        None
    } else {
        Some("the whole text")
    }
}
