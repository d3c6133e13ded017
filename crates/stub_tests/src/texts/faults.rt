use super::{place_of, read, tells};
use std::alloc::Global;

// The line and the rule, and a text that breaks it first.
const FAULTS: &str = "\
    1 open\t\n\
    1 open\ta: b\n\
    3 open\t# c~~a: b\n\
    2 open\t~~\n\
    1 open\t...\n\
    1 open\t--- a b\n\
    1 open\t---x~\n\
    1 open\t^a: b\n\
    1 utf8\t?~--- !t\n\
    2 utf8\t--- !t~a: ?\n\
    2 utf8\t--- !t~# ?\n\
    3 utf8\t--- !t~a: [ b,~ ? ]\n\
    3 tab\t--- !t~a: b~^c: d\n\
    2 tab\t--- !t~ ^c: d\n\
    3 tab\t--- !t~a:~^b: c~d\n\
    3 tab\t--- !t~a: b~ ^a: &b\n\
    3 indent\t--- !t~a: b~  c: d\n\
    4 indent\t--- !t~a:~    b: c~  d: e\n\
    3 indent\t--- !t~  a: b~c: d\n\
    4 indent\t--- !t~a:~  - b~ - c\n\
    4 indent\t--- !t~- a: b~  c: d~ - e\n\
    2 key\t--- !t~nonsense\n\
    3 key\t--- !t~a: b~a: c\n\
    3 key\t--- !t~a: b~'a': &c\n\
    4 key\t--- !t~a:~  - b: c~    b: d\n\
    2 key\t--- !t~a: b: c\n\
    2 key\t--- !t~- \n\
    2 key\t--- !t~- # a\n\
    2 key\t--- !t~-\n\
    3 key\t--- !t~a: b~- c\n\
    3 key\t--- !t~- a~b: c\n\
    4 key\t--- !t~a:~  - b~  c: d\n\
    2 key\t--- !t~[ a ]\n\
    2 key\t--- !t~&a: b\n\
    2 key\t--- !t~: b\n\
    2 key\t--- !t~a:b\n\
    2 key\t--- !t~a: 'b' c\n\
    2 key\t--- !t~a: 'b'#c\n\
    2 key\t--- !t~a: \"b\\q\" c\n\
    2 key\t--- !t~'a: b\n\
    2 flow\t--- !t~a: [ b\n\
    2 flow\t--- !t~a: [ b~...\n\
    2 flow\t--- !t~a: [ , b ]\n\
    2 flow\t--- !t~a: [ b,, c ]\n\
    2 flow\t--- !t~a: [ b c: d ]\n\
    2 flow\t--- !t~a: [ b ] c\n\
    2 flow\t--- !t~a: [ b ]#\n\
    2 flow\t--- !t~a: [~ b~ c ]\n\
    2 flow\t--- !t~a: [ [ b ] ]\n\
    2 flow\t--- !t~a: [ &b, \"\\q\" ] c\n\
    2 flow\t--- !t~a: [ 'b' 'c\n\
    2 quote\t--- !t~a: 'b\n\
    2 quote\t--- !t~a: 'b''\n\
    2 quote\t--- !t~a: \"b\\\"\n\
    3 quote\t--- !t~a: [ b,~ 'c ]\n\
    2 quote\t--- !t~a: [ &b, \"\\q\", 'c ]\n\
    2 escape\t--- !t~a: \"\\q\"\n\
    2 escape\t--- !t~a: \"\\x80\"\n\
    2 escape\t--- !t~a: \"\\x4\"\n\
    2 escape\t--- !t~a: \"\\u0041\"\n\
    2 escape\t--- !t~a: [ &b, \"\\q\" ]\n\
    2 scalar\t--- !t~a: &b\n\
    2 scalar\t--- !t~a: { b: c }\n\
    2 scalar\t--- !t~a: |\n\
    2 scalar\t--- !t~a: [ &b ]\n\
    2 scalar\t--- !t~a: [ b,#c ]\n\
    3 scalar\t--- !t~a: [ b,~ &c,~ 'd\n\
    2 scalar\t--- !t~a: &b~a: c\n\
    2 scalar\t--- !t~a: @b~^c\n\
";

fn is_told(alloc: Global, place: &str, text: &str) -> bool {
    let (number, name) = place_of(place);
    let read = read(alloc, text);
    tells(&read, number, name)
}

/// The first row of which another rule or line is told.
pub fn wrong_fault(alloc: Global) -> Option<&'static str> {
    for row in FAULTS.lines() {
        let (place, text) = row.split_once('\t').unwrap_or((row, ""));
        if !is_told(alloc, place, text) {
            return Some(row);
        }
    }
    None
}
