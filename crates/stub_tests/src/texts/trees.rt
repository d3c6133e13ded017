use super::{read, walk_of};
use std::alloc::Global;
use tbd_yaml::{YamlFault, YamlFile};

// A tree, and a text that is it.
const TREES: &str = "\
    %!t<>\t--- !t\n\
    %<>\t---~\n\
    %!t<>\t--- !t # c~# d~~...~? }\n\
    %!t<>%!u<>\t--- !t~--- !u\n\
    %!t<>\t# c~~---  !t \n\
    %!t{a=<b>.\t--- !t~a: b\n\
    %!t{a=<b>c=<>.\t--- !t;~a: b;~c: ;~\n\
    %!t{a=<b>c=<d e>.\t--- !t~  a: b # c~~  # d~  c: d e \n\
    %!t{a=<b#c>b=<:d>c=<e:f>.\t--- !t~a: b#c~b: :d~c: e:f\n\
    %!t{a={b={c=<d>.e=<f>.g=<h>.\t--- !t~a:~  b:~    c: d~  e: f~g: h\n\
    %!t{a=(<b><c>.d=<e>.\t--- !t~a:~- b~- c~d: e\n\
    %!t{a=(<b><c>.d=<e>.\t--- !t~a:~  - b~  - 'c' # d~d: e\n\
    %!t{a=({b=<c>d=<e>.<f>..\t--- !t~a:~- b: c~  d: e~- f\n\
    %!t({a=<b>c=(<d>..(<e><f>..\t--- !t~-   a: b~    c:~    - d~- [ e, f ]\n\
    %!t{a=<>b=<>.\t--- !t~a:~b:\n\
    %!t{a=(.b=(<c><d>..\t--- !t~a: []~b: [ c,~  # e~  d, ] # f\n\
    %!t{a=(<b c><d,e><f]><---><...>..\t--- !t~a: [b c, 'd,e'~,\"f]\",~---,~...~]\n\
    %!t{a=<it's>b=<''>c=<>.\t--- !t~a: 'it''s'~b: ''''''~c: ''\n\
    %!t{a=<\\\"A>b=<->>c=<\\n>.\t--- !t~a: \"\\\\\\\"\\x41\"~b: '->'~\"c\": '\\n'\n\
    %!t{a b=<c>d e=<f>.\t--- !t~a b : c~'d e': f\n\
    %!t(<- a><-b>.\t--- !t~- - a~- -b\n\
";

fn is_walk(alloc: Global, file: &YamlFile, walk: &str) -> Result<bool, YamlFault> {
    let found = walk_of(alloc, file)?;
    Ok(found.as_slice() == walk.as_bytes())
}

fn is_read(alloc: Global, walk: &str, text: &str) -> Result<bool, YamlFault> {
    let file = read(alloc, text)?;
    is_walk(alloc, &file, walk)
}

/// The first row whose text is another tree.
pub fn wrong_tree(alloc: Global) -> Option<&'static str> {
    for row in TREES.lines() {
        let (walk, text) = row.split_once('\t').unwrap_or((row, ""));
        if is_read(alloc, walk, text) != Ok(true) {
            return Some(row);
        }
    }
    None
}
