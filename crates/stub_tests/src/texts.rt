//! Texts of stub libraries. What is expected comes from the grammar of YAML 1.2 and TBD version 4, by hand.
mod cuts;
mod faults;
mod trees;
mod worked;

use mo_types::Bytes;
use std::alloc::Global;
use std::test::Fail;
use tbd_yaml::{YamlEvent, YamlFault, YamlFile, read_yaml};

// The bytes of a row: `~` stands for a newline, `^` for a tab, `;` for a carriage return, `?` for a byte that is no
// UTF-8.
fn text_of(alloc: Global, row: &str) -> Result<Vec<u8>, YamlFault> {
    let mut text = Vec::new(alloc);
    for byte in row.as_bytes() {
        text.push(match *byte {
            b'~' => b'\n',
            b'^' => b'\t',
            b';' => b'\r',
            b'?' => 0xff,
            byte => byte,
        })?;
    }
    Ok(text)
}

// Reads a text, as far as it is one of fewer than 2^32 bytes.
fn read_bytes(alloc: Global, text: &Bytes) -> Result<YamlFile, YamlFault> {
    if text.len() > 0xffff_ffff {
        return Err(YamlFault::OutOfMemory);
    }
    read_yaml(alloc, text)
}

fn read(alloc: Global, row: &str) -> Result<YamlFile, YamlFault> {
    let text = Bytes::from_vec(text_of(alloc, row)?)?;
    read_bytes(alloc, &text)
}

// The trees of a file: `%` and a tag before each; `(`, a list's items and `.`; `{`, a map's pairs and `.`, each with
// `=` behind its key; and `<`, a scalar and `>`.
fn walk_of(alloc: Global, file: &YamlFile) -> Result<Vec<u8>, YamlFault> {
    let mut walk = Vec::new(alloc);
    for doc in file.docs.as_slice() {
        walk.push(b'%')?;
        walk.extend_from_slice(doc.tag.as_slice())?;
        for event in doc.events.as_slice() {
            match event {
                YamlEvent::BeginList => walk.push(b'(')?,
                YamlEvent::BeginMap => walk.push(b'{')?,
                YamlEvent::End => walk.push(b'.')?,
                YamlEvent::Key(name) => {
                    walk.extend_from_slice(name.as_slice())?;
                    walk.push(b'=')?;
                }
                YamlEvent::Scalar(text) => {
                    walk.push(b'<')?;
                    walk.extend_from_slice(text.as_slice())?;
                    walk.push(b'>')?;
                }
            }
        }
    }
    Ok(walk)
}

// The line and the rule of a row, as `5 flow` says.
fn place_of(text: &str) -> (u32, &str) {
    let (number, name) = text.split_once(' ').unwrap_or(("", ""));
    (number.parse::<u32>().unwrap_or(u32::MAX), name)
}

// Whether what was read is a fault of a line and rule, or a file where the line is 0.
fn tells(read: &Result<YamlFile, YamlFault>, number: u32, name: &str) -> bool {
    match read {
        Ok(_) => number == 0,
        Err(YamlFault::At { line, rule }) => *line == number && rule.as_str() == name,
        Err(YamlFault::OutOfMemory) => false,
    }
}

#[test]
fn open_flow_list_and_sdk_hello(rt: HostRuntime) -> Result<(), Fail> {
    let alloc = rt.alloc();
    assert!(rt; worked::open_flow_list(alloc));
    assert!(rt; worked::sdk_hello(alloc));
    assert!(rt; worked::deep_and_long(alloc) == Ok(true));
    for wrong in [
        trees::wrong_tree(alloc),
        faults::wrong_fault(alloc),
        cuts::wrong_cut(alloc),
    ] {
        let row = wrong.unwrap_or("");
        assert!(rt; wrong.is_none(), "{row}");
    }
    Ok(())
}
