use super::{closed, named_at, text_of};
use lib_bind::{BindFault, Libraries, StubFileList};
use mo_outside::FileList;
use mo_types::{Bytes, Feature, OutOfMemory, Refusal, Rule, Which};
use std::alloc::Global;

// The words of a command line; the stub libraries that it names, by the positions of their inputs; files by their paths;
// the number of the fetch that fails, or 0; and what comes of it: of each library its position, ordinal and document, and
// of each document the install name and the documents that it re-exports, or the fault.
const ROWS: &str = "\
    a.tbd\t0=/a>/b,/b\t\t0\t0#1@0 /a>1 /b\n\
    a.tbd b.tbd\t0=/a>/b;1=/b>/a\t\t0\t0#1@0 1#2@1 /a>1 /b>0\n\
    m.o a.tbd\t1=/a.dylib>/b.dylib\t/b.tbd=/b.dylib>/c.dylib;/c.tbd=/c.dylib>/a.dylib>/b.dylib\t0\t1#1@0 /a.dylib>1 /b.dylib>2 /c.dylib>0>1\n\
    m.o a.tbd\t1=/a.dylib>/b.dylib\t/b.tbd=/b.dylib>/c.dylib;/c.tbd=/c.dylib>/a.dylib>/b.dylib\t1\tunread /b.tbd\n\
    m.o a.tbd\t1=/a.dylib>/b.dylib\t/b.tbd=/b.dylib>/c.dylib;/c.tbd=/c.dylib>/a.dylib>/b.dylib\t2\tunread /c.tbd\n\
    m.o a.tbd\t1=/a.dylib>/b.dylib\t/b.tbd=/b.dylib>/c.dylib;/c.tbd=/c.dylib>/a.dylib>/b.dylib\t3\t1#1@0 /a.dylib>1 /b.dylib>2 /c.dylib>0>1\n\
    a.tbd b.tbd\t0=/a>/c;1=/b,/c\t\t0\tmissing /c.tbd\n\
    a.tbd b.tbd\t0=/a>/c;1=/b,/c\t/c.tbd=/d\t0\t0#1@0 1#2@1 /a>3 /b /c /d\n\
    a.tbd -syslibroot /SDK\t0=/a>/usr/lib/x.1.dylib\t/SDK/usr/lib/x.1.tbd=/x\t0\t0#1@0 /a>1 /x\n\
    a.tbd -syslibroot /SDK\t0=/a>/x.dylib\t/SDK/x.dylib=/x;/x.tbd=/y\t0\t0#1@0 /a>1 /x\n\
    a.tbd\t0=/a>/F/X\t/F/X.tbd=/x\t0\t0#1@0 /a>1 /x\n\
    a.tbd\t0=/a>/x.dylib\t/x.dylib=/x\t2\tunread /x.dylib\n\
    a.tbd\t0=/a>/x.dylib\t/y.tbd=/x\t0\tmissing /x.tbd\n\
    a.tbd b.tbd c.tbd\t0=/a;1=/a>/gone;2=/c\t\t0\t0#1@0 2#2@1 /a /c\n\
    a.tbd\t0=/a>/b>/c\t/b.tbd=/b>/d;/c.tbd=/c;/d.tbd=/d\t0\t0#1@0 /a>1>2 /b>3 /c /d\n\
    a.tbd\t0=/a>/b>/c\t/b.tbd=/b>/d;/c.tbd=/c;/d.tbd=/d\t2\tunread /c.tbd\n\
    a.tbd\t0=/a>/x>/x\t/x.tbd=/x\t2\t0#1@0 /a>1>1 /x\n\
    a.tbd -weak_library b.tbd\t0=/a;1=/b\t\t0\t0#1@0 1#2@1w /a /b\n\
    a.tbd\t0=/a>/x\t/x.tbd=/x>/y,/y,?/z\t0\t0#1@0 /a>1 /x>2 /y\n\
    a.tbd\t0=/a>/x\t/x.tbd=!/x\t0\ttbd /x.tbd\n\
    a.tbd\t0=/a>/x\t/x.tbd=?/x\t0\tno target /x.tbd\n\
    a.tbd\t0=/a>/x\t/x.tbd=~\t0\tno input /x.tbd\n\
";

fn named_of(alloc: Global, row: &str) -> Result<StubFileList, OutOfMemory> {
    let mut named = StubFileList::new(alloc);
    for part in row.split(';') {
        if let Some((position, documents)) = part.split_once('=') {
            if let Some(stub) = named_at(alloc, position.parse::<u16>().unwrap_or(0), documents)? {
                named.push(stub)?;
            }
        }
    }
    Ok(named)
}

fn files_of(alloc: Global, row: &str) -> Result<FileList, OutOfMemory> {
    let mut files = FileList::new(alloc);
    for part in row.split(';') {
        if let Some((path, documents)) = part.split_once('=') {
            let path = Bytes::from_slice(alloc, path.as_bytes())?;
            files.push((path, text_of(alloc, documents)?))?;
        }
    }
    Ok(files)
}

// What is said of libraries.
fn said_of(alloc: Global, libs: &Libraries) -> Result<Vec<u8>, OutOfMemory> {
    let graph = libs.graph();
    let mut said = Vec::new(alloc);
    for library in graph.libraries.as_slice() {
        let weak = if library.weak { "w" } else { "" };
        let text = format!(in alloc;
            "{}#{}@{}{} ",
            library.position, library.ordinal, library.document, weak
        )?;
        said.extend_from_slice(text.as_bytes())?;
    }
    for (document, links) in graph
        .documents
        .as_slice()
        .iter()
        .zip(graph.links.as_slice().iter())
    {
        said.extend_from_slice(document.install.as_slice())?;
        for to in links.as_slice() {
            let text = format!(in alloc; ">{to}")?;
            said.extend_from_slice(text.as_bytes())?;
        }
        said.push(b' ')?;
    }
    Ok(said)
}

// The word for a fault and the path that it tells.
fn told(fault: &BindFault) -> (&'static str, &[u8]) {
    match fault {
        BindFault::ReadFault { path } => ("unread", path.as_slice()),
        BindFault::Refused(Refusal::Missing { path }) => ("missing", path.as_slice()),
        BindFault::Refused(
            Refusal::Unsupported {
                file,
                feature: Feature::Tbd,
            },
        ) => ("tbd", file.as_slice()),
        BindFault::Refused(
            Refusal::Malformed {
                file,
                place: 0,
                rule: Rule::NoTarget,
            },
        ) => ("no target", file.as_slice()),
        BindFault::Refused(
            Refusal::Malformed {
                file,
                place: 0,
                rule: Rule::NotAnInput,
            },
        ) => ("no input", file.as_slice()),
        BindFault::Refused(
            Refusal::Limit {
                which: Which::Libraries,
            },
        ) => ("limit", b""),
        _ => ("another", b""),
    }
}

fn said_of_fault(alloc: Global, fault: &BindFault) -> Result<Vec<u8>, OutOfMemory> {
    let (word, path) = told(fault);
    let mut said = Vec::new(alloc);
    said.extend_from_slice(word.as_bytes())?;
    said.push(b' ')?;
    said.extend_from_slice(path)?;
    said.push(b' ')?;
    Ok(said)
}

fn said_of_answer(
    alloc: Global,
    answer: &Result<Option<Libraries>, BindFault>,
) -> Result<Vec<u8>, OutOfMemory> {
    match answer {
        Ok(Some(libs)) => said_of(alloc, libs),
        Ok(None) => Ok(Vec::new(alloc)),
        Err(fault) => said_of_fault(alloc, fault),
    }
}

// Whether what comes of an answer is what a row says, but for the blank at the end.
fn is_said(
    alloc: Global,
    answer: &Result<Option<Libraries>, BindFault>,
    wanted: &str,
) -> Result<bool, OutOfMemory> {
    let said = said_of_answer(alloc, answer)?;
    let said: &[u8] = said.as_slice();
    Ok(said.split_last().map(|(_, said)| said) == Some(wanted.as_bytes()))
}

// The columns of a row.
fn row_of(row: &str) -> Option<(&str, &str, &str, &str, &str)> {
    let mut parts = row.split('\t');
    let words = parts.next()?;
    let named = parts.next()?;
    let files = parts.next()?;
    let failing = parts.next()?;
    let wanted = parts.next()?;
    Some((words, named, files, failing, wanted))
}

fn holds(alloc: Global, row: &str) -> Result<bool, OutOfMemory> {
    let Some((words, named, files, failing, wanted)) = row_of(row) else {
        return Ok(false);
    };
    let failing = failing.parse::<u64>().unwrap_or(0);
    let named = named_of(alloc, named)?;
    let files = files_of(alloc, files)?;
    let answer = closed(alloc, words, named, files, failing);
    is_said(alloc, &answer, wanted)
}

/// The first row of which something else comes.
pub fn wrong_row(alloc: Global) -> Result<Option<&'static str>, OutOfMemory> {
    for row in ROWS.lines() {
        if !holds(alloc, row)? {
            return Ok(Some(row));
        }
    }
    Ok(None)
}
