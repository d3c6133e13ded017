use crate::{DiskFiles, DiskOut, WriterDiag, gather};
use mo_outside::{Diag, Failed, FetchFault, Files, Out};
use std::env::FillError;
use std::io::{ErrorKind, Write};
use std::os::unix::fs::PermissionsExt;
use std::process::id;
use std::rt::Env;
use std::test::Fail;
use std::{fs, io};

#[test]
fn fetches_what_is_there(rt: HostRuntime) -> Result<(), Fail> {
    let alloc = rt.alloc();
    let path = format!(in alloc; "/tmp/atomld-fetch-{}", id(rt.process()))?;
    let held = vec![in alloc; 7u8; 600_000]?;
    fs::write(&rt, path.as_str(), held.as_slice())?;
    let mut files = DiskFiles::new(rt);
    let mut bytes = Vec::new(alloc);
    let fetched = files.fetch(alloc, path.as_str().as_bytes(), &mut bytes);
    fs::remove_file(&rt, path.as_str())?;
    assert_eq!(rt; fetched, Ok(true));
    assert!(rt; bytes.as_slice() == held.as_slice());

    for (path, want) in [
        (b"/no/such/file".as_slice(), Ok(false)),
        (b"/".as_slice(), Err(FetchFault::Failed)),
        (b"\xff".as_slice(), Err(FetchFault::Failed)),
    ] {
        let mut bytes = Vec::new(alloc);
        assert_eq!(rt; files.fetch(alloc, path, &mut bytes), want);
        assert!(rt; bytes.is_empty());
    }
    Ok(())
}

#[test]
fn writes_a_file_that_can_be_run(rt: HostRuntime) -> Result<(), Fail> {
    let alloc = rt.alloc();
    let path = format!(in alloc; "/tmp/atomld-out-{}", id(rt.process()))?;
    fs::write(&rt, path.as_str(), "what stood there before")?;
    let mut out = DiskOut::new(rt);
    assert_eq!(rt; out.write(b"early"), Err(Failed));
    assert_eq!(rt; out.begin(path.as_str().as_bytes()), Ok(()));
    assert_eq!(rt; out.write(b"image"), Ok(5));
    assert_eq!(rt; out.done(), Ok(()));
    assert_eq!(rt; out.write(b"late"), Err(Failed));
    let written = fs::read(&rt, path.as_str())?;
    let mode = fs::metadata(&rt, path.as_str())?.permissions().mode();
    fs::remove_file(&rt, path.as_str())?;
    assert!(rt; written.as_slice() == b"image".as_slice());
    assert_eq!(rt; mode & 0o700, 0o700);

    assert_eq!(rt; out.begin(b"/no/such/folder/out"), Err(Failed));
    assert_eq!(rt; out.begin(b"/dev/full"), Ok(()));
    assert_eq!(rt; out.write(b"image"), Err(Failed));
    Ok(())
}

// A writer that takes two bytes at a time, is interrupted before each, and has no room past its limit.
#[derive(Drop)]
struct Slow {
    taken: Vec<u8>,
    limit: usize,
    is_interrupted: bool,
}

impl Write for Slow {
    fn write(&mut self, bytes: &[u8]) -> io::Result<usize> {
        self.is_interrupted = !self.is_interrupted;
        if self.is_interrupted {
            return Err(io::Error::from(ErrorKind::Interrupted));
        }
        let count = bytes.len().min(2);
        if self.taken.len().saturating_add(count) > self.limit {
            return Ok(0);
        }
        self.taken.extend_from_slice(&bytes[..count])?;
        Ok(count)
    }

    fn flush(&mut self) -> io::Result<()> {
        Ok(())
    }
}

#[test]
fn puts_a_message_piece_by_piece(rt: HostRuntime) -> Result<(), Fail> {
    let mut slow = Slow {
        taken: Vec::new(rt.alloc()),
        limit: 9,
        is_interrupted: false,
    };
    let mut diag = WriterDiag::new(&mut slow);
    assert_eq!(rt; diag.put(b"message"), Ok(()));
    assert_eq!(rt; diag.put(b"too long"), Err(Failed));
    assert!(rt; slow.taken.as_slice() == b"messageto".as_slice());
    Ok(())
}

// A command line whose words stand between spaces.
#[derive(Drop)]
struct Line<'a>(&'a [u8]);

impl Env for Line<'_> {
    fn arg(&self, i: usize, buf: &mut [u8]) -> Result<usize, FillError> {
        let Some(word) = self.0.split(|byte| *byte == b' ').nth(i) else {
            return Err(FillError::NotPresent);
        };
        if word.len() > buf.len() {
            return Err(FillError::TooLong);
        }
        buf[..word.len()].copy_from_slice(word);
        Ok(word.len())
    }

    fn var(&self, _name: &str, _buf: &mut [u8]) -> Result<usize, FillError> {
        Err(FillError::NotPresent)
    }

    fn var_at(&self, _i: usize, _buf: &mut [u8]) -> Result<usize, FillError> {
        Err(FillError::NotPresent)
    }
}

#[test]
fn gathers_the_words(rt: HostRuntime) -> Result<(), Fail> {
    let alloc = rt.alloc();
    let long = [b'x'; 700];
    let mut line = b"atomld -o ".to_vec(alloc)?;
    line.extend_from_slice(&long)?;
    line.extend_from_slice(b" \xff main.o")?;
    let words = gather(&Line(&line), alloc)?;
    assert!(rt; words.len() == 4);
    for (number, want) in [
        (0, b"-o".as_slice()),
        (1, &long),
        (2, b"\0"),
        (3, b"main.o"),
    ] {
        assert!(rt;
            words
                .get(number)
                .is_some_and(|word| word.as_bytes() == want)
        );
    }
    assert!(rt; gather(&Line(b"atomld"), alloc)?.len() == 0);
    Ok(())
}
