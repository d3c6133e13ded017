//! Files of the file system.

ghost use Rattle.std.specs.Prelude.{◌≡◌, ◌+◌, ◌<◌, ◌≤◌, ◌^◌, [], length, take, drop, ◌≢◌};
ghost use Rattle.std.specs.Prelude.{vec_len, false, true, None, IfErr, IfOk, IfSome, IsErrOf, IsUtf8, OnOk, OnErr};
ghost use Rattle.std.specs.Io.KnownBytes.{Consumes, IsAtEnd};
ghost use Rattle.std.specs.IoError.{error_kind};
ghost use Rattle.disk_outside.specs.Faults.{DiskFetch, counted, is_unread};
ghost use Rattle.mo_outside.specs.Answers.{answer_of};
ghost use Rattle.mo_outside.specs.Faults.{Rises};
ghost use Rattle.mo_outside.specs.Files.{fetch_limit};

use crate::faults::count;
use crate::pieces::read_piece;
use mo_outside::{FetchFault, Files};
use std::alloc::Global;
use std::fs::OpenFile;
use std::io::{ErrorKind, Read};
use std::marker::Model;
use std::{fs, io, rt};

// The most bytes that are fetched of one file.
const FETCH_LIMIT: usize = 1 << 30;

// The most bytes that are read at once. They are cleared first, and then still lie in the processor's cache.
const PIECE_SIZE: usize = 1 << 18;

/// The files of the file system, which don't tell what they hold.
#[derive(Drop)]
pub struct DiskFiles<R> {
    rt: R,
    faults: u64,
}

impl<R> Model for DiskFiles<R> {
    ghost use Rattle.disk_outside.specs.Adapters.{DiskReads};

    ghost Value = { DiskReads R };

    ghost view = { λ files. record { rt = files.rt; faults = files.faults } };
}

impl<R: rt::Files> DiskFiles<R> {
    pub fn new(rt: R) -> DiskFiles<R>
        ensures rt { result.rt ≡ rt }
        ensures faults { result.faults ≡ 0 }
    {
        DiskFiles { rt, faults: 0 }
    }
}

// Reads the next piece behind the bytes that are filled, and answers how many bytes came. A piece takes the room that there
// is, so that a file whose size is known gets no more memory than for one byte behind its own.
fn read_after<R: Read>(from: &mut R, into: &mut Vec<u8>, filled: usize) -> Result<usize, FetchFault>
    requires within { filled ≤ vec_len into.old }
    requires size { vec_len into.old ≤ fetch_limit }
    requires room { filled < fetch_limit }
    ensures size { vec_len into.new ≤ fetch_limit }
    ensures kept { OnOk result (take filled into.new.items ≡ take filled into.old.items) }
    ensures fits { IfOk result (λ count. filled + count ≤ vec_len into.new) }
    ensures ok { IfOk result (λ count. Consumes (R.remaining from.old) (R.remaining from.new) (take count (drop filled into.new.items))) }
    ensures end { IfOk result (λ count. count ≡ 0 → IsAtEnd (R.remaining from.new)) }
{
    let room = into.capacity().saturating_sub(filled);
    let end = (filled + room.clamp(1, PIECE_SIZE)).min(FETCH_LIMIT);
    if into.len() < end {
        into.resize(end, 0).map_err(|_| FetchFault::Memory)?;
    }
    read_piece(from, &mut into[filled..]).map_err(|_| FetchFault::Failed)
}

// Reads to the end, or up to the limit, and answers how many bytes of `into` are filled.
fn read_pieces<R: Read>(from: &mut R, into: &mut Vec<u8>) -> Result<usize, FetchFault>
    requires { into.old.items ≡ [] }
    ensures within { IfOk result (λ filled. filled ≤ vec_len into.new) }
    ensures size { IfOk result (λ filled. filled ≤ fetch_limit) }
    ensures bytes { IfOk result (λ filled. IfSome (R.remaining from.old) (λ held. take filled into.new.items ≡ take fetch_limit held)) }
{
    let mut filled = 0;
    while filled < FETCH_LIMIT {
        let count = read_after(from, into, filled)?;
        if count == 0 {
            break;
        }
        filled += count;
    }
    Ok(filled)
}

// Reads to the end, or the first 2^30 bytes.
fn read_whole<R: Read>(from: &mut R, into: &mut Vec<u8>) -> Result<(), FetchFault>
    requires { into.old.items ≡ [] }
    ensures size { length into.new.items ≤ 2 ^ 30 }
    ensures bytes { OnOk result (IfSome (R.remaining from.old) (λ held. into.new.items ≡ take fetch_limit held)) }
    ensures err { OnErr result (into.new.items ≡ []) }
{
    match read_pieces(from, into) {
        Ok(filled) => {
            into.truncate(filled);
            Ok(())
        }
        Err(fault) => {
            into.clear();
            Err(fault)
        }
    }
}

// The bytes of a file, for which the memory is taken at once where the file says its size.
fn read_file<F: Read + OpenFile>(mut file: F, into: &mut Vec<u8>) -> Result<(), FetchFault>
where
    F: Drop,
    requires { into.old.items ≡ [] }
    ensures size { length into.new.items ≤ 2 ^ 30 }
    ensures bytes { OnOk result (IfSome (F.remaining file) (λ held. into.new.items ≡ take fetch_limit held)) }
    ensures err { OnErr result (into.new.items ≡ []) }
{
    if let Ok(metadata) = file.metadata() {
        let size = metadata.len().min(FETCH_LIMIT as u64) as usize;
        into.reserve(size + 1).map_err(|_| FetchFault::Memory)?;
    }
    read_whole(&mut file, into)
}

// The file that was opened, or `None` where no file has the path.
fn found<F: Drop>(opened: io::Result<F>) -> Result<Option<F>, FetchFault>
    ensures there { IfOk opened (λ file. result ≡ Ok (Some file)) }
    ensures absent { IfErr opened (λ e. error_kind e ≡ ErrorKind.NotFound → result ≡ Ok None) }
    ensures failed { IfErr opened (λ e. error_kind e ≢ ErrorKind.NotFound → result ≡ Err FetchFault.Failed) }
{
    match opened {
        Ok(file) => Ok(Some(file)),
        Err(e) if e.kind() == ErrorKind::NotFound => Ok(None),
        Err(_) => Err(FetchFault::Failed),
    }
}

// Fetches the file that was opened, or answers false where no file has the path.
fn fetch_opened<F: Read + OpenFile>(
    opened: io::Result<F>,
    into: &mut Vec<u8>,
) -> Result<bool, FetchFault>
where
    F: Drop,
    requires { into.old.items ≡ [] }
    ensures there { IfOk opened (λ _. IfOk result (λ there. there ≡ true)) }
    ensures bytes { IfOk opened (λ file. OnOk result (IfSome (F.remaining file) (λ held. into.new.items ≡ take fetch_limit held))) }
    ensures missing { IfErr opened (λ e. error_kind e ≡ ErrorKind.NotFound → result ≡ Ok false) }
    ensures failed { IfErr opened (λ e. error_kind e ≢ ErrorKind.NotFound → result ≡ Err FetchFault.Failed) }
    ensures absent { result ≡ Ok false → into.new.items ≡ [] }
    ensures size { length into.new.items ≤ 2 ^ 30 }
    ensures err { OnErr result (into.new.items ≡ []) }
{
    let Some(file) = found(opened)? else {
        return Ok(false);
    };
    read_file(file, into)?;
    Ok(true)
}

fn fetch_from<R: rt::Files>(rt: &R, path: &[u8], into: &mut Vec<u8>) -> Result<bool, FetchFault>
    requires { into.old.items ≡ [] }
    ensures no_text { ¬ IsUtf8 path.now → result ≡ Err FetchFault.Failed }
    ensures absent { result ≡ Ok false → into.new.items ≡ [] }
    ensures size { length into.new.items ≤ 2 ^ 30 }
    ensures err { OnErr result (into.new.items ≡ []) }
{
    let path = str::from_utf8(path).map_err(|_| FetchFault::Failed)?;
    fetch_opened(fs::open(rt, path), into)
}

impl<R: rt::Files> Files for DiskFiles<R> {
    ghost holds = { λ _. None };

    ghost asked = { λ _. None };

    ghost answers = { λ old path answer new. DiskFetch path answer old.faults new.faults };

    ghost faults = { λ files. files.faults };

    /// Reads the file of the path, which is text. A file that is longer than 2^30 bytes isn't read on.
    fn fetch(&mut self, _alloc: Global, path: &[u8], into: &mut Vec<u8>) -> Result<bool, FetchFault>
        requires { into.old.items ≡ [] }
        ensures counts { self.new.faults ≡ counted (is_unread (answer_of result into.new.items)) self.old.faults }
        ensures faults { self.old.faults ≤ self.new.faults }
        ensures still { OnOk result (self.new.faults ≡ self.old.faults) }
        ensures refused { IsErrOf result FetchFault.Memory → self.new.faults ≡ self.old.faults }
        ensures failed { IsErrOf result FetchFault.Failed → Rises self.old.faults self.new.faults }
        ensures no_text { ¬ IsUtf8 path.now → result ≡ Err FetchFault.Failed }
        ensures absent { result ≡ Ok false → into.new.items ≡ [] }
        ensures size { length into.new.items ≤ 2 ^ 30 }
        ensures err { OnErr result (into.new.items ≡ []) }
    {
        let fetched = fetch_from(&self.rt, path, into);
        if matches!(fetched, Err(FetchFault::Failed)) {
            count(&mut self.faults);
        }
        fetched
    }
}
