//! The image as a file of the file system.

ghost use Rattle.std.specs.Prelude.{◌≡◌, ◌<◌, ◌≤◌, length, take, is_err, None, IfOk, IfSome, IsErr, IsSome, IsUtf8, OnOk, OnErr};
ghost use Rattle.std.specs.Io.KnownBytes.{Appends};
ghost use Rattle.disk_outside.specs.Faults.{counted};
ghost use Rattle.disk_outside.specs.Mode.{mode_to_run};
ghost use Rattle.mo_outside.specs.Faults.{Rises};

use crate::faults::count;
use crate::pieces::write_piece;
use mo_outside::{Failed, Out};
use std::fs::OpenFile;
use std::marker::Model;
use std::os::unix::fs::PermissionsExt;
use std::{fs, io, rt};

const READ_BITS: u32 = 0o444;

/// Files that are written to the file system, one after the other, and don't tell what they hold.
#[derive(Drop)]
pub struct DiskOut<R: rt::Files> {
    rt: R,
    // the file that was begun and isn't done
    file: Option<R::File>,
    faults: u64,
}

impl<R: rt::Files> Model for DiskOut<R> {
    ghost use Rattle.disk_outside.specs.Adapters.{DiskWrites};

    ghost Value = { DiskWrites R R.File };

    ghost view = { λ out. record { rt = out.rt; file = out.file; faults = out.faults } };
}

impl<R: rt::Files> DiskOut<R> {
    pub fn new(rt: R) -> DiskOut<R>
        ensures rt { result.rt ≡ rt }
        ensures file { result.file ≡ None }
        ensures faults { result.faults ≡ 0 }
    {
        DiskOut {
            rt,
            file: None,
            faults: 0,
        }
    }
}

fn create<R: rt::Files>(rt: &R, path: &[u8]) -> Result<R::File, Failed>
    ensures { ¬ IsUtf8 path.now → IsErr result }
{
    let path = str::from_utf8(path).map_err(|_| Failed)?;
    fs::create(rt, path).map_err(|_| Failed)
}

// The mode of a file with the leave to run it for those who may read it.
fn runnable(mode: u32) -> u32
    ensures { result ≡ mode_to_run mode }
{
    mode | (mode & READ_BITS) >> 2
}

// Lets those who may read a file run it. What isn't a regular file stays as it is.
fn make_executable<F: OpenFile>(file: &F) -> io::Result<()> {
    let metadata = file.metadata()?;
    let mut permissions = metadata.permissions();
    let mode = permissions.mode();
    let wanted = runnable(mode);
    if metadata.is_file() && mode != wanted {
        permissions.set_mode(wanted);
        file.set_permissions(permissions)?;
    }
    Ok(())
}

impl<R: rt::Files> Out for DiskOut<R> {
    ghost files = { λ _. None };

    ghost calls = { λ _. None };

    ghost faults = { λ out. out.faults };

    /// Creates the file, or empties the one that is there.
    fn begin(&mut self, path: &[u8]) -> Result<(), Failed>
        ensures counts { self.new.faults ≡ counted (is_err result) self.old.faults }
        ensures faults { self.old.faults ≤ self.new.faults }
        ensures still { OnOk result (self.new.faults ≡ self.old.faults) }
        ensures failed { OnErr result (Rises self.old.faults self.new.faults) }
        ensures open { OnOk result (IsSome self.new.file) }
        ensures no_text { ¬ IsUtf8 path.now → IsErr result }
        ensures err { OnErr result (self.new.file ≡ self.old.file) }
    {
        match create(&self.rt, path) {
            Ok(file) => {
                self.file = Some(file);
                Ok(())
            }
            Err(failed) => {
                count(&mut self.faults);
                Err(failed)
            }
        }
    }

    /// Writes once to the file that was begun last, and fails where none was, or where it is done.
    fn write(&mut self, bytes: &[u8]) -> Result<usize, Failed>
        requires { 0 < length bytes.now }
        ensures counts { self.new.faults ≡ counted (is_err result) self.old.faults }
        ensures faults { self.old.faults ≤ self.new.faults }
        ensures still { OnOk result (self.new.faults ≡ self.old.faults) }
        ensures failed { OnErr result (Rises self.old.faults self.new.faults) }
        ensures within { IfOk result (λ count. count ≤ length bytes.now) }
        ensures some { IfOk result (λ count. 0 < count) }
        ensures open { OnOk result (IsSome self.old.file) }
        ensures reaches { IfOk result (λ count. IfSome self.old.file (λ old. IfSome self.new.file (λ new.
            Appends (R.File.contents old) (R.File.contents new) (take count bytes.now)))) }
    {
        let written = match &mut self.file {
            Some(file) => write_piece(file, bytes),
            None => Err(Failed),
        };
        if written.is_err() {
            count(&mut self.faults);
        }
        written
    }

    /// Makes the file executable and closes it.
    fn done(&mut self) -> Result<(), Failed>
        ensures counts { self.new.faults ≡ counted (is_err result) self.old.faults }
        ensures faults { self.old.faults ≤ self.new.faults }
        ensures still { OnOk result (self.new.faults ≡ self.old.faults) }
        ensures failed { OnErr result (Rises self.old.faults self.new.faults) }
        ensures open { OnOk result (IsSome self.old.file) }
        ensures closed { self.new.file ≡ None }
    {
        let finished = match self.file.take() {
            Some(file) => make_executable(&file).map_err(|_| Failed),
            None => Err(Failed),
        };
        if finished.is_err() {
            count(&mut self.faults);
        }
        finished
    }
}
