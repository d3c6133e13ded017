ghost use Rattle.std.specs.Prelude.{◌≡◌, [], Some, OnOk};
ghost use Rattle.mo_outside.specs.Log.{Logs};
ghost use Rattle.mo_outside.specs.Tells.{Tells};

use mo_types::{Bytes, Items, OutOfMemory};
use std::alloc::Global;
use std::marker::Model;

/// What is kept of the paths that were asked for.
#[derive(Drop)]
pub enum PathLog {
    Nothing,
    Paths(Items<Bytes>),
    /// Memory for a path was refused.
    Forgotten,
}

/// The paths that were asked for, in order, as long as memory for them is given.
#[derive(Drop)]
pub struct AskedPaths {
    asked: PathLog,
}

impl Model for AskedPaths {
    ghost use Rattle.std.specs.Prelude.{Option, List, ℕ};
    ghost use Rattle.mo_outside.specs.Buffers.{paths_in};

    ghost Value = { Option (List (List ℕ)) };

    ghost view = { λ paths. paths_in paths.asked };
}

// Puts a path at the end.
fn remember(paths: &mut Items<Bytes>, alloc: Global, path: &[u8]) -> Result<(), OutOfMemory>
    ensures { OnOk result (Logs path.now paths.old paths.new) }
{
    paths.push(Bytes::from_slice(alloc, path)?)
}

impl AskedPaths {
    /// No path, which takes no memory.
    pub fn new() -> AskedPaths
        ensures { result ≡ Some [] }
    {
        AskedPaths {
            asked: PathLog::Nothing,
        }
    }

    /// Puts a path at the end, or stops telling where memory is refused.
    pub fn add(&mut self, alloc: Global, path: &[u8])
        ensures { Tells (Logs path.now) self.old self.new }
    {
        match &mut self.asked {
            PathLog::Nothing => {
                let mut paths = Items::new(alloc);
                self.asked = match remember(&mut paths, alloc, path) {
                    Ok(()) => PathLog::Paths(paths),
                    Err(_) => PathLog::Forgotten,
                };
            }
            PathLog::Paths(paths) => {
                if remember(paths, alloc, path).is_err() {
                    self.asked = PathLog::Forgotten;
                }
            }
            PathLog::Forgotten => {}
        }
    }
}
