//! What inputs are, sorted by what is done with it.
ghost use Rattle.std.specs.Prelude.{◌≡◌, All, IfOk};
ghost use Rattle.input_read.specs.Opened.{contents_as, contents_in};
ghost use Rattle.input_read.specs.Sound.{IsSound};

use crate::opened::Opened;
use crate::opening::Opening;
use input_files::Source;
use mo_types::{Items, OutOfMemory};
use std::alloc::Global;

/// The objects and archives, the files of the objects, and the stub libraries, each in order.
#[tactic(auto, using(crate::proofs::SortLemmas::sorts))]
pub(crate) fn sort(alloc: Global, openings: Items<Opening>) -> Result<Opened, OutOfMemory>
    requires sound { All IsSound openings }
    ensures { IfOk result (λ opened. contents_as opened ≡ contents_in openings) }
{
    let mut sources = Items::new(alloc);
    let mut objects = Items::new(alloc);
    let mut stubs = Items::new(alloc);
    for opening in openings.into_vec() {
        match opening {
            Opening::Object { input, file } => {
                objects.push(file)?;
                sources.push(Source {
                    input,
                    archive: None,
                })?;
            }
            Opening::Archive { input, archive } => {
                sources.push(Source {
                    input,
                    archive: Some(archive),
                })?;
            }
            Opening::Stubs(named) => stubs.push(named)?,
        }
    }
    Ok(Opened {
        sources,
        objects,
        stubs,
    })
}
