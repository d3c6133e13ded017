//! What libraries re-export, breadth first.
ghost use Rattle.std.specs.Prelude.{◌≡◌, ◌<◌, ◌++◌, [], ◌∷◌, get_or, set, length, All, IfOk, OnOk};
ghost use Rattle.file_cache.specs.Kept.{seen};
ghost use Rattle.file_cache.specs.Runs.{Runs};
ghost use Rattle.lib_bind.specs.Closing as spec;
ghost use Rattle.lib_bind.specs.Closing.{IsBindFault};
ghost use Rattle.lib_bind.specs.Closure as requests;
ghost use Rattle.lib_bind.specs.inner.Closed.{IsClosing};
ghost use Rattle.lib_bind.specs.inner.Held.{AreHeads, IsHeld, total};

use crate::bind_fault::BindFault;
use crate::by_name::ByName;
use crate::growing::{Growing, Reexport, nothing, with_file};
use crate::library::{Library, LinkList, NumberList};
use crate::number_set::NumberSet;
use crate::sought::{Target, target_of};
use command_line::Command;
use file_cache::FileCache;
use mo_outside::Files;
use mo_types::{Items, OutOfMemory};
use std::alloc::Global;
use tbd_doc::StubFile;

/// A library that is to be found for a document that re-exports it.
#[derive(Drop)]
pub struct Request {
    pub from: usize,
    pub reexport: Reexport,
}

/// Documents of which some were reached.
#[derive(Drop)]
pub struct Closing {
    pub growing: Growing,
    /// The documents that were reached, in their order.
    pub reached: NumberSet,
    /// What they re-export, in that order.
    pub work: Items<Request>,
}

// Requests, and then those of a document.
#[tactic(auto, using(crate::proofs::GrowingLemmas::maps))]
fn with_requests(
    from: usize,
    reexports: &[Reexport],
    before: Items<Request>,
) -> Result<Items<Request>, OutOfMemory>
    ensures { IfOk result (λ all. all ≡ before ++ spec.requests_of from reexports.now) }
{
    let mut all = before;
    for reexport in reexports {
        all.push(Request {
            from,
            reexport: Reexport {
                install: reexport.install.clone()?,
                here: reexport.here,
            },
        })?;
    }
    Ok(all)
}

// Reaches a document.
#[tactic(auto, unfolding(crate::specs::Closing::reach))]
fn reach(to: usize, closing: Closing) -> Result<Closing, OutOfMemory>
    requires { to < length closing.growing.reexports }
    ensures { IfOk result (λ new. new ≡ spec.reach to closing) }
{
    let Closing {
        growing,
        mut reached,
        work,
    } = closing;
    let reexports = &growing.reexports.as_slice()[to];
    let work = if reached.insert(to)? {
        with_requests(to, reexports.as_slice(), work)?
    } else {
        work
    };
    Ok(Closing {
        growing,
        reached,
        work,
    })
}

fn add_link(links: &mut NumberList, to: usize) -> Result<(), OutOfMemory>
    ensures { OnOk result (links.new ≡ links.old ++ to ∷ []) }
{
    links.push(to)
}

// Links with one more, of a document that has a list of them.
fn with_link_in(from: usize, to: usize, links: LinkList) -> Result<LinkList, OutOfMemory>
    requires { from < length links }
    ensures { IfOk result (λ new. new ≡ set links from (get_or links from [] ++ to ∷ [])) }
{
    let mut links = links.into_vec();
    add_link(&mut links[from], to)?;
    Ok(Items::from_vec(links))
}

fn with_link(from: usize, to: usize, growing: Growing) -> Result<Growing, OutOfMemory>
    requires { from < length growing.links }
    ensures { IfOk result (λ new. new ≡ spec.with_link from to growing) }
{
    let Growing {
        documents,
        reexports,
        links,
        known,
    } = growing;
    Ok(Growing {
        documents,
        reexports,
        links: with_link_in(from, to, links)?,
        known,
    })
}

// A document is found to be re-exported by another one.
fn linked(
    from: usize,
    there: Target,
    reached: NumberSet,
    work: Items<Request>,
) -> Result<Closing, OutOfMemory>
    requires from { from < length there.growing.links }
    requires document { there.document < length there.growing.reexports }
    ensures { IfOk result (λ new. new ≡ spec.linked from reached work there) }
{
    let Target { document, growing } = there;
    let growing = with_link(from, document, growing)?;
    reach(
        document,
        Closing {
            growing,
            reached,
            work,
        },
    )
}

// The documents of the files of libraries.
fn with_files(
    alloc: Global,
    heads: &ByName<usize>,
    files: Items<StubFile>,
) -> Result<Growing, OutOfMemory>
    ensures { IfOk result (λ growing. growing ≡ spec.with_files heads.now files spec.nothing) }
{
    let mut growing = nothing(alloc);
    for file in files.into_vec() {
        growing = with_file(alloc, heads, file.docs, growing)?;
    }
    Ok(growing)
}

// Reaches the own documents of libraries.
fn reach_all(libraries: &[Library], before: Closing) -> Result<Closing, OutOfMemory>
    requires { All (λ library. library.document < length before.growing.reexports) libraries.now }
    ensures { IfOk result (λ closing. closing ≡ spec.reach_all libraries.now before) }
{
    let mut closing = before;
    for library in libraries {
        closing = reach(library.document, closing)?;
    }
    Ok(closing)
}

// The documents of libraries, of which their own were reached.
fn all_begun(
    alloc: Global,
    libraries: &[Library],
    heads: &ByName<usize>,
    files: Items<StubFile>,
) -> Result<Closing, OutOfMemory>
    requires heads { AreHeads (total files) heads.now }
    requires libraries { All (λ library. library.document < total files) libraries.now }
    ensures { IfOk result (λ closing. closing ≡ spec.begun libraries.now heads.now files) }
{
    let growing = with_files(alloc, heads, files)?;
    reach_all(
        libraries,
        Closing {
            growing,
            reached: NumberSet::new(alloc),
            work: Items::new(alloc),
        },
    )
}

/// The documents of libraries, of which their own were reached.
pub fn begun(
    alloc: Global,
    libraries: &[Library],
    heads: &ByName<usize>,
    files: Items<StubFile>,
) -> Result<Closing, OutOfMemory>
    requires heads { AreHeads (total files) heads.now }
    requires libraries { All (λ library. library.document < total files) libraries.now }
    ensures exact { IfOk result (λ closing. closing ≡ spec.begun libraries.now heads.now files) }
    ensures held { IfOk result (IsHeld (total files) heads.now) }
{
    all_begun(alloc, libraries, heads, files)
}

// Meets the request at a place.
#[tactic(auto, unfolding(crate::specs::Closure::step))]
fn step<F: Files>(
    alloc: Global,
    command: &Command,
    files: &mut F,
    cache: &mut FileCache,
    heads: &ByName<usize>,
    at: usize,
    closing: Closing,
) -> Result<Closing, BindFault>
    requires within { at < length closing.work }
    requires held { IsHeld (length closing.growing.documents) heads.now closing }
    ensures held { IfOk result (IsHeld (length closing.growing.documents) heads.now) }
    ensures runs { Runs F.answers IsBindFault (requests.step command.now.syslibroot heads.now at closing) result
        (seen F.holds F.asked F.faults files.old cache.old) (seen F.holds F.asked F.faults files.new cache.new) }
{
    let Closing {
        growing,
        reached,
        work,
    } = closing;
    let request = &work.as_slice()[at];
    let from = request.from;
    let there = target_of(
        alloc,
        command,
        files,
        cache,
        heads,
        &request.reexport,
        growing,
    )?;
    Ok(linked(from, there, reached, work)?)
}

/// Meets all requests, and those that they lead to, in their order.
pub fn closed<F: Files>(
    alloc: Global,
    command: &Command,
    files: &mut F,
    cache: &mut FileCache,
    heads: &ByName<usize>,
    start: Closing,
) -> Result<Closing, BindFault>
    requires { IsHeld (length start.growing.documents) heads.now start }
    ensures held { IfOk result (IsHeld (length start.growing.documents) heads.now) }
    ensures closing { IsClosing F.answers command.now.syslibroot heads.now start result
        (seen F.holds F.asked F.faults files.old cache.old) (seen F.holds F.asked F.faults files.new cache.new) }
{
    let mut closing = start;
    let mut at = 0;
    while at < closing.work.len() {
        closing = step(alloc, command, files, cache, heads, at, closing)?;
        at += 1;
    }
    Ok(closing)
}
