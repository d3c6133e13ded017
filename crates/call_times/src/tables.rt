//! Tables that are read, listed and numbered.
use crate::names::files_of;
use crate::needs::needs_of;
use anyhow::{Result, bail};
use mo_ar::read_archive;
use mo_types::{Bytes, Kind, Loaded, NameList, kind_of};
use name_ids::gather;
use slot_plan::{NeedList, slots};
use std::fs;
use std::time::Instant;

fn read(rt: &HostRuntime, bytes: &Bytes) -> Result<()> {
    match kind_of(bytes.as_slice()) {
        Kind::Archive => {}
        _ => bail!("this isn't an archive"),
    }
    let start = Instant::now(rt)?;
    let Ok(archive) = read_archive(rt.alloc(), bytes) else {
        bail!("this isn't an archive of the linker");
    };
    eprintln!(rt; "{}", start.elapsed(rt)?.as_millis())?;
    println!(rt; "{} {}", archive.members.len(), archive.offers.len())?;
    Ok(())
}

/// Reads an archive, and prints the numbers of its members and offers.
pub(crate) fn archive(rt: &HostRuntime, path: &str) -> Result<()> {
    let bytes = Bytes::from_vec(fs::read(rt, path)?)?;
    read(rt, &bytes)
}

fn list(rt: &HostRuntime, needs: &NeedList) -> Result<()> {
    let start = Instant::now(rt)?;
    let lists = slots(rt.alloc(), needs)?;
    eprintln!(rt; "{}", start.elapsed(rt)?.as_millis())?;
    println!(rt; "{} {}", lists.got.len(), lists.stubs.len())?;
    Ok(())
}

/// Lists the slots of so many needs of so many goals, and prints how many slots and stubs there are.
pub(crate) fn slot_lists(rt: &HostRuntime, count: u32, goals: u32) -> Result<()> {
    let needs = needs_of(rt.alloc(), count, goals.max(1))?;
    list(rt, &needs)
}

fn number(rt: &HostRuntime, loaded: &Loaded) -> Result<()> {
    let extra = NameList::new(rt.alloc());
    let start = Instant::now(rt)?;
    let Ok(all) = gather(rt.alloc(), loaded, &extra) else {
        bail!("no memory is left, or there are too many names");
    };
    eprintln!(rt; "{}", start.elapsed(rt)?.as_millis())?;
    println!(rt; "{}", all.names.len())?;
    Ok(())
}

/// Numbers so many names of so many files, each with a thousand external symbols, and prints how many names there are.
pub(crate) fn number_names(rt: &HostRuntime, files: u32, names: u32) -> Result<()> {
    let loaded = files_of(rt.alloc(), files, names.max(1))?;
    number(rt, &loaded)
}
