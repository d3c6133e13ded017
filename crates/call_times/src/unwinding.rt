//! Functions whose unwinding is written.
use anyhow::{Result, bail};
use mo_types::Bytes;
use std::alloc::Global;
use std::fs;
use std::time::Instant;
use unwind_out::{UnwindRow, UnwindRows, are_apart, unwind_size, write_unwind};

// Two functions of three have their end where the next one begins; each fourth has a personality and data.
fn row_of(number: u32, encodings: u32, each: u32) -> UnwindRow {
    let function = number.wrapping_mul(32).wrapping_add(0x1000);
    let has_data = number % 4 == 0;
    UnwindRow {
        function,
        end: function.wrapping_add(if number % 3 == 0 { 16 } else { 32 }),
        encoding: (number / each.max(1) % encodings.max(1)).wrapping_add(0x0400_0000),
        personality: if has_data {
            (number / 4 % 3 + 1) * 8
        } else {
            0
        },
        lsda: if has_data { number.wrapping_add(1) } else { 0 },
    }
}

fn rows_of(alloc: Global, count: u32, encodings: u32, each: u32) -> Result<UnwindRows> {
    let mut rows = Vec::with_capacity(alloc, count as usize)?;
    for number in 0..count {
        rows.push(row_of(number, encodings, each))?;
    }
    Ok(UnwindRows::from_vec(rows))
}

fn tell(rt: &HostRuntime, start: Instant) -> Result<()> {
    eprintln!(rt; "{}", start.elapsed(rt)?.as_micros())?;
    Ok(())
}

fn written(rt: &HostRuntime, rows: &UnwindRows) -> Result<Bytes> {
    if rows.is_empty() || !are_apart(rows.as_slice()) {
        bail!("the functions are none, or not apart");
    }
    let start = Instant::now(rt)?;
    let Ok(size) = unwind_size(rt.alloc(), rows) else {
        bail!("no memory is left");
    };
    tell(rt, start)?;
    let start = Instant::now(rt)?;
    let Ok(section) = write_unwind(rt.alloc(), rows) else {
        bail!("no memory is left");
    };
    tell(rt, start)?;
    println!(rt; "{size} {}", section.len())?;
    Ok(section)
}

/// Writes the unwinding of so many functions with so many encodings, each of which so many functions in a row have, and
/// prints the size of the section twice, as it is told before it is written and as it is.
pub(crate) fn unwinding(rt: &HostRuntime, count: u32, encodings: u32, each: u32) -> Result<Bytes> {
    let rows = rows_of(rt.alloc(), count, encodings, each)?;
    written(rt, &rows)
}

/// Writes the section to a file.
pub(crate) fn unwinding_to(
    rt: &HostRuntime,
    path: &str,
    count: u32,
    encodings: u32,
    each: u32,
) -> Result<()> {
    let section = unwinding(rt, count, encodings, each)?;
    fs::write(rt, path, section.as_slice())?;
    Ok(())
}
