use anyhow::Result;
use mo_outside::{SureDiag, SureOut};
use mo_types::Status;
use sha2::{Digest, Sha256};

// What stands for text that can't be shown in a row.
const NOT_TEXT: &str = "(not text)";

const NOT_ONE_LINE: &str = "(not whole lines)";

fn text_of(bytes: &[u8]) -> &str {
    str::from_utf8(bytes).unwrap_or(NOT_TEXT)
}

fn print_message<R: Print>(rt: &R, diag: &SureDiag) -> Result<()> {
    let Some(lines) = diag.lines() else {
        return Ok(());
    };
    if !lines.is_empty() {
        let line = text_of(lines).strip_suffix('\n').unwrap_or(NOT_ONE_LINE);
        print!(rt; "\t{line}")?;
    }
    Ok(())
}

fn print_file<R: Print + AllocGlobal>(rt: &R, out: &SureOut, file: usize) -> Result<()> {
    let (Some(path), Some(bytes)) = (out.path(file), out.bytes(file)) else {
        return Ok(());
    };
    let path = text_of(path);
    if out.is_done(file) == Some(true) {
        let digest = hex::encode(rt.alloc(), Sha256::digest(bytes))?;
        print!(rt; "\t{path}={digest}")?;
    } else {
        print!(rt; "\t{path} begun")?;
    }
    Ok(())
}

/// Prints what a link did: the exit status, the line on `diag`, and the digests of the files written.
pub fn print_row<R: Print + AllocGlobal>(
    rt: &R,
    name: &str,
    status: &Status,
    out: &SureOut,
    diag: &SureDiag,
) -> Result<()> {
    let code = status.code();
    print!(rt; "{name}\t{code}")?;
    print_message(rt, diag)?;
    for file in 0..2 {
        print_file(rt, out, file)?;
    }
    rt.println("")?;
    Ok(())
}
