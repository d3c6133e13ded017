ghost use Rattle.std.specs.Prelude.{◌≡◌, ◌≤◌, ◌++◌, codes, OnOk, OnErr};
ghost use Rattle.mo_outside.specs.Faults.{Rises};
ghost use Rattle.mo_outside.specs.Tells.{Tells, Appends, AppendsSome};
ghost use Rattle.mo_types.specs.Message.{line_of, line_of_refusal};

use crate::pieces::{put_line, put_line_of_three, put_line_of_two, put_pair};
use itoa::Buffer;
use mo_outside::{Diag, Failed};
use mo_types::{Refusal, Status};

/// Puts the line of an answer, or nothing for `Done`, and stops at the first fault, of which `diag` alone
/// keeps count. `written` is the path that the line of a `WriteFault` names.
pub fn tell<D: Diag>(diag: &mut D, written: &[u8], status: &Status)
    ensures faults { D.faults diag.old ≤ D.faults diag.new }

    // Of a count at the end of its type `Rises` always holds: there the clause below alone speaks.
    ensures line { ¬ Rises (D.faults diag.old) (D.faults diag.new)
        → Tells (Appends (line_of written.now status.now)) (D.lines diag.old) (D.lines diag.new) }

    // After a fault too, so that nothing stands behind a piece that was cut off.
    ensures prefix { Tells (AppendsSome (line_of written.now status.now))
        (D.lines diag.old) (D.lines diag.new) }
{
    let _ = put_status(diag, written, status);
}

#[tactic(auto, unfolding(mo_types::specs::Message::line_of))]
fn put_status<D: Diag>(diag: &mut D, written: &[u8], status: &Status) -> Result<(), Failed>
    ensures faults { D.faults diag.old ≤ D.faults diag.new }
    ensures ok { OnOk result
        (Tells (Appends (line_of written.now status.now)) (D.lines diag.old) (D.lines diag.new)) }
    ensures err { OnErr result
        (Tells (AppendsSome (line_of written.now status.now)) (D.lines diag.old) (D.lines diag.new)) }
    ensures failed { OnErr result (Rises (D.faults diag.old) (D.faults diag.new)) }
{
    match status {
        Status::Done => Ok(()),
        Status::Usage { word, rule } => put_line_of_two(
            diag,
            b"atomld: usage: word ",
            Buffer::new().format(*word).as_bytes(),
            b": ",
            rule.as_str().as_bytes(),
        ),
        Status::ReadFault { path } => put_line(diag, b"atomld: cannot read ", path.as_slice()),
        Status::Refused(refusal) => put_refusal(diag, refusal),
        Status::WriteFault => put_line(diag, b"atomld: cannot write ", written),
        Status::OutOfMemory => diag.put(b"atomld: out of memory\n"),
    }
}

#[tactic(auto, unfolding(mo_types::specs::Message::line_of_refusal))]
fn put_refusal<D: Diag>(diag: &mut D, refusal: &Refusal) -> Result<(), Failed>
    ensures faults { D.faults diag.old ≤ D.faults diag.new }
    ensures ok { OnOk result
        (Tells (Appends (line_of_refusal refusal.now)) (D.lines diag.old) (D.lines diag.new)) }
    ensures err { OnErr result
        (Tells (AppendsSome (line_of_refusal refusal.now)) (D.lines diag.old) (D.lines diag.new)) }
    ensures failed { OnErr result (Rises (D.faults diag.old) (D.faults diag.new)) }
{
    match refusal {
        Refusal::Missing { path } => put_line(diag, b"atomld: not found: ", path.as_slice()),
        Refusal::Malformed { file, place, rule } => put_line_of_three(
            diag,
            b"atomld: ",
            file.as_slice(),
            b": malformed at ",
            Buffer::new().format(*place).as_bytes(),
            b": ",
            rule.as_str().as_bytes(),
        ),
        Refusal::Unsupported { file, feature } => put_line_of_two(
            diag,
            b"atomld: ",
            file.as_slice(),
            b": unsupported: ",
            feature.as_str().as_bytes(),
        ),
        Refusal::Limit { which } => put_line(diag, b"atomld: limit: ", which.as_str().as_bytes()),
        Refusal::Duplicate {
            name,
            first,
            second,
        } => put_line_of_three(
            diag,
            b"atomld: duplicate ",
            name.as_slice(),
            b": ",
            first.as_slice(),
            b", ",
            second.as_slice(),
        ),
        Refusal::Undefined { name, file } => put_undefined(diag, name.as_slice(), file.as_slice()),
        Refusal::NeedsImage { file, place } => put_line_of_two(
            diag,
            b"atomld: ",
            file.as_slice(),
            b": import without slot at ",
            Buffer::new().format(*place).as_bytes(),
        ),
        Refusal::Range {
            file,
            place,
            kind,
            value,
        } => put_out_of_range(
            diag,
            file.as_slice(),
            Buffer::new().format(*place).as_bytes(),
            kind.as_str().as_bytes(),
            Buffer::new().format(*value).as_bytes(),
        ),
    }
}

#[tactic(auto, unfolding(mo_types::specs::Message::line_of_refusal))]
fn put_undefined<D: Diag>(diag: &mut D, name: &[u8], file: &[u8]) -> Result<(), Failed>
    ensures faults { D.faults diag.old ≤ D.faults diag.new }
    ensures ok { OnOk result
        (Tells (Appends (line_of_refusal (Refusal.Undefined name.now file.now)))
        (D.lines diag.old) (D.lines diag.new)) }
    ensures err { OnErr result
        (Tells (AppendsSome (line_of_refusal (Refusal.Undefined name.now file.now)))
        (D.lines diag.old) (D.lines diag.new)) }
    ensures failed { OnErr result (Rises (D.faults diag.old) (D.faults diag.new)) }
{
    match file {
        [] => put_line(diag, b"atomld: undefined ", name),
        [_, ..] => put_line_of_two(diag, b"atomld: undefined ", name, b": ", file),
    }
}

// The line of a value that doesn't fit its field.
fn put_out_of_range<D: Diag>(
    diag: &mut D,
    file: &[u8],
    place: &[u8],
    kind: &[u8],
    value: &[u8],
) -> Result<(), Failed>
    ensures faults { D.faults diag.old ≤ D.faults diag.new }
    ensures ok { OnOk result
        (Tells (Appends (codes "atomld: " ++ file.now ++ codes ": out of range at " ++ place.now
        ++ codes ": " ++ kind.now ++ codes " " ++ value.now ++ codes "\n"))
        (D.lines diag.old) (D.lines diag.new)) }
    ensures err { OnErr result
        (Tells (AppendsSome (codes "atomld: " ++ file.now ++ codes ": out of range at " ++ place.now
        ++ codes ": " ++ kind.now ++ codes " " ++ value.now ++ codes "\n"))
        (D.lines diag.old) (D.lines diag.new)) }
    ensures failed { OnErr result (Rises (D.faults diag.old) (D.faults diag.new)) }
{
    put_pair(diag, b"atomld: ", file)?;
    put_line_of_three(diag, b": out of range at ", place, b": ", kind, b" ", value)
}
