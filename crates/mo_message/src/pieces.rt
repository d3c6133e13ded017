// Lines, put piece by piece until a piece fails.
#![tactic(auto, using(crate::proofs::Prefixes::prefixes))]

ghost use Rattle.std.specs.Prelude.{◌≤◌, ◌++◌, codes, OnOk, OnErr};
ghost use Rattle.mo_outside.specs.Faults.{Rises};
ghost use Rattle.mo_outside.specs.Tells.{Tells, Appends, AppendsSome};

use mo_outside::{Diag, Failed};

// A value behind its label.
pub(crate) fn put_pair<D: Diag>(diag: &mut D, label: &[u8], value: &[u8]) -> Result<(), Failed>
    ensures faults { D.faults diag.old ≤ D.faults diag.new }
    ensures ok { OnOk result
        (Tells (Appends (label.now ++ value.now)) (D.lines diag.old) (D.lines diag.new)) }
    ensures err { OnErr result
        (Tells (AppendsSome (label.now ++ value.now)) (D.lines diag.old) (D.lines diag.new)) }
    ensures failed { OnErr result (Rises (D.faults diag.old) (D.faults diag.new)) }
{
    diag.put(label)?;
    diag.put(value)
}

// A line of one value.
pub(crate) fn put_line<D: Diag>(diag: &mut D, label: &[u8], value: &[u8]) -> Result<(), Failed>
    ensures faults { D.faults diag.old ≤ D.faults diag.new }
    ensures ok { OnOk result
        (Tells (Appends (label.now ++ value.now ++ codes "\n"))
        (D.lines diag.old) (D.lines diag.new)) }
    ensures err { OnErr result
        (Tells (AppendsSome (label.now ++ value.now ++ codes "\n"))
        (D.lines diag.old) (D.lines diag.new)) }
    ensures failed { OnErr result (Rises (D.faults diag.old) (D.faults diag.new)) }
{
    put_pair(diag, label, value)?;
    diag.put(b"\n")
}

// A line of two values.
pub(crate) fn put_line_of_two<D: Diag>(
    diag: &mut D,
    label: &[u8],
    value: &[u8],
    second_label: &[u8],
    second_value: &[u8],
) -> Result<(), Failed>
    ensures faults { D.faults diag.old ≤ D.faults diag.new }
    ensures ok { OnOk result
        (Tells (Appends (label.now ++ value.now
        ++ second_label.now ++ second_value.now ++ codes "\n"))
        (D.lines diag.old) (D.lines diag.new)) }
    ensures err { OnErr result
        (Tells (AppendsSome (label.now ++ value.now
        ++ second_label.now ++ second_value.now ++ codes "\n"))
        (D.lines diag.old) (D.lines diag.new)) }
    ensures failed { OnErr result (Rises (D.faults diag.old) (D.faults diag.new)) }
{
    put_pair(diag, label, value)?;
    put_line(diag, second_label, second_value)
}

// A line of three values.
pub(crate) fn put_line_of_three<D: Diag>(
    diag: &mut D,
    label: &[u8],
    value: &[u8],
    second_label: &[u8],
    second_value: &[u8],
    third_label: &[u8],
    third_value: &[u8],
) -> Result<(), Failed>
    ensures faults { D.faults diag.old ≤ D.faults diag.new }
    ensures ok { OnOk result
        (Tells (Appends (label.now ++ value.now
        ++ second_label.now ++ second_value.now ++ third_label.now ++ third_value.now ++ codes "\n"))
        (D.lines diag.old) (D.lines diag.new)) }
    ensures err { OnErr result
        (Tells (AppendsSome (label.now ++ value.now
        ++ second_label.now ++ second_value.now ++ third_label.now ++ third_value.now ++ codes "\n"))
        (D.lines diag.old) (D.lines diag.new)) }
    ensures failed { OnErr result (Rises (D.faults diag.old) (D.faults diag.new)) }
{
    put_pair(diag, label, value)?;
    put_line_of_two(diag, second_label, second_value, third_label, third_value)
}
