//! Counts of faults.

ghost use Rattle.std.specs.Prelude.{◌≡◌, ◌≤◌};
ghost use Rattle.disk_outside.specs.Faults.{one_more};

/// Counts a fault. A count stands still at the end of its type.
pub fn count(faults: &mut u64)
    ensures exact { faults.new ≡ one_more faults.old }
    ensures grows { faults.old ≤ faults.new }
{
    *faults = faults.saturating_add(1);
}
