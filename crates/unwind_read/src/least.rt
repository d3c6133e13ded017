//! The least of places.

ghost use Rattle.std.specs.Prelude.{◌≡◌};
ghost use Rattle.reloc_read.specs.Faults as faults;

/// The lesser of two places, or the one that is there.
pub fn lesser(a: Option<u64>, b: Option<u64>) -> Option<u64>
    ensures { result ≡ faults.lesser a b }
{
    match (a, b) {
        (Some(a), Some(b)) => Some(a.min(b)),
        (Some(a), None) => Some(a),
        (None, b) => b,
    }
}
