//! The numbers of pointers' imports.
ghost use Rattle.std.specs.Prelude.{◌≡◌, slice_index_or};

/// The number at a place, or 0.
#[inline(always)]
pub(crate) fn number_at(numbers: &[usize], place: usize) -> usize
    ensures { result ≡ slice_index_or numbers.now place 0 }
{
    match numbers.get(place) {
        Some(number) => *number,
        None => 0,
    }
}
