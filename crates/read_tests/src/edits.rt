//! Small changes to bytes.

/// Writes bytes at their places, as `36=0c00 508=1c` says: two hexadecimal digits a byte. What passes the end
/// is left out.
pub fn edit(bytes: &mut [u8], edits: &str) {
    for text in edits.split_whitespace() {
        if let Some((place, digits)) = text.split_once('=') {
            write_digits(bytes, place.parse().unwrap_or(usize::MAX), digits);
        }
    }
}

fn write_digits(bytes: &mut [u8], place: usize, digits: &str) {
    for (i, digit) in digits.chars().enumerate() {
        if let Some(byte) = bytes.get_mut(place.saturating_add(i / 2)) {
            *byte = *byte << 4 | digit.to_digit(16).unwrap_or(0) as u8;
        }
    }
}
