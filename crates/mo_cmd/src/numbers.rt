ghost use Rattle.std.specs.Prelude.{◌≡◌, ◌≤◌, ◌<◌, ◌^◌, IfSome, length};
ghost use Rattle.std.specs.Option.{option_map};
ghost use Rattle.mo_cmd.specs.Numbers as numbers;

// The value of a digit in hexadecimal.
fn digit(byte: u8) -> Option<u32>
    ensures exact { result ≡ numbers.digit_of byte }
    ensures within { IfSome result (λ digit. digit < 16) }
{
    match byte {
        b'0'..=b'9' => Some(u32::from(byte - b'0')),
        b'a'..=b'f' => Some(u32::from(byte - b'a') + 10),
        b'A'..=b'F' => Some(u32::from(byte - b'A') + 10),
        _ => None,
    }
}

fn digit_in(base: u32, byte: u8) -> Option<u32>
    ensures exact { result ≡ numbers.digit_in base byte }
    ensures within { IfSome result (λ digit. digit < 16) }
{
    let digit = digit(byte)?;
    if digit < base { Some(digit) } else { None }
}

/// The number that the digits of a text write in a base, where that is at most a bound.
#[tactic(auto, using(crate::proofs::NumberLemmas::counting))]
pub fn number_up_to(base: u32, most: u32, text: &[u8]) -> Option<u32>
    requires base { (0 < base) × (base ≤ 16) }
    requires most { most < 2 ^ 28 }
    ensures exact { result ≡ numbers.number_up_to base most text.now }
    ensures within { IfSome result (λ number. number ≤ most) }
{
    if text.is_empty() {
        return None;
    }
    let mut number = 0;
    for byte in text {
        match digit_in(base, *byte) {
            Some(digit) => {
                number = number * base + digit;
                if number > most {
                    return None;
                }
            }
            None => return None,
        }
    }
    Some(number)
}

fn first_dot(text: &[u8]) -> Option<usize>
    ensures exact { result ≡ numbers.first_dot text.now }
    ensures within { IfSome result (λ at. at < length text.now) }
{
    text.iter().position(|byte| *byte == b'.')
}

// A text up to its first dot, and what follows the dot.
#[tactic(auto, unfolding(crate::specs::Numbers::before_dot, crate::specs::Numbers::after_dot))]
fn cut_at_dot(text: &[u8]) -> (&[u8], Option<&[u8]>)
    ensures { (result.0.now ≡ numbers.before_dot text.now) × (option_map (λ rest. rest.now) result.1 ≡ numbers.after_dot text.now) }
{
    match first_dot(text) {
        Some(at) => (&text[..at], Some(&text[at + 1..])),
        None => (text, None),
    }
}

fn patch(text: Option<&[u8]>) -> Option<u32>
    ensures exact { result ≡ numbers.patch_of (option_map (λ text. text.now) text.entry) }
    ensures within { IfSome result (λ patch. patch < 256) }
{
    match text {
        Some(text) => number_up_to(10, 255, text),
        None => Some(0),
    }
}

fn minor(text: Option<&[u8]>) -> Option<u32>
    ensures exact { result ≡ numbers.minor_of (option_map (λ text. text.now) text.entry) }
    ensures within { IfSome result (λ minor. minor < 65536) }
{
    let Some(text) = text else {
        return Some(0);
    };
    let (front, rest) = cut_at_dot(text);
    let minor = number_up_to(10, 255, front)?;
    let patch = patch(rest)?;
    Some(minor * 256 + patch)
}

/// The version of a text X, X.Y or X.Y.Z, in 16, 8 and 8 bits.
#[tactic(auto, unfolding(crate::specs::Numbers::version_of))]
pub fn version(text: &[u8]) -> Option<u32>
    ensures { result ≡ numbers.version_of text.now }
{
    let (front, rest) = cut_at_dot(text);
    let major = number_up_to(10, 65535, front)?;
    let minor = minor(rest)?;
    Some(major * 65536 + minor)
}

fn from_to(least: u32, most: u32, text: &[u8]) -> Option<u32>
    requires { most < 2 ^ 28 }
    ensures { result ≡ numbers.from_to least most text.now }
{
    let number = number_up_to(10, most, text)?;
    if number < least { None } else { Some(number) }
}

/// How many workers a text names, 1 to 64.
pub fn threads(text: &[u8]) -> Option<u32>
    ensures { result ≡ numbers.threads_of text.now }
{
    from_to(1, 64, text)
}

/// How many functions a text names, 1 to 20,000.
pub fn functions(text: &[u8]) -> Option<u32>
    ensures { result ≡ numbers.functions_of text.now }
{
    from_to(1, 20000, text)
}

/// The reach of a branch in bytes, a multiple of 4 from 4,096 to 134,217,728.
pub fn reach(text: &[u8]) -> Option<u32>
    ensures { result ≡ numbers.reach_of text.now }
{
    let reach = from_to(4096, 134_217_728, text)?;
    if reach % 4 == 0 { Some(reach) } else { None }
}

/// The room after the load commands in bytes, in hexadecimal.
pub fn pad(text: &[u8]) -> Option<u32>
    ensures { result ≡ numbers.pad_of text.now }
{
    let digits = if text.starts_with(b"0x") {
        &text[2..]
    } else {
        text
    };
    number_up_to(16, 0x10_0000, digits)
}
