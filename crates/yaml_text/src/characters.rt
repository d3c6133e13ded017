ghost use Rattle.std.specs.Prelude.{◌≡◌};
ghost use Rattle.yaml_text.specs.Characters as characters;

/// Whether a byte is a space or a tab.
pub fn is_blank(byte: u8) -> bool
    ensures { result ≡ characters.is_blank byte }
{
    byte == b' ' || byte == b'\t'
}

/// Whether a byte is a single or a double quote.
pub fn is_quote(byte: u8) -> bool
    ensures { result ≡ characters.is_quote byte }
{
    byte == b'\'' || byte == b'"'
}

/// Whether no plain scalar begins with a byte.
#[tactic(auto, unfolding(crate::specs::Characters::is_forbidden))]
pub fn is_forbidden(byte: u8) -> bool
    ensures { result ≡ characters.is_forbidden byte }
{
    byte == b'['
        || byte == b']'
        || byte == b'{'
        || byte == b'}'
        || byte == b','
        || byte == b'#'
        || byte == b'&'
        || byte == b'*'
        || byte == b'!'
        || byte == b'|'
        || byte == b'>'
        || byte == b'\''
        || byte == b'"'
        || byte == b'%'
        || byte == b'@'
        || byte == b'`'
}
