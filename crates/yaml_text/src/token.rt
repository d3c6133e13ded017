use mo_types::Bytes;

/// What stands in a flow list.
#[derive(Debug, Drop)]
pub enum Token {
    Comma,
    /// The closing bracket, and whether nothing but a comment follows it.
    Close(bool),
    /// `: ` or `:` at the line's end.
    Colon,
    Scalar(Bytes),
    /// A quoted scalar with an unknown escape.
    Escaped,
    /// A scalar that begins with a forbidden character.
    Forbidden,
    /// A quoted scalar that the line doesn't close.
    Unclosed,
}
