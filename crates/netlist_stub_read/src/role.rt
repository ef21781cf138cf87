//! What a token is in a declaration.

/// What a token is in a declaration.
#[derive(Clone, Copy)]
pub enum Role {
    /// A token that doesn't come here.
    Unexpected,
    /// The direction of the ports that follow.
    Direction,
    /// The name of a port in the header.
    Port,
    /// The name of a port in an item.
    Declared,
    /// The `[` of a port's range.
    Open,
    /// A token of a bound of a port's range.
    Bound,
    /// The `:` between the bounds.
    Middle,
    /// The `]` of a port's range.
    Close,
    /// The word before parameters.
    Keyword,
    /// What tells that parameters have a type whose values aren't worked out.
    Typed,
    /// The name of a parameter.
    Parameter,
    /// The `=` after it.
    Begin,
    /// A token of its value.
    Term,
    /// The token after its value.
    End,
}
