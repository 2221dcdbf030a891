ghost use Rattle.std.specs.Prelude.{◌≡◌};
ghost use Rattle.hy_read.specs.Symbols.{spelling};

/// A token of a formula text that has one spelling: a sign or a reserved word.
#[derive(Clone, Copy, Debug, PartialEq, Eq)]
pub enum Symbol {
    OpenParen,
    CloseParen,
    Not,
    And,
    Or,
    Implies,
    Iff,
    Dot,
    Semicolon,
    Exists,
    Forall,
    True,
    False,
    Next,
    Finally,
    Globally,
    Until,
    Release,
    Weak,
}

impl Symbol {
    /// How the symbol is written.
    pub fn spelling(self) -> &'static [u8]
        ensures { result.now ≡ spelling self }
    {
        match self {
            Symbol::OpenParen => b"(",
            Symbol::CloseParen => b")",
            Symbol::Not => b"!",
            Symbol::And => b"&",
            Symbol::Or => b"|",
            Symbol::Implies => b"->",
            Symbol::Iff => b"<->",
            Symbol::Dot => b".",
            Symbol::Semicolon => b";",
            Symbol::Exists => b"exists",
            Symbol::Forall => b"forall",
            Symbol::True => b"true",
            Symbol::False => b"false",
            Symbol::Next => b"X",
            Symbol::Finally => b"F",
            Symbol::Globally => b"G",
            Symbol::Until => b"U",
            Symbol::Release => b"R",
            Symbol::Weak => b"W",
        }
    }
}
