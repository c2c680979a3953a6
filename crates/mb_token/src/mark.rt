// Marks.
ghost use Rattle.std.specs.Prelude.{◌≡◌};
ghost use Rattle.mb_token.specs.Marks.{mark_text};

/// A punctuator (ECMA-262, 12.8), named by its characters.
#[derive(Clone, Copy, Debug, PartialEq, Eq)]
pub enum Mark {
    /// `===`
    TripleEqual,
    /// `!==`
    NotDoubleEqual,
    /// `=>`
    Arrow,
    /// `<=`
    LessEqual,
    /// `>=`
    GreaterEqual,
    /// `&&`
    AndAnd,
    /// `||`
    OrOr,
    /// `++`
    PlusPlus,
    /// `--`
    MinusMinus,
    /// `+=`
    PlusEqual,
    /// `-=`
    MinusEqual,
    /// `*=`
    TimesEqual,
    /// `{`
    OpenBrace,
    /// `}`
    CloseBrace,
    /// `(`
    OpenParen,
    /// `)`
    CloseParen,
    /// `[`
    OpenBracket,
    /// `]`
    CloseBracket,
    /// `.`
    Dot,
    /// `;`
    Semicolon,
    /// `,`
    Comma,
    /// `<`
    Less,
    /// `>`
    Greater,
    /// `+`
    Plus,
    /// `-`
    Minus,
    /// `*`
    Times,
    /// `/`
    Slash,
    /// `%`
    Percent,
    /// `!`
    Not,
    /// `?`
    Question,
    /// `:`
    Colon,
    /// `=`
    Equal,
}

impl Mark {
    /// The characters of the mark.
    pub fn text(self) -> &'static str
        ensures { result.now ≡ mark_text self }
    {
        match self {
            Mark::TripleEqual => "===",
            Mark::NotDoubleEqual => "!==",
            Mark::Arrow => "=>",
            Mark::LessEqual => "<=",
            Mark::GreaterEqual => ">=",
            Mark::AndAnd => "&&",
            Mark::OrOr => "||",
            Mark::PlusPlus => "++",
            Mark::MinusMinus => "--",
            Mark::PlusEqual => "+=",
            Mark::MinusEqual => "-=",
            Mark::TimesEqual => "*=",
            Mark::OpenBrace => "{",
            Mark::CloseBrace => "}",
            Mark::OpenParen => "(",
            Mark::CloseParen => ")",
            Mark::OpenBracket => "[",
            Mark::CloseBracket => "]",
            Mark::Dot => ".",
            Mark::Semicolon => ";",
            Mark::Comma => ",",
            Mark::Less => "<",
            Mark::Greater => ">",
            Mark::Plus => "+",
            Mark::Minus => "-",
            Mark::Times => "*",
            Mark::Slash => "/",
            Mark::Percent => "%",
            Mark::Not => "!",
            Mark::Question => "?",
            Mark::Colon => ":",
            Mark::Equal => "=",
        }
    }
}
