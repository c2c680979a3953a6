// Reserved words and soft names.
ghost use Rattle.std.specs.Prelude.{◌≡◌};
ghost use Rattle.std.specs.Str.{bytes_eq};
ghost use Rattle.mb_token.specs.Words.{word_text, word_of, soft_of};

/// A name that is a keyword in some places alone.
#[derive(Clone, Copy, Debug, PartialEq, Eq)]
pub enum Soft {
    Get,
    Set,
}

/// A word that no identifier may be (ECMA-262, 12.7.2, with the words that strict code reserves, `arguments`, `eval`
/// and `undefined`).
#[derive(Clone, Copy, Debug, PartialEq, Eq)]
pub enum Word {
    Arguments,
    Await,
    Break,
    Case,
    Catch,
    Class,
    Const,
    Continue,
    Debugger,
    Default,
    Delete,
    Do,
    Else,
    Enum,
    Eval,
    Export,
    Extends,
    False,
    Finally,
    For,
    Function,
    If,
    Implements,
    Import,
    In,
    Instanceof,
    Interface,
    Let,
    New,
    Null,
    Package,
    Private,
    Protected,
    Public,
    Return,
    Static,
    Super,
    Switch,
    This,
    Throw,
    True,
    Try,
    Typeof,
    Undefined,
    Var,
    Void,
    While,
    With,
    Yield,
}

// Each word once.
const WORDS: [Word; 49] = [
    Word::Arguments,
    Word::Await,
    Word::Break,
    Word::Case,
    Word::Catch,
    Word::Class,
    Word::Const,
    Word::Continue,
    Word::Debugger,
    Word::Default,
    Word::Delete,
    Word::Do,
    Word::Else,
    Word::Enum,
    Word::Eval,
    Word::Export,
    Word::Extends,
    Word::False,
    Word::Finally,
    Word::For,
    Word::Function,
    Word::If,
    Word::Implements,
    Word::Import,
    Word::In,
    Word::Instanceof,
    Word::Interface,
    Word::Let,
    Word::New,
    Word::Null,
    Word::Package,
    Word::Private,
    Word::Protected,
    Word::Public,
    Word::Return,
    Word::Static,
    Word::Super,
    Word::Switch,
    Word::This,
    Word::Throw,
    Word::True,
    Word::Try,
    Word::Typeof,
    Word::Undefined,
    Word::Var,
    Word::Void,
    Word::While,
    Word::With,
    Word::Yield,
];

impl Word {
    /// The letters of the word.
    pub fn text(self) -> &'static str
        ensures { result.now ≡ word_text self }
    {
        match self {
            Word::Arguments => "arguments",
            Word::Await => "await",
            Word::Break => "break",
            Word::Case => "case",
            Word::Catch => "catch",
            Word::Class => "class",
            Word::Const => "const",
            Word::Continue => "continue",
            Word::Debugger => "debugger",
            Word::Default => "default",
            Word::Delete => "delete",
            Word::Do => "do",
            Word::Else => "else",
            Word::Enum => "enum",
            Word::Eval => "eval",
            Word::Export => "export",
            Word::Extends => "extends",
            Word::False => "false",
            Word::Finally => "finally",
            Word::For => "for",
            Word::Function => "function",
            Word::If => "if",
            Word::Implements => "implements",
            Word::Import => "import",
            Word::In => "in",
            Word::Instanceof => "instanceof",
            Word::Interface => "interface",
            Word::Let => "let",
            Word::New => "new",
            Word::Null => "null",
            Word::Package => "package",
            Word::Private => "private",
            Word::Protected => "protected",
            Word::Public => "public",
            Word::Return => "return",
            Word::Static => "static",
            Word::Super => "super",
            Word::Switch => "switch",
            Word::This => "this",
            Word::Throw => "throw",
            Word::True => "true",
            Word::Try => "try",
            Word::Typeof => "typeof",
            Word::Undefined => "undefined",
            Word::Var => "var",
            Word::Void => "void",
            Word::While => "while",
            Word::With => "with",
            Word::Yield => "yield",
        }
    }

    /// The word of these code units, if they are one's.
    pub fn of_units(units: &[u16]) -> Option<Word>
        ensures { result ≡ word_of units.now }
    {
        WORDS
            .iter()
            .copied()
            .find(|word| is_spelled(word.text(), units))
    }
}

impl Soft {
    /// The soft name of these code units, if they are one's.
    pub fn of_units(units: &[u16]) -> Option<Soft>
        ensures { result ≡ soft_of units.now }
    {
        if is_spelled("get", units) {
            Some(Soft::Get)
        } else if is_spelled("set", units) {
            Some(Soft::Set)
        } else {
            None
        }
    }
}

// Whether the units are those of an ASCII text.
fn is_spelled(text: &str, units: &[u16]) -> bool
    ensures { result ≡ bytes_eq text.now units.now }
{
    let letters = text.as_bytes();
    if letters.len() != units.len() {
        return false;
    }
    for (place, unit) in units.iter().enumerate() {
        if u16::from(letters[place]) != *unit {
            return false;
        }
    }
    true
}
