// What tokens are to the grammar of statements.
ghost use Rattle.std.specs.Prelude.{◌≡◌};
ghost use Rattle.mb_parse_stmt.specs.machine.Terminals.{terminal_of, word_terminal, mark_terminal};

use mb_base::StrId;
use mb_token::{Mark, Token, Word};

/// What a token is to the grammar of statements.
#[derive(Clone, Copy)]
pub enum Terminal {
    Name(StrId),
    If,
    Else,
    While,
    Do,
    For,
    Return,
    Throw,
    Break,
    Continue,
    Try,
    Catch,
    Finally,
    Let,
    Const,
    Function,
    /// `(`
    Open,
    /// `)`
    Close,
    OpenBrace,
    CloseBrace,
    Semicolon,
    Comma,
    /// `=`
    Becomes,
    /// No token.
    End,
    /// Any other token.
    Other,
}

pub fn classify(token: Option<Token>) -> Terminal
    ensures { result ≡ terminal_of token }
{
    match token {
        None => Terminal::End,
        Some(Token::Name(name) | Token::Soft(_, name)) => Terminal::Name(name),
        Some(Token::Reserved(word, _)) => classify_word(word),
        Some(Token::Mark(mark)) => classify_mark(mark),
        Some(Token::Whole(_) | Token::Text(_)) => Terminal::Other,
    }
}

fn classify_word(word: Word) -> Terminal
    ensures { result ≡ word_terminal word }
{
    match word {
        Word::If => Terminal::If,
        Word::Else => Terminal::Else,
        Word::While => Terminal::While,
        Word::Do => Terminal::Do,
        Word::For => Terminal::For,
        Word::Return => Terminal::Return,
        Word::Throw => Terminal::Throw,
        Word::Break => Terminal::Break,
        Word::Continue => Terminal::Continue,
        Word::Try => Terminal::Try,
        Word::Catch => Terminal::Catch,
        Word::Finally => Terminal::Finally,
        Word::Let => Terminal::Let,
        Word::Const => Terminal::Const,
        Word::Function => Terminal::Function,
        _ => Terminal::Other,
    }
}

fn classify_mark(mark: Mark) -> Terminal
    ensures { result ≡ mark_terminal mark }
{
    match mark {
        Mark::OpenParen => Terminal::Open,
        Mark::CloseParen => Terminal::Close,
        Mark::OpenBrace => Terminal::OpenBrace,
        Mark::CloseBrace => Terminal::CloseBrace,
        Mark::Semicolon => Terminal::Semicolon,
        Mark::Comma => Terminal::Comma,
        Mark::Equal => Terminal::Becomes,
        _ => Terminal::Other,
    }
}
