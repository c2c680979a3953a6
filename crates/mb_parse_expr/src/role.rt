// What tokens are to the grammar of expressions.
ghost use Rattle.std.specs.Prelude.{◌≡◌};
ghost use Rattle.mb_grammar.specs.Tokens.{role_of, word_role, mark_role};
ghost use Rattle.mb_parse_expr.specs.machine.Machine.{follow_of};

use mb_grammar::Role;
use mb_token::{Mark, Token, Word};
use mb_tree::{Fixed, Sign};

/// What the token behind a property's first word says of that word.
#[derive(Clone, Copy)]
pub enum Follow {
    /// It is the property's name.
    Names,
    /// It is the property's name and its value.
    Ends,
    Other,
}

pub fn classify(token: Option<Token>) -> Role
    ensures { result ≡ role_of token }
{
    match token {
        None => Role::Other,
        Some(Token::Name(name) | Token::Soft(_, name)) => Role::Name(name),
        Some(Token::Reserved(word, _)) => classify_word(word),
        Some(Token::Whole(number)) => Role::Number(number),
        Some(Token::Text(text)) => Role::Text(text),
        Some(Token::Mark(mark)) => classify_mark(mark),
    }
}

fn classify_word(word: Word) -> Role
    ensures { result ≡ word_role word }
{
    match word {
        Word::This => Role::This,
        Word::True => Role::Fixed(Fixed::True),
        Word::False => Role::Fixed(Fixed::False),
        Word::Null => Role::Fixed(Fixed::Null),
        Word::Undefined => Role::Fixed(Fixed::Undefined),
        Word::Function => Role::Function,
        Word::New => Role::New,
        Word::Typeof => Role::Prefix(Sign::Typeof),
        Word::Delete => Role::Prefix(Sign::Delete),
        Word::In => Role::Infix(Sign::In),
        Word::Instanceof => Role::Infix(Sign::Instanceof),
        _ => Role::Other,
    }
}

fn classify_mark(mark: Mark) -> Role
    ensures { result ≡ mark_role mark }
{
    match mark {
        Mark::TripleEqual => Role::Infix(Sign::TripleEqual),
        Mark::NotDoubleEqual => Role::Infix(Sign::NotDoubleEqual),
        Mark::LessEqual => Role::Infix(Sign::LessEqual),
        Mark::GreaterEqual => Role::Infix(Sign::GreaterEqual),
        Mark::Less => Role::Infix(Sign::Less),
        Mark::Greater => Role::Infix(Sign::Greater),
        Mark::Plus => Role::Infix(Sign::Plus),
        Mark::Minus => Role::Infix(Sign::Minus),
        Mark::Times => Role::Infix(Sign::Times),
        Mark::Slash => Role::Infix(Sign::Slash),
        Mark::Percent => Role::Infix(Sign::Percent),
        Mark::Not => Role::Prefix(Sign::Not),
        Mark::OrOr => Role::Or,
        Mark::AndAnd => Role::And,
        Mark::PlusPlus => Role::Step(true),
        Mark::MinusMinus => Role::Step(false),
        Mark::Equal => Role::Becomes,
        Mark::PlusEqual => Role::Compound(Sign::Plus),
        Mark::MinusEqual => Role::Compound(Sign::Minus),
        Mark::TimesEqual => Role::Compound(Sign::Times),
        Mark::Question => Role::Question,
        Mark::Colon => Role::Colon,
        Mark::Comma => Role::Comma,
        Mark::Dot => Role::Dot,
        Mark::Arrow => Role::Arrow,
        Mark::OpenParen => Role::Open,
        Mark::CloseParen => Role::Close,
        Mark::OpenBracket => Role::OpenSquare,
        Mark::CloseBracket => Role::CloseSquare,
        Mark::OpenBrace => Role::OpenBrace,
        Mark::CloseBrace => Role::CloseBrace,
        Mark::Semicolon => Role::Semicolon,
    }
}

pub fn followed_by(role: Role) -> Follow
    ensures { result ≡ follow_of role }
{
    match role {
        Role::Colon | Role::Open => Follow::Names,
        Role::Comma | Role::CloseBrace => Follow::Ends,
        _ => Follow::Other,
    }
}
