// Properties of object literals.
ghost use Rattle.std.specs.Prelude.{◌≡◌, ◌+◌, ◌<◌, ◌^◌};
ghost use Rattle.mb_parse_expr.specs.machine.Machine as spec;
ghost use Rattle.mb_parse_expr.specs.machine.Machine.{count_of};

use crate::labels::{bracket_property, number_property, word_property};
use crate::levels::MEMBER;
use crate::machine::{Frame, Mode, Move};
use crate::role::Follow;
use mb_base::StrId;
use mb_grammar::{Maker, Property, Role};
use mb_token::{Mark, Soft, Token};
use mb_tree::{Kind, Label};

// A computed property's name ends.
pub fn computed(soft: Option<Soft>) -> Move
    ensures { result ≡ spec.computed_move soft }
{
    match soft {
        None => Move::Swap(Frame::Key(bracket_property()), Mode::Keyed),
        Some(Soft::Get) => {
            Move::Swap(Frame::Header(Maker::Getter(bracket_property())), Mode::Open)
        }
        Some(Soft::Set) => {
            Move::Swap(Frame::Header(Maker::Setter(bracket_property())), Mode::Open)
        }
    }
}

// A property that begins with a name.
pub fn name_property(name: StrId, follow: Follow, soft: Option<Soft>) -> Move
    ensures { result ≡ spec.name_move name follow soft }
{
    match follow {
        Follow::Names => Move::Enter(Frame::Key(word_property(name)), Mode::Keyed),
        Follow::Ends => {
            Move::Begin(
                Label::named(Kind::Name, name),
                Frame::Value(word_property(name)),
                Mode::After(MEMBER),
            )
        }
        Follow::Other => match soft {
            Some(soft) => Move::Enter(Frame::Accessor(soft), Mode::Key),
            None => Move::Enter(Frame::Key(word_property(name)), Mode::Keyed),
        },
    }
}

pub fn first_of_property(top: Option<Frame>, token: Option<Token>, follow: Follow) -> Move
    ensures { result ≡ spec.property_move top token follow }
{
    match token {
        Some(Token::Name(name)) => name_property(name, follow, None),
        Some(Token::Soft(soft, name)) => name_property(name, follow, Some(soft)),
        Some(Token::Reserved(_, name) | Token::Text(name)) => {
            Move::Enter(Frame::Key(word_property(name)), Mode::Keyed)
        }
        Some(Token::Whole(number)) => {
            Move::Enter(Frame::Key(number_property(number)), Mode::Keyed)
        }
        Some(Token::Mark(Mark::OpenBracket)) => {
            Move::Enter(Frame::Computed(None), Mode::Operand)
        }
        Some(Token::Mark(Mark::CloseBrace)) => match top {
            Some(Frame::Object(count)) => {
                Move::Build(
                    Label::bare(Kind::ObjectLit),
                    count,
                    Mode::After(MEMBER),
                    true,
                )
            }
            _ => Move::Wrong,
        },
        _ => Move::Wrong,
    }
}

pub fn accessor(soft: Soft, property: Property) -> Move
    ensures { result ≡ spec.accessor_move soft property }
{
    match soft {
        Soft::Get => Move::Swap(Frame::Header(Maker::Getter(property)), Mode::Open),
        Soft::Set => Move::Swap(Frame::Header(Maker::Setter(property)), Mode::Open),
    }
}

pub fn key(top: Option<Frame>, token: Option<Token>) -> Move
    ensures { result ≡ spec.key_move top token }
{
    match top {
        Some(Frame::Accessor(soft)) => match token {
            Some(
                Token::Name(name)
                | Token::Soft(_, name)
                | Token::Reserved(_, name)
                | Token::Text(name),
            ) => accessor(soft, word_property(name)),
            Some(Token::Whole(number)) => accessor(soft, number_property(number)),
            Some(Token::Mark(Mark::OpenBracket)) => {
                Move::Swap(Frame::Computed(Some(soft)), Mode::Operand)
            }
            _ => Move::Wrong,
        },
        _ => Move::Wrong,
    }
}

pub fn keyed(top: Option<Frame>, role: Role) -> Move
    ensures { result ≡ spec.keyed_move top role }
{
    match top {
        Some(Frame::Key(property)) => match role {
            Role::Colon => Move::Swap(Frame::Value(property), Mode::Operand),
            Role::Open => { Move::Swap(Frame::Params(Maker::Method(property), 0), Mode::Param) }
            _ => Move::Wrong,
        },
        _ => Move::Wrong,
    }
}

pub fn item(top: Option<Frame>, role: Role) -> Move
    requires { count_of top + 3 < 2 ^ 32 }
    ensures { result ≡ spec.item_move top role }
{
    match top {
        Some(Frame::Object(count)) => match role {
            Role::Comma => Move::Swap(Frame::Object(count + 1), Mode::Property),
            Role::CloseBrace => {
                Move::Build(
                    Label::bare(Kind::ObjectLit),
                    count + 1,
                    Mode::After(MEMBER),
                    true,
                )
            }
            _ => Move::Wrong,
        },
        _ => Move::Wrong,
    }
}
