// Operands that end in brackets or in a list.
ghost use Rattle.std.specs.Prelude.{◌≡◌, ◌+◌, ◌<◌, ◌^◌};
ghost use Rattle.mb_parse_expr.specs.machine.Machine as spec;
ghost use Rattle.mb_parse_expr.specs.machine.Machine.{count_of};

use crate::levels::{CALL, MEMBER};
use crate::machine::{Frame, Mode, Move};
use crate::operands::end;
use crate::properties::computed;
use mb_grammar::Role;
use mb_tree::{Kind, Label};

// An operand ends in brackets or in a list.
pub fn listed(top: Option<Frame>, role: Role) -> Move
    requires { count_of top + 3 < 2 ^ 32 }
    ensures { result ≡ spec.listed_move top role }
{
    match top {
        Some(Frame::Start(level)) => end(level, role),
        Some(Frame::Test) => match role {
            Role::Colon => Move::Swap(Frame::Choice, Mode::Operand),
            _ => Move::Wrong,
        },
        Some(Frame::Group) => match role {
            Role::Close => Move::Build(Label::bare(Kind::Group), 1, Mode::After(MEMBER), true),
            _ => Move::Wrong,
        },
        Some(Frame::Index(found)) => match role {
            Role::CloseSquare => Move::Build(Label::bare(Kind::Index), 2, Mode::After(found), true),
            _ => Move::Wrong,
        },
        Some(Frame::Computed(soft)) => match role {
            Role::CloseSquare => computed(soft),
            _ => Move::Wrong,
        },
        Some(Frame::Args(count)) => match role {
            Role::Comma => Move::Swap(Frame::Args(count + 1), Mode::Operand),
            Role::Close => Move::Build(Label::bare(Kind::Call), count + 2, Mode::After(CALL), true),
            _ => Move::Wrong,
        },
        Some(Frame::NewArgs(count)) => match role {
            Role::Comma => Move::Swap(Frame::NewArgs(count + 1), Mode::Operand),
            Role::Close => Move::Build(
                Label::bare(Kind::New),
                count + 2,
                Mode::After(MEMBER),
                true,
            ),
            _ => Move::Wrong,
        },
        Some(Frame::Array(count)) => match role {
            Role::Comma => Move::Swap(Frame::Array(count + 1), Mode::Operand),
            Role::CloseSquare => {
                Move::Build(
                    Label::bare(Kind::ArrayLit),
                    count + 1,
                    Mode::After(MEMBER),
                    true,
                )
            }
            _ => Move::Wrong,
        },
        _ => Move::Wrong,
    }
}
