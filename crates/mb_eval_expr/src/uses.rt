// What is done with the value of a reference.
ghost use Rattle.std.specs.Prelude.{◌≡◌};
ghost use Rattle.mb_eval_expr.specs.machine.Uses.{use_frame};

use mb_base::{NodeId, Value};
use mb_frames::{Context, ExprFrame, Reference};
use mb_tree::Sign;

// What follows once a reference was read: the value is given, is the old one of a compound assignment or of an update,
// or is called.
#[derive(Clone, Copy)]
pub(crate) enum Use {
    Give,
    Compound {
        at: Context,
        sign: Sign,
        value: NodeId,
        to: Reference,
    },
    Update {
        at: Context,
        plus: bool,
        prefix: bool,
        to: Reference,
    },
    Call {
        at: Context,
        node: NodeId,
        this: Value,
    },
}

// The frame that waits for the value.
pub(crate) fn frame_of(next: Use) -> ExprFrame
    ensures { result ≡ use_frame next }
{
    match next {
        Use::Give => ExprFrame::Got,
        Use::Compound {
            at,
            sign,
            value,
            to,
        } => ExprFrame::CompoundOld {
            at,
            sign,
            value,
            to,
        },
        Use::Update {
            at,
            plus,
            prefix,
            to,
        } => ExprFrame::UpdateOld {
            at,
            plus,
            prefix,
            to,
        },
        Use::Call { at, node, this } => ExprFrame::Callee { at, node, this },
    }
}
