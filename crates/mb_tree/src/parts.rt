// Which of a node's children are which parts.
ghost use Rattle.std.specs.Prelude.{◌≡◌};
ghost use Rattle.std.specs.Option.{option_map};
ghost use Rattle.mb_tree.specs.Roses.{label_of};
ghost use Rattle.mb_tree.specs.Form as spec;
ghost use Rattle.mb_tree.specs.Seen.{seen, seen_name, seen_parts};

use crate::form::{Form, FunctionParts, PropName};
use crate::kind::PropKey;
use crate::tree::Node;
use mb_base::NodeId;

// A form without parts.
pub fn leaf<'a>(parts: &[NodeId], form: Form<'a>) -> Option<Form<'a>>
    ensures { option_map seen result ≡ spec.leaf_of parts.now (seen form.entry) }
{
    match parts {
        [] => Some(form),
        _ => None,
    }
}

// The one part.
pub fn one(parts: &[NodeId]) -> Option<NodeId>
    ensures { result ≡ spec.one_of parts.now }
{
    match parts {
        [part] => Some(*part),
        _ => None,
    }
}

// The two parts.
pub fn two(parts: &[NodeId]) -> Option<(NodeId, NodeId)>
    ensures { result ≡ spec.two_of parts.now }
{
    match parts {
        [first, second] => Some((*first, *second)),
        _ => None,
    }
}

// The part that may be left out.
pub fn at_most_one(parts: &[NodeId]) -> Option<Option<NodeId>>
    ensures { result ≡ spec.at_most_one_of parts.now }
{
    match parts {
        [] => Some(None),
        [part] => Some(Some(*part)),
        _ => None,
    }
}

// The first part and the others.
pub fn first_and_rest(parts: &[NodeId]) -> Option<(NodeId, &[NodeId])>
    ensures { option_map (λ p. (p.0, p.1.now)) result ≡ spec.first_and_rest parts.now }
{
    match parts {
        [] => None,
        [first, rest @ ..] => Some((*first, rest)),
    }
}

// So many parameters and what follows them.
pub fn function_parts(params: u32, parts: &[NodeId]) -> Option<FunctionParts<'_>>
    ensures { option_map seen_parts result ≡ spec.function_parts params parts.now }
{
    let count = params as usize;
    if count <= parts.len() {
        Some(FunctionParts {
            params: &parts[..count],
            body: &parts[count..],
        })
    } else {
        None
    }
}

pub fn if_form(parts: &[NodeId]) -> Option<Form<'_>>
    ensures { option_map seen result ≡ spec.if_form parts.now }
{
    match parts {
        [test, then] => Some(Form::If {
            test: *test,
            then: *then,
            otherwise: None,
        }),
        [test, then, otherwise] => Some(Form::If {
            test: *test,
            then: *then,
            otherwise: Some(*otherwise),
        }),
        _ => None,
    }
}

pub fn cond_form(parts: &[NodeId]) -> Option<Form<'_>>
    ensures { option_map seen result ≡ spec.cond_form parts.now }
{
    match parts {
        [test, then, otherwise] => Some(Form::Cond {
            test: *test,
            then: *then,
            otherwise: *otherwise,
        }),
        _ => None,
    }
}

// By whether the head has its first, second and third part.
pub fn for_form(first: bool, test: bool, last: bool, parts: &[NodeId]) -> Option<Form<'_>>
    ensures { option_map seen result ≡ spec.for_form first test last parts.now }
{
    let (first, test, last, body) = match (first, test, last, parts) {
        (false, false, false, [body]) => (None, None, None, *body),
        (true, false, false, [first, body]) => (Some(*first), None, None, *body),
        (false, true, false, [test, body]) => (None, Some(*test), None, *body),
        (false, false, true, [last, body]) => (None, None, Some(*last), *body),
        (true, true, false, [first, test, body]) => (Some(*first), Some(*test), None, *body),
        (true, false, true, [first, last, body]) => (Some(*first), None, Some(*last), *body),
        (false, true, true, [test, last, body]) => (None, Some(*test), Some(*last), *body),
        (true, true, true, [first, test, last, body]) => (
            Some(*first),
            Some(*test),
            Some(*last),
            *body,
        ),
        _ => return None,
    };
    Some(Form::For {
        first,
        test,
        last,
        body,
    })
}

// By whether there is a catch, a name in it, and a finally.
pub fn try_form(caught: bool, named: bool, ended: bool, parts: &[NodeId]) -> Option<Form<'_>>
    ensures { option_map seen result ≡ spec.try_form caught named ended parts.now }
{
    let (block, caught, handler, ending) = match (caught, named, ended, parts) {
        (true, false, false, [block, handler]) => (*block, None, Some(*handler), None),
        (true, true, false, [block, caught, handler]) => (
            *block,
            Some(*caught),
            Some(*handler),
            None,
        ),
        (false, false, true, [block, ending]) => (*block, None, None, Some(*ending)),
        (true, false, true, [block, handler, ending]) => (
            *block,
            None,
            Some(*handler),
            Some(*ending),
        ),
        (true, true, true, [block, caught, handler, ending]) => (
            *block,
            Some(*caught),
            Some(*handler),
            Some(*ending),
        ),
        _ => return None,
    };
    Some(Form::Try {
        block,
        caught,
        handler,
        ending,
    })
}

// The key of a property, and the parts behind it.
pub fn key_and_rest(key: PropKey, node: &Node) -> Option<(PropName, &[NodeId])>
    ensures { option_map (λ p. (seen_name p.0, p.1.now)) result ≡
        spec.key_and_rest key (label_of node.now) node.now.children.items }
{
    let parts = node.children.as_slice();
    match key {
        PropKey::Named => {
            let name = node.name?;
            Some((PropName::Written(name), parts))
        }
        PropKey::Whole => Some((PropName::Whole(node.whole), parts)),
        PropKey::Computed => {
            let (key, rest) = first_and_rest(parts)?;
            Some((PropName::Computed(key), rest))
        }
    }
}
