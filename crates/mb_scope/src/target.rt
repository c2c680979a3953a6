// What operators change.
ghost use Rattle.std.specs.Prelude.{◌≡◌, ◌<◌, ◌^◌, ◌↔◌, IsTrue, vec_len};
ghost use Rattle.mb_tree.specs.Roses.{shapes, view};
ghost use Rattle.mb_tree.specs.Heights.{IsWhole};
ghost use Rattle.mb_tree.specs.machine.Below.{AreAmong};
ghost use Rattle.mb_scope.specs.machine.First.{IsFirst};
ghost use Rattle.mb_scope.specs.Kinds.{target_type_of, use_of, is_property, group_part, operand_of};
ghost use Rattle.mb_scope.specs.machine.Picked.{inner_of, changed_by};
ghost use Rattle.mb_scope.specs.Targets.{IsTarget, IsProperty, Misses, MissesFirst, IsBadTarget};

use mb_base::NodeId;
use mb_tree::{Form, Kind, Node, Sign, Tree};

/// What an expression is as a target (ECMA-262, 8.6.4, AssignmentTargetType).
#[derive(Clone, Copy, Debug, PartialEq, Eq)]
pub enum TargetType {
    /// A name or a property.
    Simple,
    /// What its part is.
    Grouped,
    Invalid,
}

/// What an operator does with its operand.
#[derive(Clone, Copy, Debug, PartialEq, Eq)]
pub enum Use {
    Assigns,
    Deletes,
    Plain,
}

impl TargetType {
    fn of(kind: Kind) -> TargetType
        ensures { result ≡ target_type_of kind }
    {
        match kind {
            Kind::Name | Kind::Member | Kind::Index => TargetType::Simple,
            Kind::Group => TargetType::Grouped,
            _ => TargetType::Invalid,
        }
    }
}

impl Use {
    fn of(kind: Kind) -> Use
        ensures { result ≡ use_of kind }
    {
        match kind {
            Kind::Assign | Kind::Compound(_) | Kind::Update { .. } => Use::Assigns,
            Kind::Unary(Sign::Delete) => Use::Deletes,
            _ => Use::Plain,
        }
    }
}

fn is_property(kind: Kind) -> bool
    ensures { result ≡ is_property kind }
{
    matches!(kind, Kind::Member | Kind::Index)
}

fn inner_of(form: Option<Form<'_>>) -> Option<NodeId>
    ensures { result ≡ inner_of form.entry }
{
    match form {
        Some(Form::Group { inner }) => Some(inner),
        _ => None,
    }
}

// What stands in parentheses.
fn part_in_group(node: &Node) -> Option<NodeId>
    ensures { result ≡ group_part node.now.kind node.now.children.items }
{
    inner_of(node.form())
}

fn changed_by(form: Option<Form<'_>>) -> Option<NodeId>
    ensures { result ≡ changed_by form.entry }
{
    match form {
        Some(
            Form::Assign { target, .. }
            | Form::Compound { target, .. }
            | Form::Update { target, .. },
        ) => Some(target),
        Some(Form::Unary { operand, .. }) => Some(operand),
        _ => None,
    }
}

// What an operator assigns to, or its one operand.
fn operand(node: &Node) -> Option<NodeId>
    ensures { result ≡ operand_of node.now.kind node.now.children.items }
{
    changed_by(node.form())
}

// Whether a node is a name or a property, perhaps in parentheses.
fn can_be_assigned(tree: &Tree, target: NodeId) -> bool
    requires whole { IsWhole (shapes tree.now) }
    requires there { target.0 < vec_len tree.now.nodes }
    ensures { IsTrue result ↔ IsTarget (shapes tree.now) target }
{
    let mut id = target;
    loop {
        let node = &tree.nodes[id.0 as usize];
        match TargetType::of(node.kind) {
            TargetType::Simple => return true,
            TargetType::Invalid => return false,
            TargetType::Grouped => match part_in_group(node) {
                Some(part) => id = part,
                None => return false,
            },
        }
    }
}

// Whether an operand isn't what its operator wants.
fn misses(tree: &Tree, usage: Use, operand: NodeId) -> bool
    requires whole { IsWhole (shapes tree.now) }
    requires there { operand.0 < vec_len tree.now.nodes }
    ensures { IsTrue result ↔ Misses (shapes tree.now) usage operand }
{
    match usage {
        Use::Assigns => !can_be_assigned(tree, operand),
        Use::Deletes => !is_property(tree.nodes[operand.0 as usize].kind),
        Use::Plain => false,
    }
}

// Whether a node is an operator whose operand isn't what it wants.
fn misses_first(tree: &Tree, node: &Node) -> bool
    requires whole { IsWhole (shapes tree.now) }
    requires there { AreAmong node.now.children.items (vec_len tree.now.nodes) }
    ensures { IsTrue result ↔ MissesFirst (shapes tree.now) (view node.now) }
{
    match operand(node) {
        Some(operand) => misses(tree, Use::of(node.kind), operand),
        None => false,
    }
}

// The first operator whose operand isn't what it wants.
pub fn first_bad_target(tree: &Tree) -> Option<NodeId>
    requires whole { IsWhole (shapes tree.now) }
    requires few { vec_len tree.now.nodes < 2 ^ 32 }
    ensures { IsFirst (λ id. id.0) (IsBadTarget (shapes tree.now)) result }
{
    for (place, node) in tree.nodes.iter().enumerate() {
        if misses_first(tree, node) {
            return Some(NodeId(place as u32));
        }
    }
    None
}
