// Which names a node's parts bind in its scope.
ghost use Rattle.std.specs.Prelude.{◌≡◌, ◌++◌, ◌<◌, OnOk, IfOk, vec_len, Some};
ghost use Rattle.std.specs.List.{flat_map};
ghost use Rattle.mb_tree.specs.Roses.{shapes, view};
ghost use Rattle.mb_tree.specs.Heights.{IsWhole};
ghost use Rattle.mb_tree.specs.machine.Below.{AreAmong};
ghost use Rattle.mb_scope.specs.Kinds.{declares_of, is_decl};
ghost use Rattle.mb_scope.specs.machine.Picked.{named_handler};
ghost use Rattle.mb_scope.specs.Bindings.{own, decl_binding, bound_by, bindings_of, catch_block as block_of, in_block, together};

use mb_base::{NoMemory, NodeId, StrId};
use mb_tree::{Form, Kind, Node, Tree};
use std::alloc::Global;

/// A name that a declaration, a parameter or a function declaration binds. A fixed name can't be assigned.
#[derive(Clone, Copy, Debug, PartialEq, Eq)]
pub struct Binding {
    pub node: NodeId,
    pub name: StrId,
    pub fixed: bool,
}

/// What a node binds in the scope that it is a part of.
#[derive(Clone, Copy, Debug, PartialEq, Eq)]
pub enum Declares {
    /// Its own name.
    Itself,
    /// The names of its Decls.
    Decls { fixed: bool },
    Nothing,
}

impl Declares {
    fn of(kind: Kind) -> Declares
        ensures { result ≡ declares_of kind }
    {
        match kind {
            Kind::Param | Kind::FunctionDecl { .. } => Declares::Itself,
            Kind::Let => Declares::Decls { fixed: false },
            Kind::Const => Declares::Decls { fixed: true },
            _ => Declares::Nothing,
        }
    }
}

fn is_decl(kind: Kind) -> bool
    ensures { result ≡ is_decl kind }
{
    matches!(kind, Kind::Decl)
}

// Adds the binding of a node that has a name.
fn add_own(
    bindings: &mut Vec<Binding>,
    node: NodeId,
    name: Option<StrId>,
    fixed: bool,
) -> Result<(), NoMemory>
    ensures { OnOk result (bindings.new.items ≡ bindings.old.items ++ own node name fixed) }
{
    if let Some(name) = name {
        bindings.push(Binding { node, name, fixed })?;
    }
    Ok(())
}

// Adds the bindings of the Decls among these nodes.
fn add_decls(
    tree: &Tree,
    decls: &[NodeId],
    fixed: bool,
    bindings: &mut Vec<Binding>,
) -> Result<(), NoMemory>
    requires { AreAmong decls.now (vec_len tree.now.nodes) }
    ensures { OnOk result (
        bindings.new.items ≡ bindings.old.items ++ flat_map (decl_binding (shapes tree.now) fixed) decls.now) }
{
    for id in decls {
        let node = &tree.nodes[id.0 as usize];
        if is_decl(node.kind) {
            add_own(bindings, *id, node.name, fixed)?;
        }
    }
    Ok(())
}

// Adds what a part binds.
fn add_part(tree: &Tree, part: NodeId, bindings: &mut Vec<Binding>) -> Result<(), NoMemory>
    requires whole { IsWhole (shapes tree.now) }
    requires there { part.0 < vec_len tree.now.nodes }
    ensures { OnOk result (bindings.new.items ≡ bindings.old.items ++ bound_by (shapes tree.now) part) }
{
    let node = &tree.nodes[part.0 as usize];
    match Declares::of(node.kind) {
        Declares::Itself => add_own(bindings, part, node.name, false),
        Declares::Decls { fixed } => add_decls(tree, &node.children, fixed, bindings),
        Declares::Nothing => Ok(()),
    }
}

// Adds what the parts of a scope bind.
pub fn add_bindings(
    tree: &Tree,
    parts: &[NodeId],
    bindings: &mut Vec<Binding>,
) -> Result<(), NoMemory>
    requires whole { IsWhole (shapes tree.now) }
    requires there { AreAmong parts.now (vec_len tree.now.nodes) }
    ensures { OnOk result (bindings.new.items ≡ bindings.old.items ++ bindings_of (shapes tree.now) parts.now) }
{
    for part in parts {
        add_part(tree, *part, bindings)?;
    }
    Ok(())
}

fn named_handler(form: Option<Form<'_>>) -> Option<NodeId>
    ensures { result ≡ named_handler form.entry }
{
    match form {
        Some(
            Form::Try {
                caught: Some(_),
                handler,
                ..
            },
        ) => handler,
        _ => None,
    }
}

// The block behind a catch's name.
fn catch_block(node: &Node) -> Option<NodeId>
    ensures { result ≡ block_of (view node.now) }
{
    named_handler(node.form())
}

// Adds what a block binds.
fn add_block(tree: &Tree, block: NodeId, bindings: &mut Vec<Binding>) -> Result<(), NoMemory>
    requires whole { IsWhole (shapes tree.now) }
    requires there { block.0 < vec_len tree.now.nodes }
    ensures { OnOk result (bindings.new.items ≡ bindings.old.items ++ in_block (shapes tree.now) (Some block)) }
{
    add_bindings(tree, &tree.nodes[block.0 as usize].children, bindings)
}

// The bindings of which no two may have one name, by the node that they are parts of: those of its parts, and behind a
// catch's name those of its block.
pub fn bound_together(alloc: Global, tree: &Tree, node: &Node) -> Result<Vec<Binding>, NoMemory>
    requires whole { IsWhole (shapes tree.now) }
    requires there { AreAmong node.now.children.items (vec_len tree.now.nodes) }
    ensures { IfOk result (λ bindings. bindings.items ≡ together (shapes tree.now) (view node.now)) }
{
    let mut bindings = Vec::new(alloc);
    add_bindings(tree, &node.children, &mut bindings)?;
    if let Some(block) = catch_block(node) {
        add_block(tree, block, &mut bindings)?;
    }
    Ok(bindings)
}
