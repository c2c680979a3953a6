ghost use Rattle.std.specs.Prelude.{◌≡◌, List, [], ◌∷◌, ◌++◌, IfOk};
ghost use Rattle.mb_tree.specs.Roses.{bare, shape, shapes, write};
ghost use Rattle.mb_tree.specs.Heights.{a_call};

use super::*;
use mb_base::NodeId;
use std::alloc::{AllocError, Global};
use std::test::Fail;

// Adds a node without a name.
fn add(alloc: Global, tree: &mut Tree, kind: Kind, children: &[NodeId]) -> Result<(), AllocError>
    ensures { IfOk result (λ u. shapes tree.new ≡ shapes tree.old ++ shape (bare kind) children.now ∷ []) }
{
    let children = Vec::from_slice(alloc, children)?;
    tree.nodes.push(Node {
        kind,
        name: None,
        whole: 0,
        children,
    })?;
    Ok(())
}

// The nodes of `this, this()`.
fn a_call_behind_a_comma(alloc: Global) -> Result<Tree, AllocError>
    ensures { IfOk result (λ t. shapes t ≡ write [] a_call) }
{
    let mut tree = Tree {
        nodes: Vec::new(alloc),
    };
    add(alloc, &mut tree, Kind::This, &[])?;
    add(alloc, &mut tree, Kind::This, &[])?;
    add(alloc, &mut tree, Kind::Call, &[NodeId(1)])?;
    add(alloc, &mut tree, Kind::Seq, &[NodeId(0), NodeId(2)])?;
    Ok(tree)
}

#[test]
fn a_height_is_the_longest_way(rt: HostRuntime) -> Result<(), Fail> {
    let tree = a_call_behind_a_comma(rt.alloc())?;
    assert_eq!(rt; tree.height(rt.alloc()), Ok(3));
    Ok(())
}

#[test]
fn no_node_has_height_zero(rt: HostRuntime) {
    let tree = Tree {
        nodes: Vec::new(rt.alloc()),
    };
    assert_eq!(rt; tree.height(rt.alloc()), Ok(0));
}

#[test]
fn a_node_takes_the_last_trees(rt: HostRuntime) -> Result<(), Fail> {
    let alloc = rt.alloc();
    let mut tree = Tree {
        nodes: Vec::new(alloc),
    };
    let mut operands = Vec::new(alloc);
    for (kind, count, left) in [
        (Kind::This, 0, 1),
        (Kind::Name, 0, 2),
        (Kind::Number, 0, 3),
        (Kind::Call, 2, 2),
        (Kind::Seq, 2, 1),
    ] {
        assert!(rt; operands.len() >= count);
        let label = Label {
            kind,
            name: None,
            whole: 7,
        };
        tree.build(alloc, label, &mut operands, count)?;
        assert_eq!(rt; operands.len(), left);
    }
    assert_eq!(rt; operands.as_slice(), [NodeId(4)].as_slice());
    assert_eq!(rt; tree.nodes.len(), 5);
    assert_eq!(rt;
        tree.nodes[3].children.as_slice(),
        [NodeId(1), NodeId(2)].as_slice()
    );
    assert_eq!(rt;
        tree.nodes[4].children.as_slice(),
        [NodeId(0), NodeId(3)].as_slice()
    );
    assert_eq!(rt; tree.nodes[4].whole, 7);
    Ok(())
}

// The nodes of `this, this()` by their forms.
#[test]
fn nodes_have_forms(rt: HostRuntime) -> Result<(), Fail> {
    let tree = a_call_behind_a_comma(rt.alloc())?;
    assert_eq!(rt; tree.nodes.len(), 4);
    assert!(rt; matches!(tree.nodes[0].form(), Some(Form::This)));
    match tree.nodes[2].form() {
        Some(Form::Call { callee, arguments }) => {
            assert_eq!(rt; callee, NodeId(1));
            assert!(rt; arguments.is_empty());
        }
        _ => assert!(rt; false),
    }
    match tree.nodes[3].form() {
        Some(Form::Seq { values }) => {
            assert_eq!(rt; values, [NodeId(0), NodeId(2)].as_slice());
        }
        _ => assert!(rt; false),
    }
    Ok(())
}
