ghost use Rattle.std.specs.Prelude.{◌≡◌, ◌<◌, ◌^◌, ◌≤◌, IfOk, OnOk, vec_len};
ghost use Rattle.mb_tree.specs.Roses.{shapes};
ghost use Rattle.mb_tree.specs.Heights.{IsWhole};
ghost use Rattle.mb_scope.specs.machine.Rows.{IsBuilt};

use super::*;
use NameFault::{BadTarget, Stray, Twice};
use mb_base::{NodeId, StrId};
use mb_tree::{Kind, Node, PropKey, Sign};
use std::alloc::AllocError;
use std::process::Abort;
use std::test::Fail;

const A: StrId = StrId(7);

const B: StrId = StrId(8);

const F: StrId = StrId(9);

// A node, by its kind, its name and the number of its parts, which are the last trees before it.
type Row = (Kind, Option<StrId>, usize);

// Adds a node with the last of the trees that wait as its parts.
fn add(
    alloc: Global,
    tree: &mut Tree,
    waiting: &mut Vec<NodeId>,
    row: Row,
) -> Result<(), AllocError>
    requires parts { row.2 ≤ vec_len waiting.old }
    requires few { vec_len tree.old.nodes < 2 ^ 32 }
    ensures { OnOk result (IsBuilt (shapes tree.old) waiting.old.items → IsBuilt (shapes tree.new) waiting.new.items) }
{
    let (kind, name, parts) = row;
    let rest = waiting.len() - parts;
    let children = Vec::from_slice(alloc, &waiting[rest..])?;
    waiting.truncate(rest);
    waiting.push(NodeId(tree.nodes.len() as u32))?;
    tree.nodes.push(Node {
        kind,
        name,
        whole: 0,
        children,
    })?;
    Ok(())
}

// The tree of these nodes, the root last.
fn tree_of(rt: &impl Abort, alloc: Global, rows: &[Row]) -> Result<Tree, AllocError>
    ensures whole { IfOk result (λ tree. IsWhole (shapes tree)) }
    ensures few { IfOk result (λ tree. vec_len tree.nodes < 2 ^ 32) }
{
    let mut tree = Tree {
        nodes: Vec::new(alloc),
    };
    let mut waiting = Vec::new(alloc);
    for row in rows {
        assert!(rt; row.2 <= waiting.len());
        assert!(rt; tree.nodes.len() < 1000);
        add(alloc, &mut tree, &mut waiting, *row)?;
    }
    assert!(rt; waiting.len() == 1);
    assert!(rt; tree.nodes.len() < 1000);
    Ok(tree)
}

// What `check` says of scripts.
const FAULTS: [(&[Row], Option<NameFault>); 36] = [
    // let a; let a;
    (
        &[
            (Kind::Decl, Some(A), 0),
            (Kind::Let, None, 1),
            (Kind::Decl, Some(A), 0),
            (Kind::Let, None, 1),
            (Kind::Script, None, 2),
        ],
        Some(Twice { node: NodeId(2) }),
    ),
    // let a, b, a;
    (
        &[
            (Kind::Decl, Some(A), 0),
            (Kind::Decl, Some(B), 0),
            (Kind::Decl, Some(A), 0),
            (Kind::Let, None, 3),
            (Kind::Script, None, 1),
        ],
        Some(Twice { node: NodeId(2) }),
    ),
    // const a = 1; function a() {}
    (
        &[
            (Kind::Number, None, 0),
            (Kind::Decl, Some(A), 1),
            (Kind::Const, None, 1),
            (Kind::FunctionDecl { params: 0 }, Some(A), 0),
            (Kind::Script, None, 2),
        ],
        Some(Twice { node: NodeId(3) }),
    ),
    // function f(a) { function a() {} }
    (
        &[
            (Kind::Param, Some(A), 0),
            (Kind::FunctionDecl { params: 0 }, Some(A), 0),
            (Kind::FunctionDecl { params: 1 }, Some(F), 2),
            (Kind::Script, None, 1),
        ],
        Some(Twice { node: NodeId(1) }),
    ),
    // (a, a) => 1;
    (
        &[
            (Kind::Param, Some(A), 0),
            (Kind::Param, Some(A), 0),
            (Kind::Number, None, 0),
            (
                Kind::Arrow {
                    params: 2,
                    block: false,
                },
                None,
                3,
            ),
            (Kind::ExprStmt, None, 1),
            (Kind::Script, None, 1),
        ],
        Some(Twice { node: NodeId(1) }),
    ),
    // ({ set [1](a) { let a; } });
    (
        &[
            (Kind::Number, None, 0),
            (Kind::Param, Some(A), 0),
            (Kind::Decl, Some(A), 0),
            (Kind::Let, None, 1),
            (Kind::Setter(PropKey::Computed), None, 3),
            (Kind::ObjectLit, None, 1),
            (Kind::Group, None, 1),
            (Kind::ExprStmt, None, 1),
            (Kind::Script, None, 1),
        ],
        Some(Twice { node: NodeId(2) }),
    ),
    // { let a; let a; }
    (
        &[
            (Kind::Decl, Some(A), 0),
            (Kind::Let, None, 1),
            (Kind::Decl, Some(A), 0),
            (Kind::Let, None, 1),
            (Kind::Block, None, 2),
            (Kind::Script, None, 1),
        ],
        Some(Twice { node: NodeId(2) }),
    ),
    // try {} catch (a) { let a; }
    (
        &[
            (Kind::Block, None, 0),
            (Kind::Param, Some(A), 0),
            (Kind::Decl, Some(A), 0),
            (Kind::Let, None, 1),
            (Kind::Block, None, 1),
            (
                Kind::Try {
                    caught: true,
                    named: true,
                    ended: false,
                },
                None,
                3,
            ),
            (Kind::Script, None, 1),
        ],
        Some(Twice { node: NodeId(2) }),
    ),
    // try { let a; } catch (a) {} finally { let a; }
    (
        &[
            (Kind::Decl, Some(A), 0),
            (Kind::Let, None, 1),
            (Kind::Block, None, 1),
            (Kind::Param, Some(A), 0),
            (Kind::Block, None, 0),
            (Kind::Decl, Some(A), 0),
            (Kind::Let, None, 1),
            (Kind::Block, None, 1),
            (
                Kind::Try {
                    caught: true,
                    named: true,
                    ended: true,
                },
                None,
                4,
            ),
            (Kind::Script, None, 1),
        ],
        None,
    ),
    // for (let a, a;;);
    (
        &[
            (Kind::Decl, Some(A), 0),
            (Kind::Decl, Some(A), 0),
            (Kind::Let, None, 2),
            (Kind::Empty, None, 0),
            (
                Kind::For {
                    first: true,
                    test: false,
                    last: false,
                },
                None,
                2,
            ),
            (Kind::Script, None, 1),
        ],
        Some(Twice { node: NodeId(1) }),
    ),
    // for (let a;;) { let a; }
    (
        &[
            (Kind::Decl, Some(A), 0),
            (Kind::Let, None, 1),
            (Kind::Decl, Some(A), 0),
            (Kind::Let, None, 1),
            (Kind::Block, None, 1),
            (
                Kind::For {
                    first: true,
                    test: false,
                    last: false,
                },
                None,
                2,
            ),
            (Kind::Script, None, 1),
        ],
        None,
    ),
    // let a; { let a; }
    (
        &[
            (Kind::Decl, Some(A), 0),
            (Kind::Let, None, 1),
            (Kind::Decl, Some(A), 0),
            (Kind::Let, None, 1),
            (Kind::Block, None, 1),
            (Kind::Script, None, 2),
        ],
        None,
    ),
    // (function a(a) {});
    (
        &[
            (Kind::Param, Some(A), 0),
            (Kind::Function { params: 1 }, Some(A), 1),
            (Kind::Group, None, 1),
            (Kind::ExprStmt, None, 1),
            (Kind::Script, None, 1),
        ],
        None,
    ),
    // return;
    (
        &[(Kind::Return, None, 0), (Kind::Script, None, 1)],
        Some(Stray { node: NodeId(0) }),
    ),
    // while (a) { return; }
    (
        &[
            (Kind::Name, Some(A), 0),
            (Kind::Return, None, 0),
            (Kind::Block, None, 1),
            (Kind::While, None, 2),
            (Kind::Script, None, 1),
        ],
        Some(Stray { node: NodeId(1) }),
    ),
    // function f() { return 1; }
    (
        &[
            (Kind::Number, None, 0),
            (Kind::Return, None, 1),
            (Kind::FunctionDecl { params: 0 }, Some(F), 1),
            (Kind::Script, None, 1),
        ],
        None,
    ),
    // (() => { { return; } });
    (
        &[
            (Kind::Return, None, 0),
            (Kind::Block, None, 1),
            (
                Kind::Arrow {
                    params: 0,
                    block: true,
                },
                None,
                1,
            ),
            (Kind::Group, None, 1),
            (Kind::ExprStmt, None, 1),
            (Kind::Script, None, 1),
        ],
        None,
    ),
    // break;
    (
        &[(Kind::Break, None, 0), (Kind::Script, None, 1)],
        Some(Stray { node: NodeId(0) }),
    ),
    // while (a) { break; }
    (
        &[
            (Kind::Name, Some(A), 0),
            (Kind::Break, None, 0),
            (Kind::Block, None, 1),
            (Kind::While, None, 2),
            (Kind::Script, None, 1),
        ],
        None,
    ),
    // do continue; while (a);
    (
        &[
            (Kind::Continue, None, 0),
            (Kind::Name, Some(A), 0),
            (Kind::DoWhile, None, 2),
            (Kind::Script, None, 1),
        ],
        None,
    ),
    // for (;;) { if (a) break; }
    (
        &[
            (Kind::Name, Some(A), 0),
            (Kind::Break, None, 0),
            (Kind::If, None, 2),
            (Kind::Block, None, 1),
            (
                Kind::For {
                    first: false,
                    test: false,
                    last: false,
                },
                None,
                1,
            ),
            (Kind::Script, None, 1),
        ],
        None,
    ),
    // while (a) { (() => { continue; }); }
    (
        &[
            (Kind::Name, Some(A), 0),
            (Kind::Continue, None, 0),
            (
                Kind::Arrow {
                    params: 0,
                    block: true,
                },
                None,
                1,
            ),
            (Kind::Group, None, 1),
            (Kind::ExprStmt, None, 1),
            (Kind::Block, None, 1),
            (Kind::While, None, 2),
            (Kind::Script, None, 1),
        ],
        Some(Stray { node: NodeId(1) }),
    ),
    // function f() { break; }
    (
        &[
            (Kind::Break, None, 0),
            (Kind::FunctionDecl { params: 0 }, Some(F), 1),
            (Kind::Script, None, 1),
        ],
        Some(Stray { node: NodeId(0) }),
    ),
    // 1 = 2;
    (
        &[
            (Kind::Number, None, 0),
            (Kind::Number, None, 0),
            (Kind::Assign, None, 2),
            (Kind::ExprStmt, None, 1),
            (Kind::Script, None, 1),
        ],
        Some(BadTarget { node: NodeId(2) }),
    ),
    // ((a)) = 2;
    (
        &[
            (Kind::Name, Some(A), 0),
            (Kind::Group, None, 1),
            (Kind::Group, None, 1),
            (Kind::Number, None, 0),
            (Kind::Assign, None, 2),
            (Kind::ExprStmt, None, 1),
            (Kind::Script, None, 1),
        ],
        None,
    ),
    // (a.b) += 2;
    (
        &[
            (Kind::Name, Some(A), 0),
            (Kind::Member, Some(B), 1),
            (Kind::Group, None, 1),
            (Kind::Number, None, 0),
            (Kind::Compound(Sign::Plus), None, 2),
            (Kind::ExprStmt, None, 1),
            (Kind::Script, None, 1),
        ],
        None,
    ),
    // a[1] = 2;
    (
        &[
            (Kind::Name, Some(A), 0),
            (Kind::Number, None, 0),
            (Kind::Index, None, 2),
            (Kind::Number, None, 0),
            (Kind::Assign, None, 2),
            (Kind::ExprStmt, None, 1),
            (Kind::Script, None, 1),
        ],
        None,
    ),
    // (a + 1)++;
    (
        &[
            (Kind::Name, Some(A), 0),
            (Kind::Number, None, 0),
            (Kind::Binary(Sign::Plus), None, 2),
            (Kind::Group, None, 1),
            (
                Kind::Update {
                    plus: true,
                    prefix: false,
                },
                None,
                1,
            ),
            (Kind::ExprStmt, None, 1),
            (Kind::Script, None, 1),
        ],
        Some(BadTarget { node: NodeId(4) }),
    ),
    // --a();
    (
        &[
            (Kind::Name, Some(A), 0),
            (Kind::Call, None, 1),
            (
                Kind::Update {
                    plus: false,
                    prefix: true,
                },
                None,
                1,
            ),
            (Kind::ExprStmt, None, 1),
            (Kind::Script, None, 1),
        ],
        Some(BadTarget { node: NodeId(2) }),
    ),
    // delete a.b;
    (
        &[
            (Kind::Name, Some(A), 0),
            (Kind::Member, Some(B), 1),
            (Kind::Unary(Sign::Delete), None, 1),
            (Kind::ExprStmt, None, 1),
            (Kind::Script, None, 1),
        ],
        None,
    ),
    // delete a;
    (
        &[
            (Kind::Name, Some(A), 0),
            (Kind::Unary(Sign::Delete), None, 1),
            (Kind::ExprStmt, None, 1),
            (Kind::Script, None, 1),
        ],
        Some(BadTarget { node: NodeId(1) }),
    ),
    // delete (a.b);
    (
        &[
            (Kind::Name, Some(A), 0),
            (Kind::Member, Some(B), 1),
            (Kind::Group, None, 1),
            (Kind::Unary(Sign::Delete), None, 1),
            (Kind::ExprStmt, None, 1),
            (Kind::Script, None, 1),
        ],
        Some(BadTarget { node: NodeId(3) }),
    ),
    // -1;
    (
        &[
            (Kind::Number, None, 0),
            (Kind::Unary(Sign::Minus), None, 1),
            (Kind::ExprStmt, None, 1),
            (Kind::Script, None, 1),
        ],
        None,
    ),
    // let a; break; let a; 1 = 2;
    (
        &[
            (Kind::Decl, Some(A), 0),
            (Kind::Let, None, 1),
            (Kind::Break, None, 0),
            (Kind::Decl, Some(A), 0),
            (Kind::Let, None, 1),
            (Kind::Number, None, 0),
            (Kind::Number, None, 0),
            (Kind::Assign, None, 2),
            (Kind::ExprStmt, None, 1),
            (Kind::Script, None, 4),
        ],
        Some(Stray { node: NodeId(2) }),
    ),
    // delete 1; let a; let a; return;
    (
        &[
            (Kind::Number, None, 0),
            (Kind::Unary(Sign::Delete), None, 1),
            (Kind::ExprStmt, None, 1),
            (Kind::Decl, Some(A), 0),
            (Kind::Let, None, 1),
            (Kind::Decl, Some(A), 0),
            (Kind::Let, None, 1),
            (Kind::Return, None, 0),
            (Kind::Script, None, 4),
        ],
        Some(BadTarget { node: NodeId(1) }),
    ),
    // an empty script
    (&[(Kind::Script, None, 0)], None),
];

// The names that scripts bind.
const NAMES: [(&[Row], &[(NodeId, StrId, bool)]); 7] = [
    // { let a; } let a;
    (
        &[
            (Kind::Decl, Some(A), 0),
            (Kind::Let, None, 1),
            (Kind::Block, None, 1),
            (Kind::Decl, Some(A), 0),
            (Kind::Let, None, 1),
            (Kind::Script, None, 2),
        ],
        &[(NodeId(2), A, false), (NodeId(5), A, false)],
    ),
    // const a = 1, b = 2; let f;
    (
        &[
            (Kind::Number, None, 0),
            (Kind::Decl, Some(A), 1),
            (Kind::Number, None, 0),
            (Kind::Decl, Some(B), 1),
            (Kind::Const, None, 2),
            (Kind::Decl, Some(F), 0),
            (Kind::Let, None, 1),
            (Kind::Script, None, 2),
        ],
        &[
            (NodeId(7), A, true),
            (NodeId(7), B, true),
            (NodeId(7), F, false),
        ],
    ),
    // for (let a = 0, b; ; ) { const f = 1; }
    (
        &[
            (Kind::Number, None, 0),
            (Kind::Decl, Some(A), 1),
            (Kind::Decl, Some(B), 0),
            (Kind::Let, None, 2),
            (Kind::Number, None, 0),
            (Kind::Decl, Some(F), 1),
            (Kind::Const, None, 1),
            (Kind::Block, None, 1),
            (
                Kind::For {
                    first: true,
                    test: false,
                    last: false,
                },
                None,
                2,
            ),
            (Kind::Script, None, 1),
        ],
        &[
            (NodeId(7), F, true),
            (NodeId(8), A, false),
            (NodeId(8), B, false),
        ],
    ),
    // (function f(a) { let b; function f() {} });
    (
        &[
            (Kind::Param, Some(A), 0),
            (Kind::Decl, Some(B), 0),
            (Kind::Let, None, 1),
            (Kind::FunctionDecl { params: 0 }, Some(F), 0),
            (Kind::Function { params: 1 }, Some(F), 3),
            (Kind::Group, None, 1),
            (Kind::ExprStmt, None, 1),
            (Kind::Script, None, 1),
        ],
        &[
            (NodeId(4), F, true),
            (NodeId(4), A, false),
            (NodeId(4), B, false),
            (NodeId(4), F, false),
        ],
    ),
    // function f(a) { const b = 1; }
    (
        &[
            (Kind::Param, Some(A), 0),
            (Kind::Number, None, 0),
            (Kind::Decl, Some(B), 1),
            (Kind::Const, None, 1),
            (Kind::FunctionDecl { params: 1 }, Some(F), 2),
            (Kind::Script, None, 1),
        ],
        &[
            (NodeId(4), A, false),
            (NodeId(4), B, true),
            (NodeId(5), F, false),
        ],
    ),
    // try {} catch (a) { let b; }
    (
        &[
            (Kind::Block, None, 0),
            (Kind::Param, Some(A), 0),
            (Kind::Decl, Some(B), 0),
            (Kind::Let, None, 1),
            (Kind::Block, None, 1),
            (
                Kind::Try {
                    caught: true,
                    named: true,
                    ended: false,
                },
                None,
                3,
            ),
            (Kind::Script, None, 1),
        ],
        &[(NodeId(4), B, false), (NodeId(5), A, false)],
    ),
    // ({ b(a) {}, get f() { let a; } });
    (
        &[
            (Kind::Param, Some(A), 0),
            (
                Kind::Method {
                    key: PropKey::Named,
                    params: 1,
                },
                Some(B),
                1,
            ),
            (Kind::Decl, Some(A), 0),
            (Kind::Let, None, 1),
            (Kind::Getter(PropKey::Named), Some(F), 1),
            (Kind::ObjectLit, None, 2),
            (Kind::Group, None, 1),
            (Kind::ExprStmt, None, 1),
            (Kind::Script, None, 1),
        ],
        &[(NodeId(1), A, false), (NodeId(4), A, false)],
    ),
];

#[test]
fn faults(rt: HostRuntime) -> Result<(), Fail> {
    for (rows, want) in FAULTS {
        let tree = tree_of(&rt, rt.alloc(), rows)?;
        assert_eq!(rt; check(rt.alloc(), &tree).err(), want, "{:?}", tree.nodes);
    }
    Ok(())
}

#[test]
fn names(rt: HostRuntime) -> Result<(), Fail> {
    for (rows, want) in NAMES {
        let tree = tree_of(&rt, rt.alloc(), rows)?;
        let scopes = check(rt.alloc(), &tree)?;
        assert_eq!(rt; scopes.names(), want, "{:?}", tree.nodes);
    }
    Ok(())
}
