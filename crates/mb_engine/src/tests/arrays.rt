// What IsArray says of each sort of object (ECMA-262, 7.2.2).
ghost use Rattle.mb_engine.specs.Begun.{IsBegun};
ghost use Rattle.mb_world.specs.Ids.{ObjIn};

use super::driver::{L, begun, goes_on};
use crate::TurnEnd;
use mb_base::{ObjId, Value};
use mb_call::is_array;
use mb_intrinsics::places::{ARRAY_PROTOTYPE, PRINT};
use mb_world::{CellKind, World};
use std::process::Abort;

#[test]
fn arrays_alone_are_arrays(rt: HostRuntime) {
    let script = "let a = [7]; let o = {}; let l = () => 1; let f = function () {}; null.x;";
    let mut w = begun(&rt, rt.alloc(), script, "");
    goes_on(&rt, &mut w, L, 100, TurnEnd::Uncaught, &["L! TypeError"]);
    // `desk`, the array, the object, the arrow, the function with its prototype, and the error
    let wanted = [
        (0, false),
        (1, true),
        (2, false),
        (3, false),
        (4, false),
        (5, false),
        (6, false),
    ];
    for (serial, wanted) in wanted {
        let Some(id) = w.object(serial) else {
            panic!(rt; "it is there")
        };
        assert_eq!(rt; said(&rt, &w, id), Some(wanted));
    }
    for place in [PRINT, ARRAY_PROTOTYPE] {
        let Some(id) = w.built_in(L, place) else {
            panic!(rt; "it is there")
        };
        assert_eq!(rt; said(&rt, &w, id), Some(false));
    }
    for x in [Value::Undefined, Value::Null, Value::Whole(7)] {
        assert_eq!(rt; is_array(&w, L, x), Some(false));
    }
}

// What it says of an object for the left side.
fn said(rt: &impl Abort, w: &World, id: ObjId) -> Option<bool>
    requires begun { IsBegun w.now }
    requires object { ObjIn w.now id }
{
    match w.cell(id).kind {
        CellKind::Membrane { .. } => panic!(rt; "a joined world has none"),
        CellKind::Shadow(_) => panic!(rt; "a joined world has none"),
        _ => is_array(w, L, Value::Object(id)),
    }
}
