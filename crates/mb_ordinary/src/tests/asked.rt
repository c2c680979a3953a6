// What the calls ask is found out before each of them.
ghost use Rattle.std.specs.Prelude.{◌≡◌};
ghost use Rattle.mb_desc.specs.Descriptors.{IsOfOneKind};
ghost use Rattle.mb_world.specs.Data.{cell_at};
ghost use Rattle.mb_world.specs.Ids.{ObjIn, ValueIn, KeyIn, Maybe};
ghost use Rattle.mb_ordinary.specs.Objects.{is_ordinary, IsOrdinary};
ghost use Rattle.mb_ordinary.specs.Definitions.{DescIn};

use mb_base::{Key, ObjId, StrId, Value};
use mb_desc::Desc;
use mb_world::{CellKind, World};
use std::process::Abort;

fn is_ordinary(kind: &CellKind) -> bool
    ensures { result ≡ is_ordinary kind.now }
{
    !matches!(kind, CellKind::Proxy { .. } | CellKind::Membrane { .. })
}

pub fn there(rt: &impl Abort, w: &World, o: ObjId)
    ensures { ObjIn w.now o }
{
    assert!(rt; o.0 < w.cells());
}

pub fn ordinary(rt: &impl Abort, w: &World, o: ObjId)
    ensures { IsOrdinary (cell_at w.now o) }
{
    there(rt, w, o);
    let cell = w.cell(o);
    assert!(rt; is_ordinary(&cell.kind));
}

pub fn key(rt: &impl Abort, w: &World, text: u32) -> Key
    ensures { KeyIn w.now result }
{
    assert!(rt; (text as usize) < w.texts().len());
    w.texts().key(StrId(text))
}

pub fn value(rt: &impl Abort, w: &World, x: Value)
    ensures { ValueIn w.now x }
{
    match x {
        Value::Object(o) => there(rt, w, o),
        Value::Text(text) => assert!(rt; (text.0 as usize) < w.texts().len()),
        Value::Symbol(symbol) => assert!(rt; symbol.0 < w.symbols()),
        _ => {}
    }
}

fn field(rt: &impl Abort, w: &World, x: Option<Value>)
    ensures { Maybe (ValueIn w.now) x }
{
    if let Some(x) = x {
        value(rt, w, x);
    }
}

pub fn fields(rt: &impl Abort, w: &World, desc: Desc<Value>)
    ensures { DescIn w.now desc }
{
    field(rt, w, desc.value);
    field(rt, w, desc.get);
    field(rt, w, desc.set);
}

pub fn one_kind(rt: &impl Abort, desc: Desc<Value>)
    ensures { IsOfOneKind desc }
{
    if desc.is_data() {
        assert!(rt; !desc.is_accessor());
    }
}
