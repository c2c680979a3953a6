// The rows, worked out by hand.
use mb_base::StrId;
use mb_desc::Desc;
use mb_world::{Op, Seen};

// A key, by the number of its text or of its symbol.
#[derive(Clone, Copy)]
pub enum Name {
    Text(u32),
    Symbol(u32),
}

// What is given or answered.
#[derive(Clone, Copy)]
pub enum Part {
    Nothing,
    Flag(bool),
    Value(Seen),
    Absent,
    Prop(Desc<Seen>),
    NoKeys,
    Keys(Name, Name),
    Thrown(Seen),
    Pair(Seen, Seen),
}

// The place of the side, the op, the key, what is given, the answer, and the line behind the count of entries.
pub type Row = (u8, Op, Option<Name>, Part, Part, &'static str);

const NONE: Desc<Seen> = Desc {
    value: None,
    writable: None,
    get: None,
    set: None,
    enumerable: None,
    configurable: None,
};

const ANY: Part = Part::Value(Seen::Undefined);

const YES: Part = Part::Flag(true);

const LONG: Part = Part::Value(Seen::Text(StrId(3)));

const OTHER_LONG: Part = Part::Value(Seen::Text(StrId(4)));

const DATUM: Part = Part::Prop(Desc {
    value: Some(Seen::Whole(1)),
    writable: Some(false),
    enumerable: Some(true),
    configurable: Some(false),
    ..NONE
});

const ACCESSOR: Part = Part::Prop(Desc {
    get: Some(Seen::Object(3)),
    set: Some(Seen::Undefined),
    enumerable: Some(false),
    configurable: Some(true),
    ..NONE
});

const SPELLED: Part = Part::Prop(Desc {
    value: Some(Seen::Text(StrId(1))),
    ..NONE
});

const KEY: Option<Name> = Some(Name::Text(0));

pub const ROWS: [Row; 33] = [
    (
        0,
        Op::GetPrototypeOf,
        None,
        Part::Nothing,
        Part::Value(Seen::Null),
        "L #7 getPrototypeOf - - null",
    ),
    (
        0,
        Op::GetPrototypeOf,
        None,
        Part::Nothing,
        Part::Value(Seen::Object(0)),
        "L #7 getPrototypeOf - - #0",
    ),
    (
        0,
        Op::GetPrototypeOf,
        None,
        Part::Nothing,
        Part::Value(Seen::BuiltIn(12)),
        "L #7 getPrototypeOf - - @Function.prototype",
    ),
    (
        1,
        Op::SetPrototypeOf,
        None,
        Part::Value(Seen::Object(3)),
        YES,
        "R #7 setPrototypeOf - #3 true",
    ),
    (
        1,
        Op::SetPrototypeOf,
        None,
        Part::Value(Seen::Null),
        Part::Flag(false),
        "R #7 setPrototypeOf - null false",
    ),
    (
        1,
        Op::SetPrototypeOf,
        None,
        Part::Value(Seen::BuiltIn(12)),
        YES,
        "R #7 setPrototypeOf - @Function.prototype true",
    ),
    (
        1,
        Op::IsExtensible,
        None,
        Part::Nothing,
        Part::Flag(false),
        "R #7 isExtensible - - false",
    ),
    (
        1,
        Op::PreventExtensions,
        None,
        Part::Nothing,
        YES,
        "R #7 preventExtensions - - true",
    ),
    (
        1,
        Op::GetOwnPropertyDescriptor,
        KEY,
        Part::Nothing,
        Part::Absent,
        "R #7 getOwnPropertyDescriptor \"k\" - none",
    ),
    (
        1,
        Op::GetOwnPropertyDescriptor,
        KEY,
        Part::Nothing,
        DATUM,
        "R #7 getOwnPropertyDescriptor \"k\" - {value=1,writable=false,enumerable=true,configurable=false}",
    ),
    (
        1,
        Op::GetOwnPropertyDescriptor,
        KEY,
        Part::Nothing,
        ACCESSOR,
        "R #7 getOwnPropertyDescriptor \"k\" - {get=#3,set=undefined,enumerable=false,configurable=true}",
    ),
    (
        1,
        Op::DefineProperty,
        Some(Name::Symbol(0)),
        SPELLED,
        YES,
        "R #7 defineProperty @@0 {value=\"a\\\"b\\n\\ud83d\"} true",
    ),
    (
        1,
        Op::DefineProperty,
        KEY,
        Part::Prop(NONE),
        Part::Flag(false),
        "R #7 defineProperty \"k\" {} false",
    ),
    (1, Op::Has, KEY, Part::Nothing, YES, "R #7 has \"k\" - true"),
    (
        1,
        Op::Get,
        Some(Name::Text(1)),
        Part::Nothing,
        ANY,
        "R #7 get \"a\\\"b\\n\\ud83d\" - undefined",
    ),
    (
        1,
        Op::Set,
        KEY,
        Part::Value(Seen::Text(StrId(2))),
        YES,
        "R #7 set \"k\" \"xxxxxxxxxxxxxxxxxxxxxxxxxxxxxxxxxxxxxxxxxxxxxxxxxxxxxxxxxxxxxxxx\" true",
    ),
    (1, Op::Set, KEY, OTHER_LONG, YES, "R #7 set \"k\" ~1 true"),
    (
        1,
        Op::Get,
        Some(Name::Text(3)),
        Part::Nothing,
        OTHER_LONG,
        "R #7 get ~2 - ~1",
    ),
    (
        1,
        Op::DeleteProperty,
        KEY,
        Part::Nothing,
        YES,
        "R #7 deleteProperty \"k\" - true",
    ),
    (
        1,
        Op::OwnKeys,
        None,
        Part::Nothing,
        Part::NoKeys,
        "R #7 ownKeys - - []",
    ),
    (
        1,
        Op::OwnKeys,
        None,
        Part::Nothing,
        Part::Keys(Name::Text(0), Name::Symbol(0)),
        "R #7 ownKeys - - [\"k\",@@0]",
    ),
    (
        1,
        Op::Apply,
        None,
        Part::Nothing,
        Part::Value(Seen::Whole(-12)),
        "R #7 apply - - -12",
    ),
    (
        1,
        Op::Apply,
        None,
        Part::Nothing,
        Part::Value(Seen::Bool(true)),
        "R #7 apply - - true",
    ),
    (
        1,
        Op::Construct,
        None,
        Part::Nothing,
        Part::Value(Seen::Object(4_294_967_295)),
        "R #7 construct - - #4294967295",
    ),
    (
        1,
        Op::Construct,
        None,
        Part::Nothing,
        Part::Value(Seen::BuiltIn(3)),
        "R #7 construct - - @Object",
    ),
    (
        1,
        Op::Get,
        KEY,
        Part::Nothing,
        Part::Thrown(Seen::Null),
        "R #7 get \"k\" - throw null",
    ),
    (
        1,
        Op::Get,
        KEY,
        Part::Nothing,
        Part::Thrown(Seen::Object(3)),
        "R #7 get \"k\" - throw #3",
    ),
    (
        1,
        Op::Get,
        KEY,
        Part::Nothing,
        Part::Thrown(Seen::BuiltIn(8)),
        "R #7 get \"k\" - throw @Error",
    ),
    (
        1,
        Op::Get,
        KEY,
        Part::Nothing,
        Part::Value(Seen::Symbol(1)),
        "R #7 get \"k\" - @@1",
    ),
    (
        1,
        Op::Set,
        KEY,
        Part::Value(Seen::Symbol(0)),
        YES,
        "R #7 set \"k\" @@0 true",
    ),
    (
        0,
        Op::Collect(61),
        None,
        LONG,
        ANY,
        "L #7 @Map.prototype.get - ~2 undefined",
    ),
    (
        0,
        Op::Collect(62),
        None,
        Part::Pair(Seen::Text(StrId(0)), Seen::Null),
        YES,
        "L #7 @Map.prototype.set - \"k\"=>null true",
    ),
    (
        0,
        Op::Collect(66),
        None,
        Part::Nothing,
        Part::Pair(Seen::Object(3), Seen::Whole(0)),
        "L #7 @Map.prototype.forEach - - #3=>0",
    ),
];
