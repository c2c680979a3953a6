// Rows of the table. A key in a row is one of a few texts and symbols; `a` is the text 0 and so on.
use crate::Props;
use mb_base::{Key, StrId, SymId, Value};
use std::process::Abort;
use std::test::Fail;

fn name(text: u32) -> Key {
    index(text, u32::MAX)
}

fn index(text: u32, index: u32) -> Key {
    Key::Text {
        text: StrId(text),
        index,
    }
}

fn symbol(number: u32) -> Key {
    Key::Symbol(SymId(number))
}

// Puts the keys one after the other, each with its place as its value.
fn table_of(rt: &HostRuntime, keys: &[Key]) -> Result<Props<Value>, Fail> {
    let mut table: Props<Value> = Props::new(rt.alloc());
    for (place, key) in keys.iter().enumerate() {
        table.put(*key, Value::Whole(place as i64))?;
    }
    Ok(table)
}

#[test]
fn keeps_the_order_of_creation(rt: HostRuntime) -> Result<(), Fail> {
    let keys = [
        name(0),
        index(1, 10),
        name(2),
        index(3, 9),
        index(4, 0),
        index(5, u32::MAX - 1),
    ];
    let mut table = table_of(&rt, &keys)?;
    table.put(name(0), Value::Null)?;
    assert_eq!(rt; table.get(name(0)), Some(Value::Null));
    assert_eq!(rt; table.get(index(3, 9)), Some(Value::Whole(3)));
    assert_eq!(rt; table.get(name(3)), None);
    assert_eq!(rt; table.at(0), Some((name(0), Value::Null)));
    assert_eq!(rt;
        table.at(5),
        Some((index(5, u32::MAX - 1), Value::Whole(5)))
    );
    assert_eq!(rt; table.at(6), None);
    let ordered = [
        index(4, 0),
        index(3, 9),
        index(1, 10),
        index(5, u32::MAX - 1),
        name(0),
        name(2),
    ];
    assert_eq!(rt; table.keys_in_order()?.as_slice(), ordered.as_slice());
    assert_eq!(rt; table.remove(index(1, 10)), true);
    assert_eq!(rt; table.remove(index(1, 10)), false);
    assert_eq!(rt; table.at(1), Some((name(2), Value::Whole(2))));
    table.put(index(1, 10), Value::Undefined)?;
    assert_eq!(rt; table.at(5), Some((index(1, 10), Value::Undefined)));
    Ok(())
}

#[test]
fn mixed_keys_with_removals_between(rt: HostRuntime) -> Result<(), Fail> {
    let keys = [
        symbol(1),
        name(0),
        index(1, 7),
        symbol(0),
        index(2, 3),
        name(7),
        index(3, u32::MAX - 1),
        symbol(7),
        name(5),
    ];
    let mut table = table_of(&rt, &keys)?;
    let ordered = [
        index(2, 3),
        index(1, 7),
        index(3, u32::MAX - 1),
        name(0),
        name(7),
        name(5),
        symbol(1),
        symbol(0),
        symbol(7),
    ];
    assert_eq!(rt; table.keys_in_order()?.as_slice(), ordered.as_slice());

    // A text and a symbol of one number are two keys.
    assert_eq!(rt; table.get(symbol(7)), Some(Value::Whole(7)));
    assert_eq!(rt; table.get(name(7)), Some(Value::Whole(5)));
    assert_eq!(rt; table.remove(symbol(5)), false);

    assert_eq!(rt; table.remove(symbol(1)), true);
    assert_eq!(rt; table.remove(name(0)), true);
    assert_eq!(rt; table.remove(index(2, 3)), true);
    for key in [name(0), index(4, 5), symbol(1), index(2, 3)] {
        table.put(key, Value::Null)?;
    }
    table.put(symbol(0), Value::Undefined)?;
    let made = [
        index(1, 7),
        symbol(0),
        name(7),
        index(3, u32::MAX - 1),
        symbol(7),
        name(5),
        name(0),
        index(4, 5),
        symbol(1),
        index(2, 3),
    ];
    for (place, key) in made.iter().enumerate() {
        let found = table.at(place as u32).map(|pair| pair.0);
        assert_eq!(rt; found, Some(*key), "place {place}");
    }
    assert_eq!(rt; table.at(1), Some((symbol(0), Value::Undefined)));
    let ordered = [
        index(2, 3),
        index(4, 5),
        index(1, 7),
        index(3, u32::MAX - 1),
        name(7),
        name(5),
        name(0),
        symbol(0),
        symbol(7),
        symbol(1),
    ];
    assert_eq!(rt; table.keys_in_order()?.as_slice(), ordered.as_slice());
    Ok(())
}

// Eight pairs are a list and the ninth makes it a map: neither shows.
#[test]
fn ninth_key_after_a_removal(rt: HostRuntime) -> Result<(), Fail> {
    let keys = [
        name(0),
        index(1, 6),
        name(2),
        symbol(3),
        index(4, 2),
        name(5),
        name(6),
        name(7),
    ];
    let mut table = table_of(&rt, &keys)?;
    assert_eq!(rt; table.remove(name(2)), true);
    table.put(name(8), Value::Null)?;
    table.put(index(1, 6), Value::Undefined)?;
    assert_eq!(rt; table.at(7), Some((name(8), Value::Null)));
    table.put(symbol(9), Value::Null)?;
    assert_eq!(rt; table.at(8), Some((symbol(9), Value::Null)));
    assert_eq!(rt; table.get(index(1, 6)), Some(Value::Undefined));
    assert_eq!(rt; table.get(name(7)), Some(Value::Whole(7)));
    assert_eq!(rt; table.remove(name(0)), true);
    let ordered = [
        index(4, 2),
        index(1, 6),
        name(5),
        name(6),
        name(7),
        name(8),
        symbol(3),
        symbol(9),
    ];
    assert_eq!(rt; table.keys_in_order()?.as_slice(), ordered.as_slice());
    Ok(())
}

#[test]
fn empty_table(rt: HostRuntime) -> Result<(), Fail> {
    let mut table: Props<u8> = Props::new(rt.alloc());
    assert_eq!(rt; table.get(name(0)), None);
    assert_eq!(rt; table.at(0), None);
    assert_eq!(rt; table.remove(name(0)), false);
    assert_eq!(rt; table.keys_in_order()?.len(), 0);
    Ok(())
}
