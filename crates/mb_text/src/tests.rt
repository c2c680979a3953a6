use super::*;
use mb_base::{Key, StrId};
use std::alloc::{AllocError, Global};
use std::test::Fail;

fn units_of(alloc: Global, text: &str) -> Result<Vec<u16>, AllocError> {
    text.bytes().map(u16::from).collect(alloc)
}

#[test]
fn a_text_has_one_id(rt: HostRuntime) -> Result<(), Fail> {
    let mut texts = Texts::new(rt.alloc());
    let rows: [(&[u16], u32); 5] = [
        (&[0x61, 0x62], 0),
        (&[], 1),
        (&[0x61], 2),
        (&[0x61, 0x62], 0),
        (&[0xD83D], 3),
    ];
    for (units, place) in rows {
        assert_eq!(rt; texts.intern(units), Ok(StrId(place)));
        assert_eq!(rt; texts.find(units), Some(StrId(place)));
    }
    assert_eq!(rt; texts.find(&[0x62]), None);
    assert_eq!(rt; texts.len(), 4);
    Ok(())
}

// The units behind the id of a text that a new table takes.
fn taken(alloc: Global, units: &[u16]) -> Result<usize, TextFault> {
    let mut texts = Texts::new(alloc);
    let id = texts.intern(units)?;
    Ok(texts.units(id).len())
}

#[test]
fn a_text_has_at_most_longest_units(rt: HostRuntime) -> Result<(), Fail> {
    let mut units = vec![in rt.alloc(); 0x61; LONGEST]?;
    assert_eq!(rt; taken(rt.alloc(), &units), Ok(1_048_576));
    units.push(0x61)?;
    assert_eq!(rt; taken(rt.alloc(), &units), Err(TextFault::Long));
    Ok(())
}

// The units of a whole number's text.
fn whole_text(alloc: Global, n: i64) -> Result<Vec<u16>, Fail> {
    let mut texts = Texts::new(alloc);
    let id = texts.of_whole(n)?;
    Ok(texts.units(id).to_vec(alloc)?)
}

#[test]
fn whole_numbers_have_their_decimal_texts(rt: HostRuntime) -> Result<(), Fail> {
    let rows = [
        (0, "0"),
        (-1, "-1"),
        (9_007_199_254_740_991, "9007199254740991"),
        (-9_007_199_254_740_991, "-9007199254740991"),
    ];
    for (n, text) in rows {
        assert_eq!(rt; whole_text(rt.alloc(), n)?, units_of(rt.alloc(), text)?);
    }
    Ok(())
}

// The units of the join of two texts.
fn join_text(alloc: Global, first: &[u16], second: &[u16]) -> Result<Vec<u16>, TextFault> {
    let mut texts = Texts::new(alloc);
    let a = texts.intern(first)?;
    let b = texts.intern(second)?;
    let id = texts.join(a, b)?;
    texts
        .units(id)
        .to_vec(alloc)
        .map_err(|_| TextFault::NoMemory)
}

#[test]
fn a_join_is_one_text_behind_the_other(rt: HostRuntime) -> Result<(), Fail> {
    let long = vec![in rt.alloc(); 0x61; LONGEST]?;
    let both = vec![in rt.alloc(); 0x61, 0x62, 0x62, 0x63]?;
    assert_eq!(rt;
        join_text(rt.alloc(), &[0x61, 0x62], &[0x62, 0x63]),
        Ok(both)
    );
    assert_eq!(rt;
        join_text(rt.alloc(), &long, &[]).map(|text| text.len()),
        Ok(1_048_576)
    );
    assert_eq!(rt; join_text(rt.alloc(), &long, &[0x61]), Err(TextFault::Long));
    Ok(())
}

// The index in the key of a text, or `None` where the key has another text.
fn key_index(alloc: Global, text: &str) -> Result<Option<u32>, Fail> {
    let mut texts = Texts::new(alloc);
    let units = units_of(alloc, text)?;
    let id = texts.intern(&units)?;
    match texts.key(id) {
        Key::Text { text, index } if text == id => Ok(Some(index)),
        _ => Ok(None),
    }
}

#[test]
fn a_key_has_the_index_that_its_text_spells(rt: HostRuntime) -> Result<(), Fail> {
    let rows = [
        ("0", 0),
        ("1", 1),
        ("10", 10),
        ("4294967294", 4_294_967_294),
        ("4294967295", u32::MAX),
        ("4294967296", u32::MAX),
        ("10000000000", u32::MAX),
        ("01", u32::MAX),
        ("00", u32::MAX),
        ("", u32::MAX),
        ("-1", u32::MAX),
        ("1a", u32::MAX),
        ("1.0", u32::MAX),
    ];
    for (text, index) in rows {
        assert_eq!(rt; key_index(rt.alloc(), text)?, Some(index), "{text}");
    }
    Ok(())
}

#[test]
fn texts_are_spelled(rt: HostRuntime) -> Result<(), Fail> {
    let rows: [(&[u16], bool, &[u8]); 11] = [
        (
            &[0x61, 0x0A, 0xE9, 0xD83D],
            false,
            b"\x61\x5c\x6e\xc3\xa9\x5c\x75\x64\x38\x33\x64",
        ),
        (&[0xD83D, 0xDE00], false, b"\xf0\x9f\x98\x80"),
        (&[0xDE00, 0xD83D], false, b"\\ude00\\ud83d"),
        (&[0xD83D, 0xD83D, 0xDE00], false, b"\\ud83d\xf0\x9f\x98\x80"),
        (&[0x7F], false, b"\\u007f"),
        (&[0, 0x1F, 0x20], false, b"\\u0000\\u001f "),
        (&[0x0D, 0x09], false, b"\\r\\u0009"),
        (&[0x22], true, b"\\\""),
        (&[0x22], false, b"\""),
        (&[0x5C, 0x6E], true, b"\\\\n"),
        (&[0x20AC, 0xFFFD], true, b"\xe2\x82\xac\xef\xbf\xbd"),
    ];
    for (units, quoted, expected) in rows {
        let mut out = b">".to_vec(rt.alloc())?;
        assert_eq!(rt; spell(units, quoted, &mut out), Ok(()));
        assert_eq!(rt; &out[1..], expected);
    }
    Ok(())
}
