// The rows of the format, and the lexer against a plain program that reads a text as the format says.
use crate::{LONGEST_SCRIPT, LexFault, Lexer, lex};
use mb_text::Texts;
use mb_token::{Mark, Soft, Spanned, Token};
use std::alloc::Global;
use std::process::Abort;
use std::test::Fail;

mod plain;

use plain::{End, Kind, Plain};

// Whether the lexer's token is the plain one.
fn agrees(
    alloc: Global,
    spanned: &Spanned,
    plain: &Plain,
    texts: &mut Texts,
) -> Result<bool, Fail> {
    let same = match spanned.token {
        Token::Name(id) => plain.kind == Kind::Name && texts.intern(&plain.units)? == id,
        Token::Soft(_, id) => plain.kind == Kind::Soft && texts.intern(&plain.units)? == id,
        Token::Text(id) => plain.kind == Kind::Text && texts.intern(&plain.units)? == id,
        Token::Reserved(word, id) => {
            plain.kind == Kind::Word
                && plain::units(alloc, word.text())? == plain.units
                && texts.intern(&plain.units)? == id
        }
        Token::Mark(mark) => {
            plain.kind == Kind::Mark && plain::units(alloc, mark.text())? == plain.units
        }
        Token::Whole(n) => {
            plain.kind == Kind::Whole
                && plain::units(alloc, n.to_string(alloc)?.as_str())? == plain.units
        }
    };
    Ok(
        same && spanned.from as usize == plain.from
            && spanned.to as usize == plain.to
            && spanned.after_line == plain.after_line,
    )
}

// The lexer and the plain program agree on a text, and the number of its tokens, or its fault, is this.
fn same(rt: &impl Abort, alloc: Global, text: &str, want: Result<usize, End>) -> Result<(), Fail> {
    assert!(rt; text.len() <= LONGEST_SCRIPT);
    let (plain, end) = plain::tokens(alloc, text)?;
    let mut texts = Texts::new(alloc);
    match lex(alloc, text.as_bytes(), &mut texts) {
        Ok(tokens) => {
            assert_eq!(rt; end, End::Whole, "{text}");
            assert_eq!(rt; tokens.len(), plain.len(), "{text}");
            assert_eq!(rt; want, Ok(tokens.len()), "{text}");
            for (spanned, plain) in tokens.iter().zip(&plain) {
                assert!(rt;
                    agrees(alloc, spanned, plain, &mut texts)?,
                    "{text}: {spanned:?} {plain:?}"
                );
            }
        }
        Err(fault) => {
            let found = match fault {
                LexFault::Token { at } => End::Token(at as usize),
                LexFault::Number { at } => End::Number(at as usize),
                _ => End::Whole,
            };
            assert_eq!(rt; found, end, "{text}");
            assert_eq!(rt; want, Err(found), "{text}");
        }
    }
    Ok(())
}

// Texts with the number of their tokens, or their fault.
const ROWS: [(&str, Result<usize, End>); 94] = [
    ("", Ok(0)),
    (" \t\u{b}\u{c}\u{a0}\u{feff}\r\n\u{2028}\u{2029}", Ok(0)),
    ("1.5;", Err(End::Number(0))),
    ("\"ab", Err(End::Token(0))),
    ("#", Err(End::Token(0))),
    ("\"a\\n\\u00e9\\ud83d\"", Ok(1)),
    ("/* a", Err(End::Token(0))),
    ("a/**/b", Ok(2)),
    ("a/*\n*/b", Ok(2)),
    ("01", Err(End::Number(0))),
    ("9007199254740992", Err(End::Number(0))),
    ("9007199254740991", Ok(1)),
    ("\"\\08\"", Err(End::Token(0))),
    ("\"\\u{110000}\"", Err(End::Token(0))),
    ("\"\\u{10ffff}\\u{0}\\u{000041}\"", Ok(1)),
    ("a\\u0062", Err(End::Token(1))),
    ("x=>y", Ok(3)),
    ("x===y", Ok(3)),
    ("x!==y", Ok(3)),
    ("x>=y", Ok(3)),
    ("x++ +y", Ok(4)),
    ("\"a\nb\"", Err(End::Token(0))),
    ("\"a\u{2028}b\"", Ok(1)),
    ("get set get1", Ok(3)),
    ("==", Ok(2)),
    ("====", Ok(2)),
    ("==>", Ok(2)),
    ("!=", Ok(2)),
    ("!=>", Ok(2)),
    ("!==", Ok(1)),
    ("!=x", Ok(3)),
    ("==x", Ok(3)),
    ("=====", Ok(3)),
    ("=", Ok(1)),
    ("&", Err(End::Token(0))),
    ("&&&", Err(End::Token(2))),
    ("a|b", Err(End::Token(1))),
    ("||=", Ok(2)),
    ("+++", Ok(2)),
    ("---", Ok(2)),
    ("+=-=*=", Ok(3)),
    ("/=", Ok(2)),
    ("/", Ok(1)),
    ("a/b", Ok(3)),
    ("a / /b/ /", Ok(6)),
    ("// a", Ok(0)),
    ("// a\nb", Ok(1)),
    ("a//\u{2028}b", Ok(2)),
    ("/***/a", Ok(1)),
    ("/*/", Err(End::Token(0))),
    ("/*/*/a", Ok(1)),
    ("/**/ /*\n", Err(End::Token(5))),
    ("a /*\u{2029}*/ b /* */ c", Ok(3)),
    ("0", Ok(1)),
    ("00", Err(End::Number(0))),
    ("0x1", Err(End::Number(0))),
    ("1a", Err(End::Number(0))),
    ("1_000", Err(End::Number(0))),
    ("1.", Err(End::Number(0))),
    ("a.1", Ok(3)),
    ("1 .a", Ok(3)),
    ("a 01", Err(End::Number(2))),
    ("# 01", Err(End::Token(0))),
    ("01 #", Err(End::Number(0))),
    ("12345678901234567890123", Err(End::Number(0))),
    ("-1", Ok(2)),
    ("1\u{200c}", Err(End::Number(0))),
    ("$ _ a$b _1", Ok(4)),
    ("\u{e9}t\u{e9}", Ok(1)),
    ("a\u{200c}b", Ok(1)),
    ("\u{200c}a", Err(End::Token(0))),
    ("\u{1d400}x", Ok(1)),
    ("a\u{b7}", Ok(1)),
    ("\u{b7}", Err(End::Token(0))),
    ("\u{1f600}", Err(End::Token(0))),
    (
        "arguments await break case catch class const continue debugger default delete do else enum eval export extends false finally for function if implements import in instanceof interface let new null package private protected public return static super switch this throw true try typeof undefined var void while with yield",
        Ok(49),
    ),
    ("True iff news yields", Ok(4)),
    ("'a\"b' \"a'b\"", Ok(2)),
    ("\"\\\"\\'\\\\\\q\\\u{e9}\"", Ok(1)),
    ("\"\\x41\\xff\\u0041\\ud83d\\ude00\u{1f600}\"", Ok(1)),
    ("\"\\x4\"", Err(End::Token(0))),
    ("\"\\u004\"", Err(End::Token(0))),
    ("\"\\u{}\"", Err(End::Token(0))),
    ("\"\\u{1", Err(End::Token(0))),
    ("\"\\1\"", Err(End::Token(0))),
    ("\"\\0\\n\\t\\r\\b\\f\\v\\0a\"", Ok(1)),
    ("\"\\\n\"", Err(End::Token(0))),
    ("\"\\\u{2029}\"", Err(End::Token(0))),
    ("a \"b", Err(End::Token(2))),
    ("''", Ok(1)),
    ("\"\\0", Err(End::Token(0))),
    ("{}()[].;,<>+-*/%!?:=", Ok(20)),
    ("<= >= =>", Ok(3)),
    ("a\nb\rc\u{2028}d\u{2029}e f", Ok(6)),
];

#[test]
fn the_lexer_is_the_plain_program(rt: HostRuntime) -> Result<(), Fail> {
    for (text, want) in ROWS {
        same(&rt, rt.alloc(), text, want)?;
    }
    Ok(())
}

#[test]
fn bytes_that_are_not_utf8(rt: HostRuntime) {
    let rows: [(&[u8], u32); 4] = [
        (b"\xff", 0),
        (b"#\xff", 1),
        (b"01 \xc3(", 3),
        (b"\"\xed\xa0\x80\"", 1),
    ];
    for (bytes, at) in rows {
        assert!(rt; bytes.len() <= LONGEST_SCRIPT);
        let mut texts = Texts::new(rt.alloc());
        match lex(rt.alloc(), bytes, &mut texts) {
            Ok(_) => assert!(rt; false),
            Err(fault) => assert_eq!(rt; fault, LexFault::Utf8 { at }),
        }
    }
}

#[test]
fn a_token_has_its_text_and_place(rt: HostRuntime) -> Result<(), Fail> {
    let bytes = "get /*\n*/ \"a\\n\\u00e9\\ud83d\"".as_bytes();
    assert!(rt; bytes.len() <= LONGEST_SCRIPT);
    let mut texts = Texts::new(rt.alloc());
    let get = texts.intern(&[0x67, 0x65, 0x74])?;
    let text = texts.intern(&[0x61, 0x0a, 0xe9, 0xd83d])?;
    let tokens = lex(rt.alloc(), bytes, &mut texts)?;
    let want = [
        Spanned {
            token: Token::Soft(Soft::Get, get),
            from: 0,
            to: 3,
            after_line: false,
        },
        Spanned {
            token: Token::Text(text),
            from: 10,
            to: 27,
            after_line: true,
        },
    ];
    assert_eq!(rt; tokens.as_slice(), want.as_slice());
    Ok(())
}

// What a lexer answers that is fed these pieces.
fn fed(
    rt: &impl Abort,
    alloc: Global,
    pieces: &[&[u8]],
    texts: &mut Texts,
) -> Result<Vec<Spanned>, LexFault> {
    let mut lexer = Lexer::begin(alloc);
    for piece in pieces {
        let before = lexer.fed();
        assert!(rt; piece.len() <= LONGEST_SCRIPT);
        assert!(rt; before as usize + piece.len() <= LONGEST_SCRIPT);
        lexer.feed(piece, texts).map_err(|_| LexFault::NoMemory)?;
        assert_eq!(rt; lexer.fed() as usize, before as usize + piece.len());
    }
    lexer.finish(texts)
}

// The bytes have this answer, whatever pieces they come in: their tokens' number, or their fault.
fn in_every_cut(
    rt: &impl Abort,
    alloc: Global,
    bytes: &[u8],
    want: Result<usize, LexFault>,
) -> Result<(), Fail> {
    assert!(rt; bytes.len() <= LONGEST_SCRIPT);
    let mut texts = Texts::new(alloc);
    let whole = lex(alloc, bytes, &mut texts);
    match (&whole, want) {
        (Ok(tokens), Ok(number)) => assert_eq!(rt; tokens.len(), number),
        (Err(fault), Err(want)) => assert_eq!(rt; *fault, want),
        _ => assert!(rt; false),
    }
    let ones: Vec<&[u8]> = bytes.chunks(1).collect(alloc)?;
    same_answer(rt, &fed(rt, alloc, &ones, &mut texts), &whole);
    for at in 0..=bytes.len() {
        let (front, rest) = bytes.split_at(at);
        same_answer(rt, &fed(rt, alloc, &[front, rest], &mut texts), &whole);
        same_answer(
            rt,
            &fed(rt, alloc, &[front, &[], rest, &[]], &mut texts),
            &whole,
        );
    }
    Ok(())
}

fn same_answer(
    rt: &impl Abort,
    found: &Result<Vec<Spanned>, LexFault>,
    want: &Result<Vec<Spanned>, LexFault>,
) {
    match (found, want) {
        (Ok(found), Ok(want)) => assert_eq!(rt; found.as_slice(), want.as_slice()),
        (Err(found), Err(want)) => assert_eq!(rt; *found, *want),
        _ => assert!(rt; false),
    }
}

// Bytes with the number of their tokens, or their fault.
const CUT_ROWS: [(&[u8], Result<usize, LexFault>); 20] = [
    (b"", Ok(0)),
    (b"print(\"a\\n\\u00e9\\ud83d\");", Ok(5)),
    (b"#", Err(LexFault::Token { at: 0 })),
    (b"#\xff", Err(LexFault::Utf8 { at: 1 })),
    (b"# 01", Err(LexFault::Token { at: 0 })),
    (b"01 #", Err(LexFault::Number { at: 0 })),
    (b"01 \xc3(", Err(LexFault::Utf8 { at: 3 })),
    (b"a\xff\xff\xff\xffb", Err(LexFault::Utf8 { at: 1 })),
    (b"\"\xed\xa0\x80\"", Err(LexFault::Utf8 { at: 1 })),
    (b"\xf4\x90\x80\x80", Err(LexFault::Utf8 { at: 0 })),
    (b"\xc3\xa9\xc3\xa9 \xe2\x80\xa8x", Ok(2)),
    (b"\"\xc3\xa9\"", Ok(1)),
    (b"\"\xe2\x82\xac\"", Ok(1)),
    (b"\"\xf0\x9f\x98\x80\"", Ok(1)),
    (b"a \xc3", Err(LexFault::Utf8 { at: 2 })),
    (b"a \xe2\x82", Err(LexFault::Utf8 { at: 2 })),
    (b"# \xf0\x9f\x98", Err(LexFault::Utf8 { at: 2 })),
    (b"\xf0\x9d\x90\x80x===/*\n*/y==>z", Ok(6)),
    (
        b"typeof get 9007199254740991 9007199254740992",
        Err(LexFault::Number { at: 28 }),
    ),
    (b"x /* y", Err(LexFault::Token { at: 2 })),
];

#[test]
fn cuts_change_nothing(rt: HostRuntime) -> Result<(), Fail> {
    for (bytes, want) in CUT_ROWS {
        in_every_cut(&rt, rt.alloc(), bytes, want)?;
    }
    Ok(())
}

#[test]
fn pieces_of_one_byte_and_of_4096(rt: HostRuntime) -> Result<(), Fail> {
    let bytes = b"print(\"a\\n\\u00e9\\ud83d\");";
    let mut texts = Texts::new(rt.alloc());
    let print = texts.intern(&[0x70, 0x72, 0x69, 0x6e, 0x74])?;
    let text = texts.intern(&[0x61, 0x0a, 0xe9, 0xd83d])?;
    let places = [
        (Token::Name(print), 0, 5),
        (Token::Mark(Mark::OpenParen), 5, 6),
        (Token::Text(text), 6, 23),
        (Token::Mark(Mark::CloseParen), 23, 24),
        (Token::Mark(Mark::Semicolon), 24, 25),
    ];
    for size in [1, 4096] {
        let pieces: Vec<&[u8]> = bytes.chunks(size).collect(rt.alloc())?;
        let tokens = fed(&rt, rt.alloc(), &pieces, &mut texts)?;
        assert_eq!(rt; tokens.len(), places.len());
        for (spanned, (token, from, to)) in tokens.iter().zip(places) {
            let want = Spanned {
                token,
                from,
                to,
                after_line: false,
            };
            assert_eq!(rt; *spanned, want);
        }
    }
    Ok(())
}
