// Rows of scripts, and the nodes of their trees or why there is none.
use crate::{ParseFault, parse};
use mb_base::{NoMemory, StrId};
use mb_token::{Mark, Spanned, Token, Word};
use mb_tree::Tree;
use std::alloc::Global;
use std::process::Abort;
use std::test::Fail;

// A text's tokens: a small letter is a name, a digit a number, a capital letter a reserved word, `>` the mark `=>`, `+`
// the mark `++`, and each other character below its own mark. A line feed is a line end.
fn token_of(byte: u8) -> Option<Token> {
    let word = |word| Some(Token::Reserved(word, StrId(0)));
    let mark = |mark| Some(Token::Mark(mark));
    match byte {
        b'a'..=b'z' => Some(Token::Name(StrId(u32::from(byte)))),
        b'0'..=b'9' => Some(Token::Whole(i64::from(byte - b'0'))),
        b'I' => word(Word::If),
        b'E' => word(Word::Else),
        b'W' => word(Word::While),
        b'D' => word(Word::Do),
        b'F' => word(Word::For),
        b'R' => word(Word::Return),
        b'T' => word(Word::Throw),
        b'B' => word(Word::Break),
        b'K' => word(Word::Continue),
        b'Y' => word(Word::Try),
        b'C' => word(Word::Catch),
        b'N' => word(Word::Finally),
        b'L' => word(Word::Let),
        b'O' => word(Word::Const),
        b'U' => word(Word::Function),
        b'(' => mark(Mark::OpenParen),
        b')' => mark(Mark::CloseParen),
        b'{' => mark(Mark::OpenBrace),
        b'}' => mark(Mark::CloseBrace),
        b';' => mark(Mark::Semicolon),
        b',' => mark(Mark::Comma),
        b'=' => mark(Mark::Equal),
        b'>' => mark(Mark::Arrow),
        b'?' => mark(Mark::Question),
        b':' => mark(Mark::Colon),
        b'<' => mark(Mark::Less),
        b'+' => mark(Mark::PlusPlus),
        b'!' => mark(Mark::Not),
        _ => None,
    }
}

fn tokens(alloc: Global, text: &str) -> Result<Vec<Spanned>, NoMemory> {
    let mut tokens = Vec::new(alloc);
    let mut after_line = false;
    for byte in text.as_bytes() {
        if *byte == b'\n' {
            after_line = true;
        }
        if let Some(token) = token_of(*byte) {
            tokens.push(Spanned {
                token,
                from: 0,
                to: 0,
                after_line,
            })?;
            after_line = false;
        }
    }
    Ok(tokens)
}

fn parsed(alloc: Global, text: &str) -> Result<Tree, ParseFault> {
    let tokens = tokens(alloc, text)?;
    if tokens.len() > 1048576 {
        return Err(ParseFault::NoMemory);
    }
    parse(alloc, &tokens)
}

// The nodes, each with the places of its children.
fn shown(alloc: Global, tree: &Tree) -> Result<String, Fail> {
    let mut out = String::new(alloc);
    for node in &tree.nodes {
        write!(out, "{:?}", node.kind)?;
        for child in &node.children {
            write!(out, " {}", child.0)?;
        }
        out.push_str("; ")?;
    }
    Ok(out)
}

fn check(
    rt: &impl Abort,
    alloc: Global,
    text: &str,
    want: Result<&str, ParseFault>,
) -> Result<(), Fail> {
    match parsed(alloc, text) {
        Ok(tree) => assert_eq!(rt; Ok(shown(alloc, &tree)?.as_str()), want, "{text}"),
        Err(fault) => assert_eq!(rt; Err(fault), want, "{text}"),
    }
    Ok(())
}

const ROWS: [(&str, Result<&str, ParseFault>); 33] = [
    ("", Ok("Script; ")),
    (
        "a ? b : c = 4;",
        Ok("Name; Name; Name; Number; Assign 2 3; Cond 0 1 4; ExprStmt 5; Script 6; "),
    ),
    (
        "I (a) b; E c;",
        Ok("Name; Name; ExprStmt 1; Name; ExprStmt 3; If 0 2 4; Script 5; "),
    ),
    (
        "I (a) I (b) c; E d;",
        Ok("Name; Name; Name; ExprStmt 2; Name; ExprStmt 4; If 1 3 5; If 0 6; Script 7; "),
    ),
    (
        "F (;;) B;",
        Ok("Break; For { first: false, test: false, last: false } 0; Script 1; "),
    ),
    (
        "F (L i = 0, j; i < 1; i+) { K; }",
        Ok(
            "Number; Decl 0; Decl; Let 1 2; Name; Number; Binary(Less) 4 5; Name; Update { plus: true, prefix: false } 7; Continue; Block 9; For { first: true, test: true, last: true } 3 6 8 10; Script 11; ",
        ),
    ),
    (
        "F (a; ; b) ;",
        Ok("Name; Name; Empty; For { first: true, test: false, last: true } 0 1 2; Script 3; "),
    ),
    (
        "Y { } C { } N { }",
        Ok(
            "Block; Block; Block; Try { caught: true, named: false, ended: true } 0 1 2; Script 3; ",
        ),
    ),
    (
        "Y { } C (e) { }",
        Ok(
            "Block; Param; Block; Try { caught: true, named: true, ended: false } 0 1 2; Script 3; ",
        ),
    ),
    (
        "Y { } N { ; }",
        Ok(
            "Block; Empty; Block 1; Try { caught: false, named: false, ended: true } 0 2; Script 3; ",
        ),
    ),
    ("Y { }", Err(ParseFault::Shape)),
    ("Y { } N { } N { }", Err(ParseFault::Shape)),
    (
        "D x; W (y);",
        Ok("Name; ExprStmt 0; Name; DoWhile 1 2; Script 3; "),
    ),
    ("W (a) ;", Ok("Name; Empty; While 0 1; Script 2; ")),
    ("R\n1;", Err(ParseFault::Shape)),
    ("T\n1;", Err(ParseFault::Shape)),
    ("T 1;", Ok("Number; Throw 0; Script 1; ")),
    ("R 1; R\n;", Ok("Number; Return 0; Return; Script 1 2; ")),
    ("L a", Err(ParseFault::Shape)),
    ("O a;", Err(ParseFault::Shape)),
    ("O a = 1;", Ok("Number; Decl 0; Const 1; Script 2; ")),
    (
        "L a, b = 1;",
        Ok("Decl; Number; Decl 1; Let 0 2; Script 3; "),
    ),
    ("{}", Ok("Block; Script 0; ")),
    ("({});", Ok("ObjectLit; Group 0; ExprStmt 1; Script 2; ")),
    (
        "U f(a) { R; }",
        Ok("Param; Return; FunctionDecl { params: 1 } 0 1; Script 2; "),
    ),
    (
        "U f(a, b,) { U g() { } }",
        Ok(
            "Param; Param; FunctionDecl { params: 0 }; FunctionDecl { params: 2 } 0 1 2; Script 3; ",
        ),
    ),
    ("I (a) U f() { }", Err(ParseFault::Shape)),
    (
        "x > { R y > { }; };",
        Ok(
            "Param; Param; Arrow { params: 1, block: true } 1; Return 2; Arrow { params: 1, block: true } 0 3; ExprStmt 4; Script 5; ",
        ),
    ),
    ("x > { R y > { };", Err(ParseFault::Shape)),
    ("a", Err(ParseFault::Shape)),
    ("{ a; }}", Err(ParseFault::Shape)),
    ("E a;", Err(ParseFault::Shape)),
    ("B a;", Err(ParseFault::Shape)),
];

#[test]
fn rows(rt: HostRuntime) -> Result<(), Fail> {
    for (text, want) in ROWS {
        check(&rt, rt.alloc(), text, want)?;
    }
    Ok(())
}

// A text so many times, what stands in the midst, and another text as often.
fn nested(
    alloc: Global,
    opening: &str,
    count: usize,
    midst: &str,
    closing: &str,
) -> Result<String, NoMemory> {
    let mut text = String::new(alloc);
    for _ in 0..count {
        text.push_str(opening)?;
    }
    text.push_str(midst)?;
    for _ in 0..count {
        text.push_str(closing)?;
    }
    Ok(text)
}

// Texts that are nested so deeply, and whether their trees are too high.
const DEPTHS: [(&str, usize, &str, &str, Option<ParseFault>); 7] = [
    ("!", 253, "a;", "", None),
    ("!", 254, "a;", "", Some(ParseFault::Deep)),
    ("!", 300, "a;", "", Some(ParseFault::Deep)),
    ("{", 524288, "", "}", Some(ParseFault::Deep)),
    ("{", 1048576, "", "", Some(ParseFault::Shape)),
    ("x>{", 200000, "", "};", Some(ParseFault::Deep)),
    ("x>{", 349525, "", "", Some(ParseFault::Shape)),
];

#[test]
fn depths(rt: HostRuntime) -> Result<(), Fail> {
    for (opening, count, midst, closing, want) in DEPTHS {
        let text = nested(rt.alloc(), opening, count, midst, closing)?;
        assert_eq!(rt;
            parsed(rt.alloc(), text.as_str()).err(),
            want,
            "{opening} {count}"
        );
    }
    Ok(())
}
