// Rows of a parser, by its tokens and its tree.
ghost use Rattle.std.specs.Prelude.{◌≡◌, ◌≤◌, length, true};
ghost use Rattle.mb_grammar.specs.Tokens.{RoleAt};

use crate::role::classify;
use crate::{ExprParser, Level, Paused};
use mb_base::{NoMemory, NodeId, StrId};
use mb_grammar::Role;
use mb_token::{Mark, Soft, Spanned, Token, Word};
use mb_tree::{Kind, Node, PropKey, Tree};
use std::alloc::{AllocError, Global};
use std::test::Fail;

// The id of a text is the code of its first letter.
fn id_of(text: &str) -> StrId {
    StrId(u32::from(text.as_bytes().first().copied().unwrap_or(0)))
}

fn mark_of(piece: &str) -> Option<Mark> {
    match piece {
        "===" => Some(Mark::TripleEqual),
        "=>" => Some(Mark::Arrow),
        "&&" => Some(Mark::AndAnd),
        "||" => Some(Mark::OrOr),
        "++" => Some(Mark::PlusPlus),
        "{" => Some(Mark::OpenBrace),
        "}" => Some(Mark::CloseBrace),
        "(" => Some(Mark::OpenParen),
        ")" => Some(Mark::CloseParen),
        "[" => Some(Mark::OpenBracket),
        "]" => Some(Mark::CloseBracket),
        "." => Some(Mark::Dot),
        ";" => Some(Mark::Semicolon),
        "," => Some(Mark::Comma),
        "+" => Some(Mark::Plus),
        "-" => Some(Mark::Minus),
        "*" => Some(Mark::Times),
        "%" => Some(Mark::Percent),
        "?" => Some(Mark::Question),
        ":" => Some(Mark::Colon),
        "=" => Some(Mark::Equal),
        _ => None,
    }
}

fn word_of(piece: &str) -> Option<Word> {
    match piece {
        "new" => Some(Word::New),
        "return" => Some(Word::Return),
        "typeof" => Some(Word::Typeof),
        "delete" => Some(Word::Delete),
        "in" => Some(Word::In),
        "instanceof" => Some(Word::Instanceof),
        _ => None,
    }
}

fn token_of(piece: &str) -> Token {
    if let Some(mark) = mark_of(piece) {
        return Token::Mark(mark);
    }
    if let Some(word) = word_of(piece) {
        return Token::Reserved(word, id_of(piece));
    }
    match piece {
        "get" => Token::Soft(Soft::Get, id_of(piece)),
        "set" => Token::Soft(Soft::Set, id_of(piece)),
        _ => match piece.as_bytes() {
            [digit @ b'0'..=b'9', ..] => Token::Whole(i64::from(*digit - b'0')),
            [b'"', letter, ..] => Token::Text(StrId(u32::from(*letter))),
            _ => Token::Name(id_of(piece)),
        },
    }
}

// Tokens with blanks between; `|` is a line end.
fn tokens_of(alloc: Global, text: &str) -> Result<Vec<Spanned>, AllocError> {
    let mut tokens = Vec::new(alloc);
    let mut after_line = false;
    for piece in text.split(' ') {
        if piece == "|" {
            after_line = true;
        } else {
            tokens.push(Spanned {
                token: token_of(piece),
                from: 0,
                to: 0,
                after_line,
            })?;
            after_line = false;
        }
    }
    Ok(tokens)
}

// A closing brace stands there.
fn is_closed(tokens: &[Spanned], at: u32) -> bool
    ensures { result ≡ true → RoleAt tokens.now at Role.CloseBrace }
{
    match tokens.get(at as usize) {
        Some(spanned) => match classify(Some(spanned.token)) {
            Role::CloseBrace => true,
            _ => false,
        },
        None => false,
    }
}

// How a parser of the expression at the first token ended, where the bodies that it named began, and the tree.
#[derive(Drop)]
struct Parsed {
    end: Paused,
    bodies: Vec<u32>,
    tree: Tree,
}

// Reads an expression whose bodies are empty. It ends at the first body that isn't.
fn read_expression(alloc: Global, tokens: &[Spanned], level: Level) -> Result<Parsed, NoMemory>
    requires { length tokens.now ≤ 1048576 }
{
    let mut tree = Tree {
        nodes: Vec::new(alloc),
    };
    let mut bodies = Vec::new(alloc);
    let mut parser = ExprParser::begin(alloc, 0, level)?;
    'bodies: for _ in 0..100u32 {
        let end = parser.run(alloc, tokens, &mut tree)?;
        let Paused::Body { at } = end else {
            return Ok(Parsed { end, bodies, tree });
        };
        bodies.push(at)?;
        if !is_closed(tokens, at) {
            return Ok(Parsed { end, bodies, tree });
        }
        parser.resume(at, Vec::new(alloc));
    }
    Err(NoMemory)
}

// A node: a name's letter, a number's digit, else its kind with what it holds, and how many parts it has.
fn shown(alloc: Global, node: &Node) -> Result<String, AllocError> {
    let letter = node.name.and_then(|id| char::from_u32(id.0)).unwrap_or('?');
    let count = node.children.len();
    match node.kind {
        Kind::Name => format!(in alloc; "{letter} "),
        Kind::Number => format!(in alloc; "{} ", node.whole),
        Kind::Value(PropKey::Whole) => format!(in alloc; "Value(Whole):{}/{count} ", node.whole),
        kind => match node.name {
            Some(_) => format!(in alloc; "{kind:?}:{letter}/{count} "),
            None => format!(in alloc; "{kind:?}/{count} "),
        },
    }
}

// The nodes one after the other, each with the ids of the parts that it takes checked: they are the last trees that
// no node has taken.
fn rendered(alloc: Global, tree: &Tree) -> Result<String, AllocError> {
    let mut text = String::new(alloc);
    let mut left: Vec<NodeId> = Vec::new(alloc);
    for (place, node) in tree.nodes.iter().enumerate() {
        let taken = node.children.len();
        if left.len() < taken || left[left.len() - taken..] != node.children[..] {
            text.push_str("wrong parts ")?;
        }
        left.truncate(left.len().saturating_sub(taken));
        left.push(NodeId(place.min(1_000) as u32))?;
        let node = shown(alloc, node)?;
        text.push_str(&node)?;
    }
    Ok(text)
}

// How the tokens are read, as one line.
fn told(alloc: Global, text: &str, level: Level) -> Result<String, NoMemory> {
    let tokens = tokens_of(alloc, text)?;
    if tokens.len() > 100 {
        return Err(NoMemory);
    }
    let parsed = read_expression(alloc, &tokens, level)?;
    let mut line = rendered(alloc, &parsed.tree)?;
    for body in &parsed.bodies {
        let place = format!(in alloc; "body {body} ")?;
        line.push_str(&place)?;
    }
    let end = match parsed.end {
        Paused::Ended { next, root } => format!(in alloc; "ended {next} {}", root.0)?,
        Paused::Body { .. } => format!(in alloc; "waits")?,
        Paused::Wrong => format!(in alloc; "wrong")?,
    };
    line.push_str(&end)?;
    Ok(line)
}

#[test]
fn operators_take_their_operands(rt: HostRuntime) -> Result<(), Fail> {
    for (text, line) in [
        ("a ? b : c = 4 ;", "a b c 4 Assign/2 Cond/3 ended 7 5"),
        ("a = b = c ;", "a b c Assign/2 Assign/2 ended 5 4"),
        (
            "- a . b ++ ;",
            "a Member:b/1 Update { plus: true, prefix: false }/1 Unary(Minus)/1 ended 5 3",
        ),
        (
            "typeof delete a . b ;",
            "a Member:b/1 Unary(Delete)/1 Unary(Typeof)/1 ended 5 3",
        ),
        (
            "a in b instanceof c ;",
            "a b Binary(In)/2 c Binary(Instanceof)/2 ended 5 4",
        ),
        (
            "a + b * c - d % e ;",
            "a b c Binary(Times)/2 Binary(Plus)/2 d e Binary(Percent)/2 Binary(Minus)/2 ended 9 8",
        ),
        (
            "a || b && c === d ;",
            "a b c d Binary(TripleEqual)/2 And/2 Or/2 ended 7 6",
        ),
        ("a || b || c ;", "a b c Or/2 Or/2 ended 5 4"),
    ] {
        let found = told(rt.alloc(), text, Level::Expr).expect(&rt, "memory");
        assert_eq!(rt; found.as_str(), line, "{text}");
    }
    Ok(())
}

#[test]
fn lists_and_calls(rt: HostRuntime) -> Result<(), Fail> {
    for (text, line) in [
        ("( a , b ) ;", "a b Seq/2 Group/1 ended 5 3"),
        ("( a ) ;", "a Group/1 ended 3 1"),
        (
            "new new A ( 1 ) ( 2 ) . b [ c ] ;",
            "A 1 New/2 2 New/2 Member:b/1 c Index/2 ended 14 7",
        ),
        ("new A ;", "A New/1 ended 2 1"),
        ("f ( a , ) ;", "f a Call/2 ended 5 2"),
        ("[ a , ] ;", "a ArrayLit/1 ended 4 1"),
        (
            "( { a , } ) ;",
            "a Value(Named):a/1 ObjectLit/1 Group/1 ended 6 3",
        ),
    ] {
        let found = told(rt.alloc(), text, Level::Expr).expect(&rt, "memory");
        assert_eq!(rt; found.as_str(), line, "{text}");
    }
    Ok(())
}

#[test]
fn functions_name_their_bodies(rt: HostRuntime) -> Result<(), Fail> {
    for (text, line) in [
        (
            "( a , b ) => a + b ;",
            "Param:a/0 Param:b/0 a b Binary(Plus)/2 Arrow { params: 2, block: false }/3 ended 9 5",
        ),
        (
            "( ) => { } ;",
            "Arrow { params: 0, block: true }/0 body 4 ended 5 0",
        ),
        (
            "x => x => 1 ;",
            "Param:x/0 Param:x/0 1 Arrow { params: 1, block: false }/2 Arrow { params: 1, block: false }/2 ended 5 4",
        ),
        (
            "f ( x => y => { } , ( ) => { } ) ;",
            "f Param:x/0 Param:y/0 Arrow { params: 1, block: true }/1 Arrow { params: 1, block: false }/2 Arrow { params: 0, block: true }/0 Call/3 body 7 body 13 ended 15 6",
        ),
        (
            "( { a : 1 , get b ( ) { } , set b ( v ) { } , [ c ] : 2 , d , \"e\" : 3 , 4 : 5 , f ( ) { } } ) ;",
            "1 Value(Named):a/1 Getter(Named):b/0 Param:v/0 Setter(Named):b/1 c 2 Value(Computed)/2 d Value(Named):d/1 3 Value(Named):e/1 5 Value(Whole):4/1 Method { key: Named, params: 0 }:f/0 ObjectLit/8 Group/1 body 11 body 19 body 41 ended 44 16",
        ),
        (
            "( { a : 1 , get b ( ) { return 1 ; } } ) ;",
            "1 Value(Named):a/1 body 11 waits",
        ),
    ] {
        let found = told(rt.alloc(), text, Level::Expr).expect(&rt, "memory");
        assert_eq!(rt; found.as_str(), line, "{text}");
    }
    Ok(())
}

#[test]
fn an_expression_ends_where_its_level_says(rt: HostRuntime) -> Result<(), Fail> {
    for (text, level, line) in [
        ("a , b", Level::Assign, "a ended 1 0"),
        ("a , b ;", Level::Expr, "a b Seq/2 ended 3 2"),
        ("a | ++ b ;", Level::Expr, "a wrong"),
        ("1 2", Level::Expr, "1 wrong"),
        ("a )", Level::Assign, "a wrong"),
        ("a )", Level::Expr, "a ended 1 0"),
        ("x | => 1 ;", Level::Expr, "x wrong"),
    ] {
        let found = told(rt.alloc(), text, level).expect(&rt, "memory");
        assert_eq!(rt; found.as_str(), line, "{text}");
    }
    Ok(())
}
