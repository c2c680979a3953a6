// The parser.
ghost use Rattle.std.specs.Prelude.{◌≡◌, ℕ, ◌+◌, ◌-◌, ◌*◌, ◌≤◌, ◌<◌, ◌^◌, List, [], ◌∷◌, ◌++◌, length, drop, slice_get, vec_len, IfOk, OnOk, Option};
ghost use Rattle.mb_tree.specs.Roses.{Roses, Shape, Extends, shapes, shape, id_of, write_all, roots};
ghost use Rattle.mb_grammar.specs.Tokens as roles;
ghost use Rattle.mb_grammar.specs.Tokens.{Tokens, Place};
ghost use Rattle.mb_grammar.specs.Grammar.{Bodies};
ghost use Rattle.mb_tree.specs.machine.Stack.{top, laid};
ghost use Rattle.mb_parse_expr.specs.machine.Machine as spec;
ghost use Rattle.mb_parse_expr.specs.Pauses.{next_place, IsReading, IsWaiting, Tells, NeedsItsBody, Moves};
ghost use Rattle.mb_grammar.specs.Bodies.{AreTheStatements};

use crate::machine::{Frame, Mode, Move, next_move};
use crate::role::{Follow, classify, followed_by};
use mb_base::{NoMemory, NodeId};
use mb_grammar::{Level, Role};
use mb_token::{Spanned, Token};
use mb_tree::{MOST_NODES, Tree};
use std::alloc::Global;

/// Why a parser stopped.
#[derive(Clone, Copy, Debug, PartialEq, Eq)]
pub enum Paused {
    /// An expression stands up to `next`, and its node is `root`.
    Ended { next: u32, root: NodeId },
    /// The statements of a function's body begin at `at`.
    Body { at: u32 },
    /// No expression stands there.
    Wrong,
}

/// A parser of one expression.
#[derive(Drop)]
pub struct ExprParser {
    frames: Vec<Frame>,
    operands: Vec<NodeId>,
    statements: Vec<NodeId>,
    mode: Mode,
    at: usize,
}

fn top_of(frames: &[Frame]) -> Option<Frame>
    ensures { (fs : List Frame) → frames.now ≡ laid fs → result ≡ top fs }
{
    frames.last().copied()
}

fn token_at(tokens: &[Spanned], at: usize) -> Option<Token>
    ensures { result ≡ roles.token_at tokens.now at }
{
    match tokens.get(at) {
        Some(spanned) => Some(spanned.token),
        None => None,
    }
}

fn is_after_line(tokens: &[Spanned], at: usize) -> bool
    ensures { result ≡ roles.after_line_at tokens.now at }
{
    match tokens.get(at) {
        Some(spanned) => spanned.after_line,
        None => false,
    }
}

fn is_arrow(tokens: &[Spanned], at: usize) -> bool
    ensures { result ≡ spec.arrow_at tokens.now at }
{
    match classify(token_at(tokens, at)) {
        Role::Arrow => !is_after_line(tokens, at),
        _ => false,
    }
}

// Whether names and commas follow, then `)`, and then `=>` on its line.
fn heads(tokens: &[Spanned], from: usize) -> bool
    ensures { result ≡ spec.heads (drop from tokens.now) }
{
    let mut at = from;
    while at < tokens.len() {
        match classify(Some(tokens[at].token)) {
            Role::Name(_) | Role::Comma => at += 1,
            Role::Close => return is_arrow(tokens, at + 1),
            _ => return false,
        }
    }
    false
}

// Whether an operand that begins here is an arrow function.
fn is_ahead(tokens: &[Spanned], at: usize, role: Role) -> bool
    requires within { at ≤ length tokens.now }
    requires known { role ≡ roles.role_at tokens.now at }
    ensures { result ≡ spec.ahead_at tokens.now at }
{
    match role {
        Role::Name(_) => is_arrow(tokens, at + 1),
        Role::Open => heads(tokens, at + 1),
        _ => false,
    }
}

fn follow_at(tokens: &[Spanned], at: usize) -> Follow
    requires { at ≤ length tokens.now }
    ensures { result ≡ spec.follow_at tokens.now at }
{
    followed_by(classify(token_at(tokens, at + 1)))
}

impl ExprParser {
    /// A parser of the expression that stands at `at`: of an Expr, or of an Assign, as `level` says.
    pub fn begin(alloc: Global, at: u32, level: Level) -> Result<ExprParser, NoMemory>
        ensures place { IfOk result (λ parser. next_place parser ≡ at) }
        ensures reading { (ts : Tokens) (base : List Shape) → IfOk result (λ parser.
            IsReading ts level at base [] parser base) }
    {
        let mut frames = Vec::new(alloc);
        frames.push(Frame::Start(level))?;
        Ok(ExprParser {
            frames,
            operands: Vec::new(alloc),
            statements: Vec::new(alloc),
            mode: Mode::Operand,
            at: at as usize,
        })
    }

    /// Reads on, up to the statements of a function's body in braces, or to the end. A parser is always given the same
    /// tokens, and the tree in which it has built, where others may have built behind. It is of no more use once it has
    /// answered `Wrong` or `NoMemory`; what it built until then stays in the tree. `NoMemory` comes too where a tree
    /// would have more than 2^31 nodes.
    pub fn run(
        &mut self,
        alloc: Global,
        tokens: &[Spanned],
        tree: &mut Tree,
    ) -> Result<Paused, NoMemory>
        requires within { next_place self.old ≤ length tokens.now }
        requires few { length tokens.now ≤ 1_048_576 }
        requires reading { (level : Level) × (start : Place) × (base : List Shape) × (ds : Bodies)
            × IsReading tokens.now level start base ds self.old (shapes tree.old) }

        // The one expression that stands where the parser began; none; or a body that is named for the first time.
        ensures answers { (level : Level) (start : Place) (base : List Shape) (ds : Bodies)
            → IsReading tokens.now level start base ds self.old (shapes tree.old)
            → IfOk result (Tells tokens.now level start base ds self.new (shapes tree.new)) }

        // Where no statements stand up to a closing brace at a body's place, no expression stands.
        ensures hopeless { (level : Level) (start : Place) (base : List Shape) (ds : Bodies)
            → IsReading tokens.now level start base ds self.old (shapes tree.old)
            → IfOk result (NeedsItsBody tokens.now level start) }
        ensures forward { IfOk result (Moves (next_place self.old) (next_place self.new)) }

        // Whatever the answer, also `Wrong` and for want of memory.
        ensures first { Extends (shapes tree.old) (shapes tree.new) }
    {
        if tree.nodes.len() > MOST_NODES {
            return Err(NoMemory);
        }
        self.operands.extend_from_slice(&self.statements)?;
        self.statements.clear();
        'steps: loop {
            let token = token_at(tokens, self.at);
            let role = classify(token);
            let after_line = is_after_line(tokens, self.at);
            let ahead = is_ahead(tokens, self.at, role);
            let follow = follow_at(tokens, self.at);
            match next_move(
                top_of(&self.frames),
                self.mode,
                token,
                role,
                after_line,
                ahead,
                follow,
            ) {
                Move::Leaf(label, mode) => {
                    tree.build(alloc, label, &mut self.operands, 0)?;
                    self.mode = mode;
                    self.at += 1;
                }
                Move::Begin(label, frame, mode) => {
                    self.frames.push(frame)?;
                    tree.build(alloc, label, &mut self.operands, 0)?;
                    self.mode = mode;
                    self.at += 1;
                }
                Move::Enter(frame, mode) => {
                    self.frames.push(frame)?;
                    self.mode = mode;
                    self.at += 1;
                }
                Move::Swap(frame, mode) => {
                    let _ = self.frames.pop();
                    self.frames.push(frame)?;
                    self.mode = mode;
                    self.at += 1;
                }
                Move::Turn(mode) => {
                    self.mode = mode;
                    self.at += 1;
                }
                Move::Suffix(label, mode) => {
                    tree.build(alloc, label, &mut self.operands, 1)?;
                    self.mode = mode;
                    self.at += 1;
                }
                Move::Build(label, count, mode, taken) => {
                    let _ = self.frames.pop();
                    tree.build(alloc, label, &mut self.operands, count)?;
                    self.mode = mode;
                    if taken {
                        self.at += 1;
                    }
                }
                Move::Pause => {
                    self.at += 1;
                    return Ok(Paused::Body { at: self.at as u32 });
                }
                Move::Ended => {
                    return Ok(Paused::Ended {
                        next: self.at as u32,
                        root: self.operands[0],
                    });
                }
                Move::Wrong => return Ok(Paused::Wrong),
            }
        }
    }

    /// Goes on behind the body's statements, whose closing brace stands at `next`. It is called exactly after `Body`.
    pub fn resume(&mut self, next: u32, statements: Vec<NodeId>)
        ensures place { next_place self.new ≡ next + 1 }
        ensures reading { (ts : Tokens) (level : Level) (start : Place) (base out : List Shape) (ds : Bodies)
            (body : Roses)
            → IsWaiting ts level start base ds self.old out
            → AreTheStatements ts body (next_place self.old) next
            → statements.items ≡ roots out body
            → IsReading ts level start base ds self.new (write_all out body) }
    {
        self.mode = Mode::Block(statements.len());
        self.statements = statements;
        self.at = next as usize + 1;
    }
}
