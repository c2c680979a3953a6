// The parser of the statements of one level.
ghost use Rattle.std.specs.Prelude.{◌≡◌, ℕ, ◌+◌, ◌≤◌, ◌<◌, ◌^◌, List, [], ◌∷◌, ◌++◌, length, vec_len, IfOk, OnOk, Option};
ghost use Rattle.mb_tree.specs.Roses.{Shape, shapes, shape, id_of};
ghost use Rattle.mb_grammar.specs.Tokens as roles;
ghost use Rattle.mb_parse_expr.specs.Pauses.{IsTree};
ghost use Rattle.mb_parse_stmt.specs.machine.Terminals as terminals;
ghost use Rattle.mb_tree.specs.machine.Stack.{top, laid};
ghost use Rattle.mb_parse_stmt.specs.machine.Machine as spec;
ghost use Rattle.mb_parse_stmt.specs.machine.Stops.{IsUnderWay, IsWanting, TellsStep, StepMoves, taken};

use crate::machine::{Frame, Holder, Mode, Move, Stop, View, next_move};
use crate::terminal::{Terminal, classify};
use mb_base::{NoMemory, NodeId};
use mb_parse_expr::Level;
use mb_token::Spanned;
use mb_tree::{MOST_NODES, Tree};
use std::alloc::Global;

/// Why a parser stopped.
#[derive(Clone, Copy)]
pub enum Step {
    /// An expression of this level is wanted.
    Asks(Level),
    /// The statements are over.
    Ended,
    /// No statements stand there up to their end.
    Wrong,
}

/// A parser of the script's statements, or of those of a function's body within an expression.
#[derive(Drop)]
pub struct StatementParser {
    pub frames: Vec<Frame>,
    pub operands: Vec<NodeId>,
    pub mode: Mode,
    pub at: usize,
    pub stop: Stop,
}

fn top_of(frames: &[Frame]) -> Option<Frame>
    ensures { (fs : List Frame) → frames.now ≡ laid fs → result ≡ top fs }
{
    frames.last().copied()
}

fn terminal_at(tokens: &[Spanned], at: usize) -> Terminal
    ensures { result ≡ terminals.terminal_at tokens.now at }
{
    match tokens.get(at) {
        Some(spanned) => classify(Some(spanned.token)),
        None => classify(None),
    }
}

fn is_after_line(tokens: &[Spanned], at: usize) -> bool
    ensures { result ≡ roles.after_line_at tokens.now at }
{
    match tokens.get(at) {
        Some(spanned) => spanned.after_line,
        None => false,
    }
}

// Whether statements that aren't within others end at this token.
fn stops(stop: Stop, here: Terminal) -> bool
    ensures { result ≡ spec.stops_of stop here }
{
    match stop {
        Stop::End => match here {
            Terminal::End => true,
            _ => false,
        },
        Stop::Brace => match here {
            Terminal::CloseBrace => true,
            _ => false,
        },
    }
}

fn view(stop: Stop, tokens: &[Spanned], at: usize) -> View
    requires { at ≤ length tokens.now }
    ensures { result ≡ spec.view_at stop tokens.now at }
{
    let here = terminal_at(tokens, at);
    View {
        here,
        next: terminal_at(tokens, at + 1),
        third: terminal_at(tokens, at + 1 + 1),
        after_line: is_after_line(tokens, at + 1),
        stops: stops(stop, here),
    }
}

impl StatementParser {
    /// A parser of the statements that stand at `at`.
    pub fn begin(alloc: Global, at: u32, stop: Stop) -> Result<StatementParser, NoMemory>
        ensures place { IfOk result (λ parser. (parser.at ≡ at) × (taken parser.mode ≡ 0)) }
        ensures kept { IfOk result (λ parser. parser.stop ≡ stop) }
        ensures reading { (ts : List Spanned) (base : List Shape) → at ≤ length ts
            → IfOk result (λ parser. IsUnderWay ts at base parser base) }
    {
        let mut frames = Vec::new(alloc);
        frames.push(Frame::Statements(Holder::Top, 0))?;
        Ok(StatementParser {
            frames,
            operands: Vec::new(alloc),
            mode: Mode::Statement,
            at: at as usize,
            stop,
        })
    }

    /// Reads on, up to an expression or the end. Once it has answered `Wrong` or `NoMemory` it is of no more use.
    pub fn advance(
        &mut self,
        alloc: Global,
        tokens: &[Spanned],
        tree: &mut Tree,
    ) -> Result<Step, NoMemory>
        requires few { length tokens.now ≤ 1_048_576 }
        requires reading { (start : ℕ) × (base : List Shape)
            × IsUnderWay tokens.now start base self.old (shapes tree.old) }
        ensures answers { (start : ℕ) (base : List Shape)
            → IsUnderWay tokens.now start base self.old (shapes tree.old)
            → IfOk result (TellsStep tokens.now start base self.new (shapes tree.new)) }
        ensures kept { self.new.stop ≡ self.old.stop }
        ensures forward { IfOk result (StepMoves self.old self.new) }
    {
        if tree.nodes.len() > MOST_NODES {
            return Err(NoMemory);
        }
        'steps: loop {
            let view = view(self.stop, tokens, self.at);
            match next_move(top_of(&self.frames), self.mode, view) {
                Move::Leaf(label, mode, count) => {
                    tree.build(alloc, label, &mut self.operands, 0)?;
                    self.mode = mode;
                    self.at += count as usize;
                }
                Move::Enter(frame, mode, count) => {
                    self.frames.push(frame)?;
                    self.mode = mode;
                    self.at += count as usize;
                }
                Move::Swap(frame, mode, count) => {
                    let _ = self.frames.pop();
                    self.frames.push(frame)?;
                    self.mode = mode;
                    self.at += count as usize;
                }
                Move::Build(label, parts, mode, count) => {
                    let _ = self.frames.pop();
                    tree.build(alloc, label, &mut self.operands, parts)?;
                    self.mode = mode;
                    self.at += count as usize;
                }
                Move::Ask(level) => return Ok(Step::Asks(level)),
                Move::Ended => return Ok(Step::Ended),
                Move::Wrong => return Ok(Step::Wrong),
            }
        }
    }

    /// Goes on behind the expression that was wanted.
    pub fn read(&mut self, next: u32, root: NodeId) -> Result<(), NoMemory>
        ensures place { OnOk result ((self.new.at ≡ next) × (taken self.new.mode ≡ 1)) }
        ensures kept { self.new.stop ≡ self.old.stop }
        ensures reading { (ts : List Spanned) (start : ℕ) (base out now : List Shape) (level : Level) (ds : List ℕ) →
            IsWanting ts start base level self.old out → IsTree ts level self.old.at ds out now next root
            → OnOk result (IsUnderWay ts start base self.new now) }
    {
        self.operands.push(root)?;
        self.mode = Mode::Behind;
        self.at = next as usize;
        Ok(())
    }
}
