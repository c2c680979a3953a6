// The token that isn't finished, which is read one character at a time.
ghost use Rattle.std.specs.Prelude.{◌≡◌, ℕ, ◌+◌, ◌<◌, ◌≤◌, List, [], ◌∷◌, ◌++◌, ◌/◌, ◌%◌, Some, Result, Ok, Err, IfOk, IfErr, OnOk, length, slice_get, false};
ghost use Rattle.std.specs.Char.{len_utf8};
ghost use Rattle.std.specs.Str.{chars};
ghost use Rattle.std.specs.Char.Escape.{encode_utf16};
ghost use Rattle.mb_text.specs.Texts.{AreDistinct, KeepsIds};
ghost use Rattle.mb_lexer.specs.Reading.{fault as fault_at};
ghost use Rattle.mb_lexer.specs.Tokens.{named};
ghost use Rattle.mb_lexer.specs.machine.Machine.{Machine, idle, fault_kind, moved, ended, lasting, step as step_of};
ghost use Rattle.mb_lexer.specs.Shown.{Shows};
ghost use Rattle.mb_lexer.specs.machine.Outcomes.{Gains, IsStop, Matches, Closes, given, IsFit, AddsCode, Passes, StopsAt};

use crate::LexFault;
use crate::state::{Move, State, begin, is_line_end};
use mb_base::StrId;
use mb_text::{TextFault, Texts};
use mb_token::{Mark, Soft, Spanned, Token, Word};
use std::alloc::Global;
use std::marker::Model;

/// The token that isn't finished. Its state is no more than that token and its place.
#[derive(Drop)]
pub struct Unfinished {
    state: State,
    from: u32,
    to: u32,
    after_line: bool,
    units: Vec<u16>,
}

impl Model for Unfinished {
    ghost use Rattle.mb_lexer.specs.machine.Machine.{Machine};

    ghost Value = { Machine };

    ghost view = { λ l. record {
      state = l.state;
      from = l.from;
      to = l.to;
      line = l.after_line;
      units = l.units.items;
    } };
}

impl Unfinished {
    pub fn new(alloc: Global) -> Unfinished
        ensures { result ≡ idle 0 false }
    {
        Unfinished {
            state: State::Between,
            from: 0,
            to: 0,
            after_line: false,
            units: Vec::new(alloc),
        }
    }

    /// Reads a character. A token that ended before it is put at the end of `tokens`.
    pub fn step(
        &mut self,
        ch: char,
        tokens: &mut Vec<Spanned>,
        texts: &mut Texts,
    ) -> Result<(), LexFault>
        requires fit { IsFit self.old }
        requires place { self.old.to + len_utf8 ch ≤ 1048576 }
        ensures next { Matches result (step_of self.old ch).next self.new }
        ensures tokens { OnOk result
            (Gains texts.old tokens.old.items texts.new tokens.new.items (step_of self.old ch).tokens) }
        ensures texts { KeepsIds texts.old texts.new }
        ensures distinct { AreDistinct texts.old → AreDistinct texts.new }
    {
        let mut change = self.state.next(ch);
        if let Move::Ends = change {
            self.finish(tokens, texts)?;
            change = begin(ch);
        }
        self.go(ch, change, tokens)
    }

    /// Reads the characters of a text.
    pub fn read(
        &mut self,
        text: &str,
        tokens: &mut Vec<Spanned>,
        texts: &mut Texts,
    ) -> Result<(), LexFault>
        requires fit { IsFit self.old }
        requires place { self.old.to + length text.now ≤ 1048576 }
        ensures passes { OnOk result
            (Passes texts.old tokens.old.items self.old (chars text.now) texts.new tokens.new.items self.new) }
        ensures stops { IfErr result (λ fault. StopsAt fault self.old (chars text.now)) }
        ensures fit { OnOk result (IsFit self.new) }
        ensures place { OnOk result (self.new.to ≡ self.old.to + length text.now) }
        ensures texts { KeepsIds texts.old texts.new }
        ensures distinct { AreDistinct texts.old → AreDistinct texts.new }
    {
        for ch in text.chars() {
            self.step(ch, tokens, texts)?;
        }
        Ok(())
    }

    /// Ends the open token, and puts it at the end of `tokens`.
    pub fn finish(&mut self, tokens: &mut Vec<Spanned>, texts: &mut Texts) -> Result<(), LexFault>
        requires fit { IsFit self.old }
        requires place { self.old.to ≤ 1048576 }
        ensures closes { Closes result (ended self.old.state self.old) self.old self.new }
        ensures idle { OnOk result
            (self.new ≡ idle self.old.to (lasting (given (ended self.old.state self.old)) self.old.line)) }
        ensures tokens { OnOk result
            (Gains texts.old tokens.old.items texts.new tokens.new.items (given (ended self.old.state self.old))) }
        ensures texts { KeepsIds texts.old texts.new }
        ensures distinct { AreDistinct texts.old → AreDistinct texts.new }
    {
        self.emit(tokens, texts)?;
        self.state = State::Between;
        self.from = self.to;
        self.units.clear();
        Ok(())
    }

    // Puts the open token, which ends here, at the end of the tokens.
    fn emit(&mut self, tokens: &mut Vec<Spanned>, texts: &mut Texts) -> Result<(), LexFault>
        requires fit { IsFit self.old }
        requires place { self.old.to ≤ 1048576 }
        ensures closes { Closes result (ended self.old.state self.old) self.old self.new }
        ensures tokens { OnOk result
            (Gains texts.old tokens.old.items texts.new tokens.new.items (given (ended self.old.state self.old))) }
        ensures texts { KeepsIds texts.old texts.new }
        ensures distinct { AreDistinct texts.old → AreDistinct texts.new }
    {
        match self.state {
            State::Between | State::InLineComment => Ok(()),
            State::InName => {
                let token = self.name(texts)?;
                self.push(token, tokens)
            }
            State::InWhole(value) => self.push(Token::Whole(value as i64), tokens),
            State::AfterText => {
                let id = self.intern(texts)?;
                self.push(Token::Text(id), tokens)
            }
            State::InMark(mark) => self.push(Token::Mark(mark), tokens),
            State::DoubleEqual => self.push_two(Mark::Equal, tokens),
            State::NotEqual => self.push_two(Mark::Not, tokens),
            State::InText(..) | State::InBlockComment(_) | State::Ampersand | State::Bar => Err(
                self.fault(),
            ),
        }
    }

    // The token goes on with a character.
    fn go(&mut self, ch: char, change: Move, tokens: &mut Vec<Spanned>) -> Result<(), LexFault>
        requires code { AddsCode change }
        requires order { self.old.from ≤ self.old.to }
        requires place { self.old.to + len_utf8 ch ≤ 1048576 }
        ensures next { Matches result (moved self.old ch change).next self.new }
        ensures tokens { (texts : List (List ℕ)) → OnOk result
            (Gains texts tokens.old.items texts tokens.new.items (moved self.old ch change).tokens) }
    {
        match change {
            Move::Goes(state) => self.state = state,
            Move::Adds(state, code) => {
                add_code(&mut self.units, code)?;
                self.state = state;
            }
            Move::Splits(first) => {
                self.push_first(first, tokens)?;
                self.state = State::InMark(Mark::Arrow);
            }
            Move::Ends | Move::Fails => return Err(self.fault()),
        }
        self.to += ch.len_utf8() as u32;
        if is_line_end(ch) && self.state.is_parting() {
            self.after_line = true;
        }
        Ok(())
    }

    // The fault of the open token.
    fn fault(&self) -> LexFault
        ensures { IsStop result (fault_at (fault_kind self.now.state) self.now.from) }
    {
        match self.state {
            State::InWhole(_) => LexFault::Number { at: self.from },
            _ => LexFault::Token { at: self.from },
        }
    }

    // The id of the units.
    fn intern(&self, texts: &mut Texts) -> Result<StrId, LexFault>
        requires { length self.now.units ≤ 1048576 }
        ensures text { IfOk result (λ id. slice_get texts.new id.0 ≡ Some self.now.units) }
        ensures memory { IfErr result (λ fault. fault ≡ LexFault.NoMemory) }
        ensures texts { KeepsIds texts.old texts.new }
        ensures distinct { AreDistinct texts.new }
    {
        match texts.intern(&self.units) {
            Ok(id) => Ok(id),
            Err(TextFault::NoMemory) => Err(LexFault::NoMemory),
            Err(TextFault::Long) => unreachable!(),
        }
    }

    // What a name of the units is.
    fn name(&self, texts: &mut Texts) -> Result<Token, LexFault>
        requires { length self.now.units ≤ 1048576 }
        ensures token { IfOk result (λ token. Shows texts.new token (named self.now.units)) }
        ensures memory { IfErr result (λ fault. fault ≡ LexFault.NoMemory) }
        ensures texts { KeepsIds texts.old texts.new }
        ensures distinct { AreDistinct texts.old → AreDistinct texts.new }
    {
        let id = self.intern(texts)?;
        if let Some(word) = Word::of_units(&self.units) {
            return Ok(Token::Reserved(word, id));
        }
        Ok(match Soft::of_units(&self.units) {
            Some(soft) => Token::Soft(soft, id),
            None => Token::Name(id),
        })
    }

    // Puts a token that ends here at the end of the tokens.
    fn push(&mut self, token: Token, tokens: &mut Vec<Spanned>) -> Result<(), LexFault>
        ensures line { OnOk result (self.new ≡ record self.old { line = false }) }
        ensures tokens { OnOk result (tokens.new.items ≡ tokens.old.items
            ++ record { token = token; from = self.old.from; to = self.old.to; after_line = self.old.line } ∷ []) }
        ensures memory { IfErr result (λ fault. fault ≡ LexFault.NoMemory) }
    {
        tokens.push(Spanned {
            token,
            from: self.from,
            to: self.to,
            after_line: self.after_line,
        })?;
        self.after_line = false;
        Ok(())
    }

    // Puts a mark of one character at the end of the tokens. The open token goes on after it.
    fn push_first(&mut self, mark: Mark, tokens: &mut Vec<Spanned>) -> Result<(), LexFault>
        requires { self.old.from < 1048576 }
        ensures rest { OnOk result (self.new ≡ record self.old { from = self.old.from + 1; line = false }) }
        ensures tokens { OnOk result (tokens.new.items ≡ tokens.old.items
            ++ record {
              token = Token.Mark mark;
              from = self.old.from;
              to = self.old.from + 1;
              after_line = self.old.line;
            }
            ∷ []) }
        ensures memory { IfErr result (λ fault. fault ≡ LexFault.NoMemory) }
    {
        tokens.push(Spanned {
            token: Token::Mark(mark),
            from: self.from,
            to: self.from + 1,
            after_line: self.after_line,
        })?;
        self.from += 1;
        self.after_line = false;
        Ok(())
    }

    // Puts a mark and `=` at the end of the tokens.
    fn push_two(&mut self, first: Mark, tokens: &mut Vec<Spanned>) -> Result<(), LexFault>
        requires { self.old.from < 1048576 }
        ensures rest { OnOk result (self.new ≡ record self.old { from = self.old.from + 1; line = false }) }
        ensures tokens { OnOk result (tokens.new.items ≡ tokens.old.items
            ++ record {
              token = Token.Mark first;
              from = self.old.from;
              to = self.old.from + 1;
              after_line = self.old.line;
            }
            ∷ record {
              token = Token.Mark Mark.Equal;
              from = self.old.from + 1;
              to = self.old.to;
              after_line = false;
            } ∷ []) }
        ensures memory { IfErr result (λ fault. fault ≡ LexFault.NoMemory) }
    {
        self.push_first(first, tokens)?;
        self.push(Token::Mark(Mark::Equal), tokens)
    }
}

// Puts the units of a code at the end.
fn add_code(units: &mut Vec<u16>, code: u32) -> Result<(), LexFault>
    requires { code ≤ 0x10ffff }
    ensures units { OnOk result (units.new.items ≡ units.old.items ++ encode_utf16 code) }
    ensures memory { IfErr result (λ fault. fault ≡ LexFault.NoMemory) }
{
    if code < 0x1_0000 {
        units.push(code as u16)?;
    } else {
        let rest = code - 0x1_0000;
        units.push((0xd800 + rest / 0x400) as u16)?;
        units.push((0xdc00 + rest % 0x400) as u16)?;
    }
    Ok(())
}
