// The lexer, which is fed a script piece by piece.
ghost use Rattle.std.specs.Prelude.{◌≡◌, ℕ, ◌+◌, ◌<◌, ◌≤◌, false, List, [], ◌++◌, OnOk, length};
ghost use Rattle.std.specs.Str.{IsUtf8, StartsWithNoChar};
ghost use Rattle.mb_text.specs.Texts.{AreDistinct, KeepsIds};
ghost use Rattle.mb_lexer.specs.Shown.{IsLexed};
ghost use Rattle.mb_lexer.specs.Feeding.{Fed};
ghost use Rattle.mb_lexer.specs.machine.Outcomes.{is_broken};

use crate::LexFault;
use crate::unfinished::Unfinished;
use mb_base::NoMemory;
use mb_text::Texts;
use mb_token::Spanned;
use std::alloc::Global;
use std::marker::Model;

/// Reads a script that comes in pieces. Beside the tokens it holds no more than the one that isn't finished, and up to
/// three bytes of a character that was cut.
#[derive(Drop)]
pub struct Lexer {
    alloc: Global,
    tokens: Vec<Spanned>,
    current: Unfinished,
    fault: Option<LexFault>,
    pending: Vec<u8>,
    fed: u32,
}

impl Model for Lexer {
    ghost use Rattle.mb_lexer.specs.Feeding.{Lexing};
    ghost use Rattle.mb_lexer.specs.machine.Outcomes.{IsSound};

    ghost Value = { Lexing };

    ghost view = { λ l. record {
      tokens = l.tokens.items;
      current = l.current;
      fault = l.fault;
      pending = l.pending.items;
      fed = l.fed;
    } };

    ghost invariant = { λ l. IsSound l.fault l.current l.pending.items l.fed };
}

impl Lexer {
    /// A lexer that was fed nothing. It takes no memory.
    pub fn begin(alloc: Global) -> Lexer
        ensures nothing { result.fed ≡ 0 }
        ensures fed { (texts : List (List ℕ)) → Fed result texts [] }
    {
        Lexer {
            alloc,
            tokens: Vec::new(alloc),
            current: Unfinished::new(alloc),
            fault: None,
            pending: Vec::new(alloc),
            fed: 0,
        }
    }

    /// How many bytes it was fed.
    pub fn fed(&self) -> u32
        ensures { result ≡ self.now.fed }
    {
        self.fed
    }

    /// Reads the next bytes. A script may be cut anywhere, within a character too. A fault is told by `finish`, since
    /// bytes that aren't UTF-8 may still come and go before it. After `NoMemory` the lexer isn't to be used again.
    pub fn feed(&mut self, piece: &[u8], texts: &mut Texts) -> Result<(), NoMemory>
        requires { self.old.fed + length piece.now ≤ 1048576 }
        ensures fed { OnOk result ((bytes : List ℕ)
            → Fed self.old texts.old bytes → Fed self.new texts.new (bytes ++ piece.now)) }
        ensures count { OnOk result (self.new.fed ≡ self.old.fed + length piece.now) }
        ensures texts { KeepsIds texts.old texts.new }
        ensures distinct { AreDistinct texts.old → AreDistinct texts.new }
    {
        if self.pending.is_empty() {
            return self.read(piece, texts);
        }
        let mut bytes = Vec::from_slice(self.alloc, &self.pending)?;
        bytes.extend_from_slice(piece)?;
        self.fed -= self.pending.len() as u32;
        self.pending.clear();
        self.read(&bytes, texts)
    }

    /// What `lex` answers for all the bytes, however they were cut.
    pub fn finish(self, texts: &mut Texts) -> Result<Vec<Spanned>, LexFault>
        ensures answer { (bytes : List ℕ) → Fed self texts.old bytes → IsLexed texts.new bytes result }
        ensures texts { KeepsIds texts.old texts.new }
        ensures distinct { AreDistinct texts.old → AreDistinct texts.new }
    {
        let Lexer {
            mut tokens,
            mut current,
            fault,
            pending,
            fed,
            ..
        } = self;
        if !pending.is_empty() {
            return Err(LexFault::Utf8 {
                at: fed - pending.len() as u32,
            });
        }
        if let Some(fault) = fault {
            return Err(fault);
        }
        current.finish(&mut tokens, texts)?;
        Ok(tokens)
    }

    // Reads bytes that come after whole characters.
    fn read(&mut self, bytes: &[u8], texts: &mut Texts) -> Result<(), NoMemory>
        requires whole { self.old.pending ≡ [] }
        requires room { self.old.fed + length bytes.now ≤ 1048576 }
        ensures fed { OnOk result ((before : List ℕ)
            → Fed self.old texts.old before → Fed self.new texts.new (before ++ bytes.now)) }
        ensures count { OnOk result (self.new.fed ≡ self.old.fed + length bytes.now) }
        ensures texts { KeepsIds texts.old texts.new }
        ensures distinct { AreDistinct texts.old → AreDistinct texts.new }
    {
        if self.is_broken() {
            self.fed += bytes.len() as u32;
            return Ok(());
        }
        let (text, rest) = longest_text(bytes);
        if rest.len() > 3 {
            self.fault = Some(LexFault::Utf8 {
                at: self.fed + text.len() as u32,
            });
            self.fed += bytes.len() as u32;
            return Ok(());
        }
        self.read_text(text, texts)?;
        self.hold(rest)
    }

    // Whether bytes came that are no UTF-8, whatever follows.
    fn is_broken(&self) -> bool
        ensures { result ≡ is_broken self.now.fault }
    {
        matches!(self.fault, Some(LexFault::Utf8 { .. }))
    }

    // Reads characters, unless a fault came before them.
    fn read_text(&mut self, text: &str, texts: &mut Texts) -> Result<(), NoMemory>
        requires whole { self.old.pending ≡ [] }
        requires room { self.old.fed + length text.now ≤ 1048576 }
        requires utf8 { IsUtf8 text.now }
        requires unbroken { is_broken self.old.fault ≡ false }
        ensures fed { OnOk result ((before : List ℕ)
            → Fed self.old texts.old before → Fed self.new texts.new (before ++ text.now)) }
        ensures count { OnOk result (self.new.fed ≡ self.old.fed + length text.now) }
        ensures whole { OnOk result (self.new.pending ≡ []) }
        ensures unbroken { OnOk result (is_broken self.new.fault ≡ false) }
        ensures texts { KeepsIds texts.old texts.new }
        ensures distinct { AreDistinct texts.old → AreDistinct texts.new }
    {
        if self.fault.is_none() {
            if let Err(fault) = self.current.read(text, &mut self.tokens, texts) {
                self.fault = Some(fault);
                if let LexFault::NoMemory = fault {
                    return Err(NoMemory);
                }
            }
        }
        self.fed += text.len() as u32;
        Ok(())
    }

    // Keeps the first bytes of a character.
    fn hold(&mut self, rest: &[u8]) -> Result<(), NoMemory>
        requires whole { self.old.pending ≡ [] }
        requires room { self.old.fed + length rest.now ≤ 1048576 }
        requires short { length rest.now < 4 }
        ensures held { OnOk result (self.new
            ≡ record self.old { pending = rest.now; fed = self.old.fed + length rest.now }) }
    {
        self.pending.extend_from_slice(rest)?;
        self.fed += rest.len() as u32;
        Ok(())
    }
}

// The longest front that is UTF-8, and the bytes after it.
fn longest_text(bytes: &[u8]) -> (&str, &[u8])
    ensures whole { bytes.now ≡ result.0.now ++ result.1.now }
    ensures utf8 { IsUtf8 result.0.now }
    ensures none { StartsWithNoChar result.1.now }
{
    match bytes.utf8_chunks().next() {
        Some(chunk) => {
            let text = chunk.valid();
            (text, &bytes[text.len()..])
        }
        None => ("", bytes),
    }
}
