// A script of a library, lexed while it is read.
ghost use Rattle.std.specs.Prelude.{◌≡◌, ◌≢◌, ◌≤◌, Err, Some, IsSome, IsTrue, IfOk, IfSome, option_map};
ghost use Rattle.mb_outer.specs.Causes.{IsRaised};
ghost use Rattle.mb_outer.specs.Shelf.{Shelf, held};
ghost use Rattle.mb_text.specs.Texts.{AreDistinct, KeepsIds};
ghost use Rattle.mb_cli.specs.Tasks.{behind};
ghost use Rattle.mb_cli.specs.machine.Scanned.{IsFed, IsScanned};

use crate::refusal::ReadError;
use mb_lexer::{LONGEST_SCRIPT, Lexer};
use mb_outer::{Got, Library, Start};
use mb_text::Texts;
use std::alloc::Global;

// Reads the script of that name in pieces to its end, or to one byte more than it may have: then there is none.
pub fn scan<L: Library>(
    alloc: Global,
    library: &mut L,
    name: &str,
    texts: &mut Texts,
) -> Result<Option<Lexer>, ReadError>
    ensures shelf { L.shelf library.new ≡ L.shelf library.old }
    ensures sound { IsTrue (L.sound library.old) → IsTrue (L.sound library.new) }
    ensures script { (s : Shelf) → L.shelf library.old ≡ Some s → IfOk result (IsScanned texts.new (held name.now s)) }
    ensures fed { IfOk result (λ script. IfSome script (IsFed texts.new)) }
    ensures ids { KeepsIds texts.old texts.new }
    ensures distinct { AreDistinct texts.old → AreDistinct texts.new }
    ensures read { (s : Shelf) → L.shelf library.old ≡ Some s
        → IfOk result (λ _. L.rest library.new ≡ option_map (behind 1_048_577) (held name.now s)) }
    ensures later { L.faults library.old ≤ L.faults library.new }
    ensures failed { result ≡ Err ReadError.Fault → IsRaised (L.faults library.old) (L.faults library.new) }
    ensures counted { result ≢ Err ReadError.Fault → L.faults library.new ≡ L.faults library.old }
    ensures never { (s : Shelf) → IsTrue (L.sound library.old) → L.shelf library.old ≡ Some s
        → IsSome (held name.now s) → result ≢ Err ReadError.Fault }
{
    match library.start(name) {
        Start::Started => {}
        Start::Failed => return Err(ReadError::Fault),
    }
    let mut lexer = Lexer::begin(alloc);
    let mut piece = [0u8; 4096];
    loop {
        let room = LONGEST_SCRIPT - lexer.fed() as usize;
        let most = piece.len().min(room + 1);
        let buffer = &mut piece[..most];
        match library.read(buffer) {
            Got::Failed => return Err(ReadError::Fault),
            Got::Bytes(0) => return Ok(Some(lexer)),
            Got::Bytes(count) if count > room => return Ok(None),
            Got::Bytes(count) => lexer.feed(&buffer[..count], texts)?,
        }
    }
}
