// A script of a library, which is kept, and lexed while it is read.
ghost use Rattle.std.specs.Prelude.{◌≡◌, ◌≢◌, ◌≤◌, ◌+◌, Err, Some, IsSome, IsTrue, IfOk, IfSome, option_map, vec_len};
ghost use Rattle.mb_outer.specs.Causes.{IsRaised};
ghost use Rattle.mb_outer.specs.Shelf.{Shelf, held};
ghost use Rattle.mb_cli.specs.Tasks.{behind};
ghost use Rattle.mb_cli.specs.first_form.machine.Whole.{IsWhole, IsLexed};

use crate::refusal::ReadError;
use mb_lexer::Lexer;
use mb_outer::{Got, Library, Start};
use mb_text::Texts;
use std::alloc::Global;

/// A script by its bytes, and a lexer that was fed them, with its texts.
#[derive(Drop)]
pub struct Script {
    pub bytes: Vec<u8>,
    pub lexer: Lexer,
    pub texts: Texts,
}

// Reads the script of that name to its end, or to one byte more than it may have: then there is none.
pub fn read_whole<L: Library>(
    alloc: Global,
    library: &mut L,
    name: &str,
    most: usize,
) -> Result<Option<Script>, ReadError>
    requires { most ≤ 1_048_576 }
    ensures shelf { L.shelf library.new ≡ L.shelf library.old }
    ensures sound { IsTrue (L.sound library.old) → IsTrue (L.sound library.new) }
    ensures whole { (s : Shelf) → L.shelf library.old ≡ Some s → IfOk result (IsWhole most (held name.now s)) }
    ensures within { IfOk result (λ script. IfSome script (λ s. vec_len s.bytes ≤ most)) }
    ensures lexed { IfOk result (λ script. IfSome script IsLexed) }
    ensures read { (s : Shelf) → L.shelf library.old ≡ Some s
        → IfOk result (λ _. L.rest library.new ≡ option_map (behind (most + 1)) (held name.now s)) }
    ensures later { L.faults library.old ≤ L.faults library.new }
    ensures failed { result ≡ Err ReadError.Fault → IsRaised (L.faults library.old) (L.faults library.new) }
    ensures counted { result ≢ Err ReadError.Fault → L.faults library.new ≡ L.faults library.old }
    ensures never { (s : Shelf) → IsTrue (L.sound library.old) → L.shelf library.old ≡ Some s
        → IsSome (held name.now s) → result ≢ Err ReadError.Fault }
{
    match library.start(name) {
        Start::Started => {}
        Start::Failed => return Err(ReadError::Fault),
    }
    let mut bytes = Vec::new(alloc);
    let mut lexer = Lexer::begin(alloc);
    let mut texts = Texts::new(alloc);
    let mut piece = [0u8; 4096];
    loop {
        let room = most - bytes.len();
        let size = piece.len().min(room + 1);
        let buffer = &mut piece[..size];
        match library.read(buffer) {
            Got::Failed => return Err(ReadError::Fault),
            Got::Bytes(0) => {
                return Ok(Some(Script {
                    bytes,
                    lexer,
                    texts,
                }));
            }
            Got::Bytes(count) if count > room => return Ok(None),
            Got::Bytes(count) => {
                bytes.extend_from_slice(&buffer[..count])?;
                lexer.feed(&buffer[..count], &mut texts)?;
            }
        }
    }
}
