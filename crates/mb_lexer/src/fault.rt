// Why a script has no tokens.
use std::alloc::AllocFailed;

/// Why a script has no tokens. Places are offsets of bytes.
#[derive(Clone, Copy, Debug, PartialEq, Eq)]
pub enum LexFault {
    /// The bytes aren't UTF-8. The longest front that is ends here.
    Utf8 { at: u32 },
    /// No token stands here: a character that begins none, a text that isn't well formed or has no end, or a comment
    /// without an end.
    Token { at: u32 },
    /// No number stands here, though a digit does: one with a leading zero, above 2^53 - 1, or that goes on with `.`
    /// or as a name.
    Number { at: u32 },
    NoMemory,
}

impl<T: Drop> From<AllocFailed<T>> for LexFault {
    ghost use Rattle.std.specs.Prelude.{◌≡◌};
    ghost use Rattle.mb_lexer.specs.declared.fault.LexFault.{LexFault};

    ghost from_gives = { λ _ fault. fault ≡ LexFault.NoMemory };

    fn from(_: AllocFailed<T>) -> LexFault {
        LexFault::NoMemory
    }
}
