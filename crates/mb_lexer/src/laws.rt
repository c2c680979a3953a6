// The laws of the definition.
ghost use Rattle.std.specs.Prelude.{◌≡◌, ℕ, ◌≤◌, ◌++◌, List, Some, ◌⊎◌, length};
ghost use Rattle.mb_token.specs.declared.mark.Mark.{Mark};
ghost use Rattle.mb_token.specs.Marks.{mark_text, mark_at};
ghost use Rattle.mb_text.specs.Texts.{KeepsIds};
ghost use Rattle.mb_lexer.specs.declared.fault.LexFault.{LexFault};
ghost use Rattle.mb_lexer.specs.Tokens.{Content, IsToken};
ghost use Rattle.mb_lexer.specs.Reading.{Lexeme, HasTokens};
ghost use Rattle.mb_lexer.specs.Reading.{HasFault};
ghost use Rattle.mb_lexer.specs.Stretches.{Tiles};
ghost use Rattle.mb_lexer.specs.Feeding.{Lexing, Fed};

/// The bytes have at most one list of tokens.
pub fn tokens_are_one()
    ensures { (bytes : List ℕ) (ts us : List Lexeme) → HasTokens bytes ts → HasTokens bytes us → ts ≡ us }
{}

/// The bytes have at most one first fault.
pub fn the_first_fault_is_one()
    ensures { (bytes : List ℕ) (e f : LexFault) → HasFault bytes e → HasFault bytes f → e ≡ f }
{}

/// All bytes have tokens or a first fault.
pub fn bytes_have_tokens_or_a_fault()
    ensures { (bytes : List ℕ)
        → ((ts : List Lexeme) × HasTokens bytes ts) ⊎ ((fault : LexFault) × HasFault bytes fault) }
{}

/// They never have both.
pub fn never_tokens_and_a_fault()
    ensures { (bytes : List ℕ) (ts : List Lexeme) (fault : LexFault)
        → HasTokens bytes ts → HasFault bytes fault → ⊥ }
{}

/// One token at most stands at a place, and it has one end.
pub fn a_place_has_one_token()
    ensures { (s t : Content) (cs ds xs ys : List ℕ)
        → cs ++ xs ≡ ds ++ ys → IsToken s cs xs → IsToken t ds ys → (s ≡ t) × (cs ≡ ds) }
{}

/// A mark is the longest that stands at its place.
pub fn marks_are_the_longest()
    ensures { (k m : Mark) (cs rest : List ℕ)
        → mark_at cs ≡ Some k → cs ≡ mark_text m ++ rest → length (mark_text m) ≤ length (mark_text k) }
{}

/// Each byte of a text with tokens is of one token or of one part, and of no other.
pub fn each_byte_belongs_to_one_token_or_part()
    ensures { (bytes : List ℕ) (ts : List Lexeme) → HasTokens bytes ts → Tiles bytes ts }
{}

/// A lexer goes on to stand for its bytes where texts are only added.
pub fn fed_stays_where_texts_grow()
    ensures { (lexer : Lexing) (old new : List (List ℕ)) (bytes : List ℕ)
        → KeepsIds old new → Fed lexer old bytes → Fed lexer new bytes }
{}
