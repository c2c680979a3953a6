// Scripts of the first form.
ghost use Rattle.std.specs.Prelude.{◌≡◌, ◌≤◌, ◌++◌, List, length, ℕ, IfOk, IfSome, IsNone, None, Some, Err};
ghost use Rattle.mb_text.specs.Texts.{KeepsIds};
ghost use Rattle.mb_cli.specs.first_form.Form.{Literal as Meant, HasLiterals};
ghost use Rattle.mb_cli.specs.first_form.machine.Literals.{AreLiterals, statement_of, statements_of, tokens_of};

use super::reading::{LexFault, lex};
use super::token::{Spanned, Token};
use crate::status::ScriptKind;
use crate::tree::TreeFault;
use mb_base::StrId;
use mb_text::Texts;
use std::alloc::{AllocError, Global};

// What a statement prints. The id is of the texts that the script was read into.
#[derive(Clone, Copy, Debug, PartialEq, Eq)]
pub enum Literal {
    Whole(i64),
    Text(StrId),
}

// Why a script isn't of the first form.
#[derive(Clone, Copy, Debug, PartialEq, Eq)]
pub enum FormFault {
    Shape,
    NoMemory,
}

impl From<AllocError> for FormFault {
    ghost use Rattle.std.specs.Prelude.{◌≡◌};
    ghost use Rattle.mb_cli.specs.declared.first_form.script.FormFault.TheVariants.{NoMemory};

    ghost from_gives = { λ _ fault. fault ≡ NoMemory };

    fn from(_: AllocError) -> FormFault {
        FormFault::NoMemory
    }
}

impl From<FormFault> for TreeFault {
    ghost use Rattle.std.specs.Prelude.{◌≡◌};
    ghost use Rattle.mb_cli.specs.first_form.machine.FormFaults.{of_form};

    ghost from_gives = { λ before fault. fault ≡ of_form before };

    fn from(fault: FormFault) -> TreeFault {
        match fault {
            FormFault::Shape => TreeFault::Bad(ScriptKind::Shape),
            FormFault::NoMemory => TreeFault::NoMemory,
        }
    }
}

// The statement at the front of the tokens, by its literal, and the tokens behind it.
fn first_statement(tokens: &[Spanned]) -> Option<(Literal, &[Spanned])>
    ensures found { IfSome result (λ r. tokens_of tokens.now ≡ statement_of r.0 ++ tokens_of r.1.now) }
    ensures none { IsNone result → (literal : Literal) (more : List Token)
        → tokens_of tokens.now ≡ statement_of literal ++ more → ⊥ }
{
    match tokens {
        [print, open, inside, close, end, rest @ ..]
            if print.token == Token::Print
                && open.token == Token::OpenParen
                && close.token == Token::CloseParen
                && end.token == Token::Semicolon => {
            match inside.token {
                Token::Whole(value) => Some((Literal::Whole(value), rest)),
                Token::Text(id) => Some((Literal::Text(id), rest)),
                _ => None,
            }
        }
        _ => None,
    }
}

// The literals of the statements that the tokens are.
fn statements(alloc: Global, tokens: &[Spanned]) -> Result<Option<Vec<Literal>>, AllocError>
    ensures found { IfOk result (λ found. IfSome found
        (λ literals. tokens_of tokens.now ≡ statements_of literals.items)) }
    ensures none { IfOk result (λ found. IsNone found → (literals : List Literal)
        → tokens_of tokens.now ≡ statements_of literals → ⊥) }
{
    let mut literals = Vec::new(alloc);
    let mut rest = tokens;
    while !rest.is_empty() {
        match first_statement(rest) {
            Some((literal, after)) => {
                literals.push(literal)?;
                rest = after;
            }
            None => return Ok(None),
        }
    }
    Ok(Some(literals))
}

// The literals that a script prints, in order.
pub fn read_script(
    alloc: Global,
    bytes: &[u8],
    texts: &mut Texts,
) -> Result<Vec<Literal>, FormFault>
    requires { length bytes.now ≤ 65536 }
    ensures script { IfOk result (λ literals. (meant : List Meant)
        × HasLiterals bytes.now meant × AreLiterals texts.new literals.items meant) }
    ensures shape { result ≡ Err FormFault.Shape → (meant : List Meant) → HasLiterals bytes.now meant → ⊥ }
    ensures ids { KeepsIds texts.old texts.new }
{
    let tokens = match lex(alloc, bytes, texts) {
        Ok(tokens) => tokens,
        Err(LexFault::Other) => return Err(FormFault::Shape),
        Err(LexFault::NoMemory) => return Err(FormFault::NoMemory),
    };
    match statements(alloc, &tokens)? {
        Some(literals) => Ok(literals),
        None => Err(FormFault::Shape),
    }
}
