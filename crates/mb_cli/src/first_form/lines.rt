// The lines that scripts print.
ghost use Rattle.std.specs.Prelude.{◌≡◌, ◌++◌, List, map, IfOk, OnOk, Some, slice_get};
ghost use Rattle.mb_text.specs.Texts.{KeepsIds};
ghost use Rattle.mb_cli.specs.first_form.Form.{Literal as Meant};
ghost use Rattle.mb_cli.specs.first_form.machine.Literals.{IsLiteral, AreLiterals};
ghost use Rattle.mb_cli.specs.machine.Lines.{contents_of};
ghost use Rattle.mb_cli.specs.first_form.Text.{letter_of, units_of, last_line, line_of as meant_line, lines_of as meant_lines};

use super::script::Literal;
use mb_base::{NoMemory, Side, StrId};
use mb_text::{Texts, spell};
use std::alloc::Global;

// The letter that stands before the lines of a side.
fn letter(side: Side) -> u8
    ensures { result ≡ letter_of side }
{
    match side.0 {
        0 => b'L',
        _ => b'R',
    }
}

// The text of a literal.
fn text_of(literal: Literal, texts: &mut Texts) -> Result<StrId, NoMemory>
    ensures text { (meant : Meant) → IsLiteral texts.old literal meant
        → IfOk result (λ id. slice_get texts.new id.0 ≡ Some (units_of meant)) }
    ensures ids { KeepsIds texts.old texts.new }
{
    match literal {
        Literal::Whole(value) => texts.of_whole(value),
        Literal::Text(id) => Ok(id),
    }
}

// The line that a statement of that side prints.
fn line_of(
    alloc: Global,
    side: Side,
    literal: Literal,
    texts: &mut Texts,
) -> Result<Vec<u8>, NoMemory>
    requires { (meant : Meant) × IsLiteral texts.old literal meant }
    ensures line { (meant : Meant) → IsLiteral texts.old literal meant
        → IfOk result (λ line. line.items ≡ meant_line side meant) }
    ensures ids { KeepsIds texts.old texts.new }
{
    let text = text_of(literal, texts)?;
    let mut line = vec![in alloc; letter(side), b' ']?;
    spell(texts.units(text), false, &mut line)?;
    line.push(b'\n')?;
    Ok(line)
}

// Adds the lines that a side's script prints.
fn add_lines(
    alloc: Global,
    side: Side,
    literals: &[Literal],
    texts: &mut Texts,
    lines: &mut Vec<Vec<u8>>,
) -> Result<(), NoMemory>
    requires { (meant : List Meant) × AreLiterals texts.old literals.now meant }
    ensures lines { (meant : List Meant) → AreLiterals texts.old literals.now meant
        → OnOk result (contents_of lines.new.items ≡ contents_of lines.old.items ++ map (meant_line side) meant) }
    ensures ids { KeepsIds texts.old texts.new }
{
    for literal in literals {
        let line = line_of(alloc, side, *literal, texts)?;
        lines.push(line)?;
    }
    Ok(())
}

// The line that tells how the run ended.
fn line_at_the_end(alloc: Global) -> Result<Vec<u8>, NoMemory>
    ensures { IfOk result (λ line. line.items ≡ last_line) }
{
    let mut line = Vec::new(alloc);
    line.extend_from_slice(b"= done\n")?;
    Ok(line)
}

// The lines of a run: those of the left script, those of the right, and the last.
pub fn lines_of(
    alloc: Global,
    left: &[Literal],
    right: &[Literal],
    texts: &mut Texts,
) -> Result<Vec<Vec<u8>>, NoMemory>
    requires left { (meant : List Meant) × AreLiterals texts.old left.now meant }
    requires right { (meant : List Meant) × AreLiterals texts.old right.now meant }
    ensures { (lefts rights : List Meant) → AreLiterals texts.old left.now lefts
        → AreLiterals texts.old right.now rights
        → IfOk result (λ lines. contents_of lines.items ≡ meant_lines lefts rights) }
{
    let mut lines = Vec::new(alloc);
    add_lines(alloc, Side::LEFT, left, texts, &mut lines)?;
    add_lines(alloc, Side::RIGHT, right, texts, &mut lines)?;
    lines.push(line_at_the_end(alloc)?)?;
    Ok(lines)
}
