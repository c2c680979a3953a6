//! The pair of scripts that a load runs, by a start and a size.
#![tactic(auto)]

ghost use Rattle.std.specs.Prelude.{◌≡◌, ◌≤◌, suc, ◌++◌, IfOk, string_bytes};
ghost use Rattle.std.specs.Fmt.{decimal};
ghost use Rattle.mb_load.specs.Pair.{following, number, kind_of, element, push_line, left_script, right_script, ScriptsAreShort};

use mb_base::NoMemory;
use std::alloc::{AllocError, Global};

/// The left script, which pushes that many elements to a list on the desk, and the right script, which
/// prints the sum of their numbers. The start decides on the kinds of the elements.
pub fn scripts(alloc: Global, start: u32, size: u32) -> Result<(String, String), NoMemory>
    requires at_least { 1 ≤ size }
    requires at_most { size ≤ 5_000 }
    ensures left { IfOk result (λ pair. string_bytes pair.0 ≡ left_script start size) }
    ensures right { IfOk result (λ pair. string_bytes pair.1 ≡ right_script) }
{
    let left = filling(alloc, start, size)?;
    let right = adding(alloc)?;
    Ok((left, right))
}

/// Scripts of a size of at most 5,000 have at most 1,048,576 bytes.
pub fn scripts_are_short()
    ensures { ScriptsAreShort }
{}

// The script that fills the list.
fn filling(alloc: Global, start: u32, size: u32) -> Result<String, AllocError>
    requires { size ≤ 5_000 }
    ensures { IfOk result (λ script. string_bytes script ≡ left_script start size) }
{
    let mut script = String::new(alloc);
    script.push_str("desk.list = [];\n")?;
    let mut drawn = start % 2_147_483_648;
    for done in 0..size {
        drawn = following(drawn);
        let line = push_line(alloc, drawn / 65_536 % 4, done + 1)?;
        script.push_str(line.as_str())?;
    }
    Ok(script)
}

fn adding(alloc: Global) -> Result<String, AllocError>
    ensures { IfOk result (λ script. string_bytes script ≡ right_script) }
{
    let mut script = String::new(alloc);
    script.push_str("let sum = 0;\n")?;
    script.push_str(
        "desk.list.forEach((x) => { let v = Array.isArray(x) ? x[0] : x.id; sum += v; });\n",
    )?;
    script.push_str("print(sum);\n")?;
    Ok(script)
}

// The number after this one.
fn following(number: u32) -> u32
    ensures { result ≡ following number }
{
    ((u64::from(number) * 1_103_515_245 + 12_345) % 2_147_483_648) as u32
}

fn element(alloc: Global, kind: u32, place: u32) -> Result<String, AllocError>
    ensures { IfOk result (λ text. string_bytes text ≡ element kind (decimal place)) }
{
    match kind {
        0 => format!(in alloc; "{{ id: {place} }}"),
        1 => format!(in alloc; "Object.freeze({{ id: {place} }})"),
        2 => format!(in alloc; "{{ get id() {{ return {place}; }} }}"),
        _ => format!(in alloc; "[{place}]"),
    }
}

fn push_line(alloc: Global, kind: u32, place: u32) -> Result<String, AllocError>
    ensures { IfOk result (λ text. string_bytes text ≡ push_line kind place) }
{
    let element = element(alloc, kind, place)?;
    format!(in alloc; "desk.list.push({element});\n")
}

#[cfg(test)]
mod tests;
