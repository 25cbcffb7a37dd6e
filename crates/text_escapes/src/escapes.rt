//! The escapes of printed texts.
ghost use Rattle.std.specs.Prelude.{◌≡◌, ◌++◌, IfOk, OnOk, string_bytes};
ghost use Rattle.machine_definitions.specs.Texts.{by_number, printed_scalar, printed_text, quoted_scalar, quoted_text};

use ck_base::NoMemory;
use std::alloc::Global;
use std::fmt::Write;

/// Puts a character last, as it is printed in a text.
#[tactic(auto, unfolding(machine_definitions::specs::Texts::printed_scalar))]
fn push_scalar(out: &mut String, scalar: char) -> Result<(), NoMemory>
    ensures { OnOk result (string_bytes out.new ≡ string_bytes out.old ++ printed_scalar scalar) }
{
    match scalar {
        '&' => out.push_str("&amp;"),
        '<' => out.push_str("&lt;"),
        '>' => out.push_str("&gt;"),
        '[' | ']' | '{' | '}' | '\u{0}'..='\u{1f}' | '\u{7f}' => push_by_number(out, scalar),
        _ => out.push(scalar),
    }
}

/// Puts a character last by its code's number.
fn push_by_number(out: &mut String, scalar: char) -> Result<(), NoMemory>
    ensures { OnOk result (string_bytes out.new ≡ string_bytes out.old ++ by_number scalar) }
{
    let code = u32::from(scalar);
    write!(out, "&#{code};")
}

/// Puts a text last, as it is printed.
pub fn push_text(out: &mut String, scalars: &[char]) -> Result<(), NoMemory>
    ensures { OnOk result (string_bytes out.new ≡ string_bytes out.old ++ printed_text scalars.now) }
{
    for scalar in scalars {
        push_scalar(out, *scalar)?;
    }
    Ok(())
}

/// Puts a character last, as it is printed in a quoted text.
#[tactic(auto, unfolding(machine_definitions::specs::Texts::quoted_scalar))]
fn push_quoted_scalar(out: &mut String, scalar: char) -> Result<(), NoMemory>
    ensures { OnOk result (string_bytes out.new ≡ string_bytes out.old ++ quoted_scalar scalar) }
{
    match scalar {
        '"' => out.push_str("&quot;"),
        _ => push_scalar(out, scalar),
    }
}

/// A text as it is printed in quotes.
pub fn quoted_text(alloc: Global, scalars: &[char]) -> Result<String, NoMemory>
    ensures { IfOk result (λ text. string_bytes text ≡ quoted_text scalars.now) }
{
    let mut text = String::new(alloc);
    for scalar in scalars {
        push_quoted_scalar(&mut text, *scalar)?;
    }
    Ok(text)
}
