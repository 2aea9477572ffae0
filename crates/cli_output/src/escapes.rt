//! A stranger's text as it is printed, so that it can't forge a line.
ghost use Rattle.std.specs.Prelude.{◌≡◌, ◌++◌, true, IfOk, OnOk, string_bytes};
ghost use Rattle.std.specs.Str.{encode_utf8_all};
ghost use Rattle.cli_output.specs.Escaping.{escape, escaped, hex_number, is_clean, is_unprintable, shown};

use std::alloc::{AllocError, Global};

/// A text of which each character that could forge a line, give a terminal orders, or turn or hide what stands beside it is escaped: a line's
/// end as `\n`, every other by its number, as `\u{1b}` and `\u{202e}`. A text without such characters is itself. Or want of memory.
pub fn escape(alloc: Global, text: &str) -> Result<String, AllocError>
    ensures value { IfOk result (λ t. string_bytes t ≡ escaped text.now) }
    ensures clean { IfOk result (λ t. is_clean (string_bytes t) ≡ true) }
    ensures same { is_clean text.now ≡ true → IfOk result (λ t. string_bytes t ≡ text.now) }
{
    let mut out = String::new(alloc);
    for c in text.chars() {
        push_shown(&mut out, c)?;
    }
    Ok(out)
}

/// Adds a character, escaped if it has to be.
#[tactic(auto, using(crate::proofs::Escapings::escape_alike))]
fn push_shown(out: &mut String, c: char) -> Result<(), AllocError>
    ensures { OnOk result (string_bytes out.new ≡ string_bytes out.old ++ encode_utf8_all (shown c)) }
{
    if is_unprintable(c) {
        return push_escape(out, c);
    }
    out.push(c)
}

/// Adds a character by its number.
fn push_escape(out: &mut String, c: char) -> Result<(), AllocError>
    ensures { OnOk result (string_bytes out.new ≡ string_bytes out.old ++ escape c) }
{
    if c == '\n' {
        return out.push_str("\\n");
    }
    out.push_str("\\u{")?;
    push_number(out, c as u32)?;
    out.push_str("}")
}

/// Adds a number in hex, of two digits at least.
fn push_number(out: &mut String, number: u32) -> Result<(), AllocError>
    ensures { OnOk result (string_bytes out.new ≡ string_bytes out.old ++ hex_number number) }
{
    if number < 16 {
        return write!(out, "0{number:x}");
    }
    write!(out, "{number:x}")
}

/// Whether a character is never printed as it is.
fn is_unprintable(c: char) -> bool
    ensures { result ≡ is_unprintable c }
{
    matches!(
        c,
        '\u{0}'..='\u{1F}'
            | '\u{7F}'..='\u{9F}'
            | '\u{61C}'
            | '\u{200B}'..='\u{200F}'
            | '\u{2028}'..='\u{202E}'
            | '\u{2060}'..='\u{2064}'
            | '\u{2066}'..='\u{206F}'
            | '\u{FEFF}'
            | '\u{E0001}'
            | '\u{E0020}'..='\u{E007F}'
    )
}
