//! Whole scripts out of bytes.
ghost use Rattle.std.specs.Prelude.{◌≡◌, map, IfOk};
ghost use Rattle.cli_scripts.specs.Rows.{line_of, request_line_of};
ghost use Rattle.cli_scripts.specs.Script.{lines, GivesAll, fault_at, said_lines, said_requests};

use crate::fault::{LineFault, ScriptFault};
use crate::line::Line;
use crate::reader::{read_line, read_request};
use crate::request::ScriptRequest;
use std::alloc::{AllocError, Global};

/// What a line says.
#[derive(Debug, Drop)]
pub struct Numbered<T> {
    /// The line's number, from 1, empty lines counted.
    pub number: usize,
    /// What it says.
    pub said: T,
}

/// The lines of a script of a world, parted by newlines; empty ones are skipped. If a line can't be read, the number of the first such line;
/// or want of memory.
pub fn read_script(alloc: Global, bytes: &[u8]) -> Result<Vec<Numbered<Line>>, ScriptFault>
    ensures { GivesAll line_of (λ v. said_lines v.items) bytes.now result }
{
    let Ok(lines) = lines(alloc, bytes) else {
        return Err(ScriptFault::Memory);
    };
    let mut said = Vec::new(alloc);
    for (before, line) in lines.iter().enumerate() {
        if line.is_empty() {
            continue;
        }
        let here = match read_line(alloc, line) {
            Ok(here) => here,
            Err(fault) => return Err(at(before + 1, fault)),
        };
        let numbered = Numbered {
            number: before + 1,
            said: here,
        };
        let Ok(()) = said.push(numbered) else {
            return Err(ScriptFault::Memory);
        };
    }
    Ok(said)
}

/// The lines of a script that are requests alone, parted by newlines; empty ones are skipped. If a line can't be read, the number of the
/// first such line; or want of memory.
pub fn read_requests(
    alloc: Global,
    bytes: &[u8],
) -> Result<Vec<Numbered<ScriptRequest>>, ScriptFault>
    ensures { GivesAll request_line_of (λ v. said_requests v.items) bytes.now result }
{
    let Ok(lines) = lines(alloc, bytes) else {
        return Err(ScriptFault::Memory);
    };
    let mut said = Vec::new(alloc);
    for (before, line) in lines.iter().enumerate() {
        if line.is_empty() {
            continue;
        }
        let here = match read_request(alloc, line) {
            Ok(here) => here,
            Err(fault) => return Err(at(before + 1, fault)),
        };
        let numbered = Numbered {
            number: before + 1,
            said: here,
        };
        let Ok(()) = said.push(numbered) else {
            return Err(ScriptFault::Memory);
        };
    }
    Ok(said)
}

/// The fault of a script at a line with this one.
fn at(number: usize, fault: LineFault) -> ScriptFault
    ensures { result ≡ fault_at number fault }
{
    match fault {
        LineFault::Unreadable => ScriptFault::Unreadable(number),
        LineFault::Memory => ScriptFault::Memory,
    }
}

/// The lines of bytes, parted by newlines.
fn lines<'a>(alloc: Global, bytes: &'a [u8]) -> Result<Vec<&'a [u8]>, AllocError>
    ensures { IfOk result (λ v. map (λ l. l.now) v.items ≡ lines bytes.entry.now) }
{
    bytes.split(|byte| *byte == b'\n').collect(alloc)
}
