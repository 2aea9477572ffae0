//! A script that a source gives, and what is said of it.
ghost use Rattle.std.specs.Prelude.{◌≤◌, ◌++◌, ◌∷◌, [], codes, IfOk, List, ℕ};
ghost use Rattle.std.specs.Io.KnownBytes.{Consumes};
ghost use Rattle.cli_scripts.specs.Script.{said_lines};
ghost use Rattle.world.specs.World.{World as WorldSeen, empty};
ghost use Rattle.cli_replay.specs.Running.{Runs, serving};
ghost use Rattle.cli_replay.specs.Texts.{report_text};
ghost use Rattle.cli_replay.specs.Scripts.{Says, SaysScript, SaysSource, unreadable_line};

use crate::reports::report;
use crate::script_lines::run;
use crate::source::read_all;
use cli_scripts::{Line, Numbered, ScriptFault, read_script};
use engine::{FixedTable, OneUser};
use std::alloc::{AllocError, Global};
use streams::{Source, StreamFault};
use world::World;

/// What is said of a script: on standard output, on standard error, and by an exit status.
#[derive(Debug, Drop)]
pub struct Replayed {
    /// On standard output.
    pub out: String,
    /// On standard error.
    pub err: String,
    /// The exit status, at most 2.
    pub status: u8,
}

/// Reads a script to its end, and only then runs it, by a world without connections over an empty `FixedTable` and the gate of
/// `user` with `pass`. What is noted of its lines is said, and then the report. Of a script with a line that can't be read nothing is
/// run: `line 3 unreadable` is said on standard error, and on the next line what is expected there, with status 2. If the source fails,
/// `fault I1` is, with status 1. Else the status is 0. Or want of memory, of which nothing is said.
pub fn replay<S: Source>(alloc: Global, source: &mut S) -> Result<Replayed, AllocError>
    ensures says { IfOk result
        (λ r. SaysSource (S.has_failed source.new) (S.left source.old) (S.left source.new) r) }
    ensures status { IfOk result (λ r. r.status ≤ 2) }
    // What was read is a beginning of what the source held, also if memory is wanting.
    ensures bytes { (front : List ℕ) × Consumes (S.left source.old) (S.left source.new) front }
{
    match read_all(alloc, source) {
        Ok(bytes) => say_script(alloc, bytes.as_slice()),
        Err(StreamFault::ReadFailed) => say_fault(alloc),
        Err(_) => Err(AllocError),
    }
}

fn say_fault(alloc: Global) -> Result<Replayed, AllocError>
    ensures { IfOk result (λ r. Says [] (codes "fault I1" ++ 10 ∷ []) 1 r) }
{
    Ok(Replayed {
        out: String::new(alloc),
        err: String::from_str(alloc, "fault I1\n")?,
        status: 1,
    })
}

/// What is said of the bytes of a script.
fn say_script(alloc: Global, bytes: &[u8]) -> Result<Replayed, AllocError>
    ensures says { IfOk result (λ r. SaysScript bytes.now r) }
    ensures status { IfOk result (λ r. r.status ≤ 2) }
{
    match read_script(alloc, bytes) {
        Ok(lines) => say_lines(alloc, lines),
        Err(ScriptFault::Unreadable(number)) => say_unreadable(alloc, number),
        Err(ScriptFault::Memory) => Err(AllocError),
    }
}

fn say_unreadable(alloc: Global, number: usize) -> Result<Replayed, AllocError>
    ensures { IfOk result (λ r. Says [] (unreadable_line number) 2 r) }
{
    Ok(Replayed {
        out: String::new(alloc),
        err: format!(in alloc;
            "line {number} unreadable\nexpected open newest, open 4.4, open 5.0, open 5.1, open foreign, submit K REQUEST, server K BYTES, client K BYTES, work K [all], noop K, cut K, clientlost K, serverlost K or foreign K HEX; BYTES is a number or all; REQUEST is hello, logon [bad], logoff, goodbye, reset, run TEXT HEX [r] [token T], begin [r] [token T], commit, rollback, discard N or pull N\n"
        )?,
        status: 2,
    })
}

/// What is said of the lines of a script.
fn say_lines(alloc: Global, lines: Vec<Numbered<Line>>) -> Result<Replayed, AllocError>
    ensures { IfOk result (λ r. (text : List ℕ) × (w : WorldSeen)
        × Runs serving (empty []) (said_lines lines.items) text w
        × Says (text ++ report_text w) [] 0 r) }
{
    let gate = OneUser::new(alloc, "user", "pass")?;
    let mut world = World::new(alloc, FixedTable::new(alloc), gate);
    let mut out = run(alloc, &mut world, lines)?;
    let told = report(alloc, &world)?;
    out.push_str(told.as_str())?;
    Ok(Replayed {
        out,
        err: String::new(alloc),
        status: 0,
    })
}
