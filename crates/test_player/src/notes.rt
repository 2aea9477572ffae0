//! What is seen of events, and what is reported, as lines.

use crate::asked::Unplayed;
use crate::play::Play;
use client::Heard;
use std::alloc::{AllocError, Global};
use std::fmt::Write;
use world::{Connection, Refused, Seen};

/// What is noted.
#[derive(Clone, Copy)]
pub enum Noted<'a> {
    /// The number of a line, and what was seen of its event.
    Seen(usize, &'a Result<Seen, Refused>),
    Report(&'a Play),
}

/// How often it is noted again if there is no memory for it.
const MOST_AGAIN: usize = 1000;

/// Adds what is noted.
pub fn note(alloc: Global, notes: &mut String, noted: &Noted<'_>) -> Result<(), Unplayed> {
    for _again in 0..MOST_AGAIN {
        let mut text = String::new(alloc);
        if add(&mut text, noted).is_ok() && notes.push_str(text.as_str()).is_ok() {
            return Ok(());
        }
    }
    Err(Unplayed)
}

fn add(notes: &mut String, noted: &Noted<'_>) -> Result<(), AllocError> {
    match noted {
        Noted::Seen(line, Ok(seen)) => add_seen(notes, *line, seen),
        Noted::Seen(line, Err(refused)) => writeln!(notes, "{line} {refused}"),
        Noted::Report(play) => add_report(notes, play),
    }
}

fn add_seen(notes: &mut String, line: usize, seen: &Seen) -> Result<(), AllocError> {
    match seen {
        Seen::Opened(conn) => writeln!(notes, "{line} opened {conn}"),
        Seen::Submitted(told) => writeln!(notes, "{line} submitted {told:?}"),
        Seen::Fed(took) => writeln!(notes, "{line} fed {took:?}"),
        Seen::Gave { used, heard } => add_heard(notes, line, *used, heard),
        Seen::Worked(worked) => writeln!(notes, "{line} worked {worked:?}"),
        Seen::Noop(is_put) => writeln!(notes, "{line} noop {is_put}"),
        Seen::Nothing => writeln!(notes, "{line} nothing"),
    }
}

fn add_heard(
    notes: &mut String,
    line: usize,
    used: usize,
    heard: &Heard,
) -> Result<(), AllocError> {
    match heard {
        Heard::Nothing => writeln!(notes, "{line} gave {used} nothing"),
        Heard::Version(version) => writeln!(notes, "{line} gave {used} version {version:?}"),
        Heard::Row(cells) => writeln!(notes, "{line} gave {used} row {cells:?}"),
        Heard::Summary {
            ordinal,
            phase,
            response,
            ..
        } => writeln!(
            notes,
            "{line} gave {used} summary {ordinal} {phase:?} {response:?}"
        ),
    }
}

fn add_report(notes: &mut String, play: &Play) -> Result<(), AllocError> {
    writeln!(notes, "report {}", play.is_torn)?;
    for conn in 0..play.world.report().connections() {
        if let Some(told) = play.told(conn) {
            add_connection(notes, &told)?;
        }
    }
    for entry in play.world.ledger() {
        writeln!(notes, "entry {entry:?}")?;
    }
    Ok(())
}

fn add_connection(notes: &mut String, told: &Connection<'_>) -> Result<(), AllocError> {
    writeln!(
        notes,
        "conn {:?} {} {:?}",
        told.peer, told.waits, told.standing
    )?;
    writeln!(notes, "wrote {:?}", told.wrote)?;
    writeln!(notes, "read {:?}", told.read)?;
    writeln!(notes, "lost {:?}", told.lost)
}
