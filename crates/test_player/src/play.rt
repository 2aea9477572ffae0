//! A world that is played on, each event given again if it is refused for memory.

use crate::asked::Unplayed;
use crate::brought::brought;
use crate::notes::{Noted, note};
use crate::script::{Hellos, Step, steps};
use client::{Heard, Outcome};
use engine::{FixedTable, OneUser};
use machine::{Phase, State};
use server::{Cause, Worked};
use std::alloc::{AllocError, Global};
use world::{Connection, Event, Refused, Seen, Standing, World, replay};

/// A world over a table and the gate of `user` with `pass`.
#[derive(Drop)]
pub struct Play {
    pub world: World<FixedTable, OneUser>,
    /// Whether a refused event changed what is reported.
    pub is_torn: bool,
}

/// How often an event that is refused for memory is given again.
const MOST_AGAIN: usize = 100_000;

impl Play {
    /// Over a table that may have entries.
    pub fn over(alloc: Global, table: FixedTable) -> Result<Play, AllocError> {
        let gate = OneUser::new(alloc, "user", "pass")?;
        Ok(Play {
            world: World::new(alloc, table, gate),
            is_torn: false,
        })
    }

    /// Gives a step's event so often as it moves something, notes what is seen of each, and keeps the event.
    fn follow(
        &mut self,
        alloc: Global,
        step: &Step,
        notes: &mut String,
        events: &mut Vec<Event>,
    ) -> Result<(), Unplayed> {
        for _time in 0..step.times {
            let seen = self.give(&step.event);
            note(alloc, notes, &Noted::Seen(step.line, &seen))?;
            keep(events, &step.event)?;
            if !moved(&seen) {
                return Ok(());
            }
        }
        Ok(())
    }

    /// Gives an event, again if it is refused for memory.
    pub fn give(&mut self, event: &Event) -> Result<Seen, Refused> {
        for _again in 0..MOST_AGAIN {
            let Ok(given) = event.clone() else {
                continue;
            };
            match self.give_once(given) {
                Err(Refused::Memory) => {}
                told => return told,
            }
        }
        Err(Refused::Memory)
    }

    fn give_once(&mut self, event: Event) -> Result<Seen, Refused> {
        let before = self.digest();
        let seen = self.world.step(event);
        self.is_torn |= seen.is_err() && self.digest() != before;
        seen
    }

    /// What is reported of a connection.
    pub fn told(&self, conn: u64) -> Option<Connection<'_>> {
        self.world.report().connection(conn)
    }

    /// A number of what is reported.
    pub fn digest(&self) -> u64 {
        digest(&self.world)
    }
}

/// A number of all that is reported of a world but who the peers are and the values of writes. Takes no memory.
fn digest(world: &World<FixedTable, OneUser>) -> u64 {
    let mut sum = 14_695_981_039_346_656_037;
    for conn in 0..MOST_CONNECTIONS {
        let Some(told) = world.report().connection(conn) else {
            break;
        };
        sum = mixed(sum, digest_of(&told));
    }
    for entry in world.ledger() {
        sum = mixed(mixed(sum, entry.id.conn), entry.id.ordinal);
        if let Some(token) = &entry.token {
            sum = mixed_bytes(sum, token.as_bytes());
        }
        for write in &entry.writes {
            sum = mixed_bytes(sum, write.key.as_bytes());
        }
    }
    sum
}

/// Keeps an event, again if there is no memory for it.
fn keep(events: &mut Vec<Event>, event: &Event) -> Result<(), Unplayed> {
    for _again in 0..MOST_AGAIN {
        if let Ok(event) = event.clone()
            && events.push(event).is_ok()
        {
            return Ok(());
        }
    }
    Err(Unplayed)
}

/// Whether `replay` of the events makes a world of which the same is reported.
fn is_replayed(alloc: Global, play: &Play, events: &[Event]) -> bool {
    for _again in 0..MOST_AGAIN {
        if let Ok(world) = replay(alloc, events) {
            return digest(&world) == play.digest();
        }
    }
    false
}

/// Plays a script, and notes what is seen of each event, and what is reported behind so many lines and at the end. It keeps the events.
fn play_on(
    alloc: Global,
    play: &mut Play,
    steps: &[Step],
    every: usize,
    notes: &mut String,
    events: &mut Vec<Event>,
) -> Result<(), Unplayed> {
    for step in steps {
        play.follow(alloc, step, notes, events)?;
        if step.line % every.max(1) == 0 {
            note(alloc, notes, &Noted::Report(play))?;
        }
    }
    note(alloc, notes, &Noted::Report(play))
}

/// The notes of a script that is played over a table which has what an engine may bring.
pub fn notes_over(alloc: Global, script: &str, every: usize) -> Result<String, Unplayed> {
    let steps = steps(alloc, script, Hellos::OfTheVersion)?;
    let mut play = Play::over(alloc, brought(alloc)?)?;
    let mut notes = String::new(alloc);
    play_on(
        alloc,
        &mut play,
        &steps,
        every,
        &mut notes,
        &mut Vec::new(alloc),
    )?;
    Ok(notes)
}

/// The notes of a script that is played over an empty table, and then by `replay`.
pub fn notes_of(
    alloc: Global,
    script: &str,
    hellos: Hellos,
    every: usize,
) -> Result<String, Unplayed> {
    let steps = steps(alloc, script, hellos)?;
    let mut play = Play::over(alloc, FixedTable::new(alloc))?;
    let mut notes = String::new(alloc);
    let mut events = Vec::new(alloc);
    play_on(alloc, &mut play, &steps, every, &mut notes, &mut events)?;
    if !is_replayed(alloc, &play, &events) {
        notes.push_str("not replayed\n")?;
    }
    Ok(notes)
}

/// Whether a step moved something.
fn moved(seen: &Result<Seen, Refused>) -> bool {
    match seen {
        Ok(Seen::Fed(took)) => took.used > 0,
        Ok(Seen::Gave { used, heard }) => *used > 0 || !matches!(heard, Heard::Nothing),
        Ok(Seen::Worked(Worked::Row)) => true,
        Ok(Seen::Worked(Worked::Wrote { .. })) => true,
        _ => false,
    }
}

/// More connections than a play opens.
const MOST_CONNECTIONS: u64 = 4096;

fn digest_of(told: &Connection<'_>) -> u64 {
    let mut sum = mixed(told.waits as u64, standing(told.standing));
    for wrote in told.wrote {
        sum = mixed(mixed(sum, wrote.ordinal), phase(wrote.phase));
    }
    for read in told.read {
        sum = mixed(mixed(sum, read.ordinal), phase(read.phase));
        sum = mixed(sum, outcome(read.outcome));
    }
    for (ordinal, lost) in told.lost {
        sum = mixed(mixed(sum, *ordinal), outcome(*lost));
    }
    sum
}

/// A step of the hash of Fowler, Noll and Vo, by eight bytes.
pub fn mixed(sum: u64, word: u64) -> u64 {
    let turned = (sum ^ word).wrapping_mul(1_099_511_628_211);
    turned ^ (turned >> 29)
}

fn mixed_bytes(sum: u64, bytes: &[u8]) -> u64 {
    let mut all = mixed(sum, bytes.len() as u64);
    for byte in bytes {
        all = mixed(all, *byte as u64);
    }
    all
}

fn standing(standing: Standing) -> u64 {
    match standing {
        Standing::Stands(state) => match state {
            State::Fresh => 0,
            State::Unauth => 1,
            State::Ready => 2,
            State::Streaming => 3,
            State::TxReady => 4,
            State::TxStreaming => 5,
            State::Failed => 6,
            State::Interrupted => 7,
            State::Defunct => 8,
        },
        Standing::Ended(cause) => match cause {
            Cause::BadMagic => 9,
            Cause::NoVersion => 10,
            Cause::TooBig => 11,
            Cause::Malformed => 12,
            Cause::Invalid => 13,
            Cause::AuthRefused => 14,
            Cause::Goodbye => 15,
            Cause::Lost => 16,
        },
    }
}

fn phase(phase: Phase) -> u64 {
    match phase {
        Phase::Fresh => 0,
        Phase::Unauth => 1,
        Phase::Ready => 2,
        Phase::Streaming => 3,
        Phase::TxReady => 4,
        Phase::TxStreaming => 5,
        Phase::Halted => 6,
        Phase::Defunct => 7,
    }
}

fn outcome(outcome: Outcome) -> u64 {
    match outcome {
        Outcome::Done => 0,
        Outcome::Committed => 1,
        Outcome::Refused => 2,
        Outcome::Ignored => 3,
        Outcome::Lost => 4,
        Outcome::Unknown => 5,
    }
}
