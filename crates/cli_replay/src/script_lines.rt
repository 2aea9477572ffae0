//! A script's lines, one after the other.
ghost use Rattle.std.specs.Prelude.{◌≡◌, ◌++◌, OnOk, List, Some, string_bytes};
ghost use Rattle.std.specs.Option.{option_map};
ghost use Rattle.engine.specs.Views.{EntryView};
ghost use Rattle.cli_scripts.specs.Views.{line_view};
ghost use Rattle.cli_scripts.specs.Script.{said_lines};
ghost use Rattle.wire.specs.Offers.{wish_version};
ghost use Rattle.world.specs.Connections.{wish_of};
ghost use Rattle.world.specs.World.{World as WorldSeen, Reached};
ghost use Rattle.world.specs.Views.{event_of, peer_of};
ghost use Rattle.world.specs.Reported.{Reports};
ghost use Rattle.world.specs.Turns.{FitsWorld, setting_of};
ghost use Rattle.cli_replay.specs.Events.{version_at};
ghost use Rattle.cli_replay.specs.Running.{Does, LeadsBy, Once, Repeats, Runs, line_of_note};

use crate::events::{conn_of, event_by, repeats};
use crate::steps::take_step;
use cli_scripts::{Line, Numbered};
use engine::{Engine, Gate};
use std::alloc::{AllocError, Global};
use wire::{Version, Wish};
use world::{Connection, Event, Peer, World};

/// Runs the lines of a script in order, and answers the text of what is noted of them: `line 3 C1` for a request that its client
/// refuses, `line 3 V1` for an event that can't be, `line 3 Full` where a session took nothing or wrote nothing since it is full.
/// Or want of memory, after some of the lines: the world then stands somewhere that steps lead to.
pub fn run<E: Engine, G: Gate>(
    alloc: Global,
    world: &mut World<E, G>,
    lines: Vec<Numbered<Line>>,
) -> Result<String, AllocError>
    ensures { (gate : G) (brought : List EntryView) (w : WorldSeen)
        → Reached (setting_of E.answer G.welcomes gate) brought w
        → FitsWorld E.entries world.old gate w
        → LeadsBy E.entries (setting_of E.answer G.welcomes gate) gate brought
        (λ text. Runs (setting_of E.answer G.welcomes gate) w (said_lines lines.items) (string_bytes text)) result world.new }
{
    let mut text = String::new(alloc);
    for line in lines {
        let number = line.number;
        let code = do_line(alloc, world, line.said)?;
        push_noted(alloc, &mut text, number, code)?;
    }
    Ok(text)
}

/// Adds what is noted of a line with this number.
fn push_noted(
    alloc: Global,
    text: &mut String,
    number: usize,
    code: Option<&'static str>,
) -> Result<(), AllocError>
    ensures { OnOk result (string_bytes text.new
        ≡ string_bytes text.old ++ line_of_note number (option_map (λ t. t.now) code.entry)) }
{
    match code {
        None => Ok(()),
        Some(code) => push_line(alloc, text, number, code),
    }
}

fn push_line(alloc: Global, text: &mut String, number: usize, code: &str) -> Result<(), AllocError>
    ensures { OnOk result (string_bytes text.new
        ≡ string_bytes text.old ++ line_of_note number (Some code.now)) }
{
    let line = format!(in alloc; "line {number} {code}\n")?;
    text.push_str(line.as_str())
}

/// Does a line, and answers the code that is noted of it.
fn do_line<E: Engine, G: Gate>(
    alloc: Global,
    world: &mut World<E, G>,
    line: Line,
) -> Result<Option<&'static str>, AllocError>
    ensures { (gate : G) (brought : List EntryView) (w : WorldSeen)
        → Reached (setting_of E.answer G.welcomes gate) brought w
        → FitsWorld E.entries world.old gate w
        → LeadsBy E.entries (setting_of E.answer G.welcomes gate) gate brought
        (λ code. Does (setting_of E.answer G.welcomes gate) w (line_view line) (option_map (λ t. t.now) code)) result world.new }
{
    let version = version_at(world, conn_of(&line));
    let again = repeats(&line);
    let event = event_by(alloc, version, line)?;
    if again {
        return repeat(world, &event);
    }
    once(world, event)
}

/// The version of the requests of a connection: the one that its client wishes, and the newest if it has none.
fn version_at<E: Engine, G: Gate>(world: &World<E, G>, conn: u64) -> Version
    ensures { (gate : G) (brought : List EntryView) (w : WorldSeen)
        → Reached (setting_of E.answer G.welcomes gate) brought w
        → FitsWorld E.entries world.now gate w
        → result ≡ version_at w conn }
{
    match connection_at(world, conn) {
        None => Version::V51,
        Some(connection) => wished(connection.peer),
    }
}

/// What is reported of a connection.
pub(crate) fn connection_at<E: Engine, G: Gate>(
    world: &World<E, G>,
    conn: u64,
) -> Option<Connection<'_>>
    ensures { (gate : G) (brought : List EntryView) (w : WorldSeen)
        → Reached (setting_of E.answer G.welcomes gate) brought w
        → FitsWorld E.entries world.now gate w → Reports w conn result }
{
    world.report().connection(conn)
}

/// The version that a peer wishes.
fn wished(peer: Peer) -> Version
    ensures { result ≡ wish_version (wish_of (peer_of peer)) }
{
    match peer {
        Peer::Ours(Wish::Only(version)) => version,
        _ => Version::V51,
    }
}

/// An event, once.
fn once<E: Engine, G: Gate>(
    world: &mut World<E, G>,
    event: Event,
) -> Result<Option<&'static str>, AllocError>
    ensures { (gate : G) (brought : List EntryView) (w : WorldSeen)
        → Reached (setting_of E.answer G.welcomes gate) brought w
        → FitsWorld E.entries world.old gate w
        → LeadsBy E.entries (setting_of E.answer G.welcomes gate) gate brought
        (λ code. Once (setting_of E.answer G.welcomes gate) w (event_of event) (option_map (λ t. t.now) code)) result world.new }
{
    let done = take_step(world, event)?;
    Ok(done.code)
}

/// An event again and again, until it moves nothing. After 2^64 of them, which no run reaches, it answers want of memory.
fn repeat<E: Engine, G: Gate>(
    world: &mut World<E, G>,
    event: &Event,
) -> Result<Option<&'static str>, AllocError>
    ensures { (gate : G) (brought : List EntryView) (w : WorldSeen)
        → Reached (setting_of E.answer G.welcomes gate) brought w
        → FitsWorld E.entries world.old gate w
        → LeadsBy E.entries (setting_of E.answer G.welcomes gate) gate brought
        (λ code. Repeats (setting_of E.answer G.welcomes gate) w (event_of event.now) (option_map (λ t. t.now) code)) result world.new }
{
    for _time in 0..u64::MAX {
        let again = event.clone()?;
        let done = take_step(world, again)?;
        if !done.goes_on {
            return Ok(done.code);
        }
    }
    Err(AllocError)
}
