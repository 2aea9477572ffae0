//! What is printed of a world.
ghost use Rattle.std.specs.Prelude.{◌≡◌, ◌++◌, ◌∷◌, [], IfOk, OnOk, List, map, string_bytes};
ghost use Rattle.std.specs.List.{flat_map};
ghost use Rattle.engine.specs.Views.{EntryView, entries_view, entry_view};
ghost use Rattle.world.specs.Connections.{Connection as ConnectionSeen};
ghost use Rattle.world.specs.World.{World as WorldSeen, Reached, ledger};
ghost use Rattle.world.specs.Reports.{ordinals};
ghost use Rattle.world.specs.Reported.{IsReport, standing_seen};
ghost use Rattle.world.specs.Views.{read_of};
ghost use Rattle.world.specs.Turns.{FitsWorld, setting_of};
ghost use Rattle.cli_output.specs.Telling.{entry_line, lost_line};
ghost use Rattle.cli_replay.specs.Texts.{conn_line, connection_text, connections_text, read_line, report_text, standing_line, waits_line};

use crate::script_lines::connection_at;
use cli_output::{cause_code, entry_text, outcome_name, state_name, summary};
use client::Outcome;
use engine::{Engine, Entry, Gate};
use std::alloc::{AllocError, Global};
use world::{Connection, Read, Standing, World};

/// What is printed of a world: `conn K` for each connection and after it `heard ORDINAL OUTCOME PHASE` for each summary that its
/// client read, `lost ORDINAL OUTCOME` for each outcome at its loss, `waits ORDINAL` for each request that waits, and `server STATE`
/// or `server ended E1`; then `entry K ORDINAL COUNT` for each entry of the ledger, with the count of its writes, and ` token HEX` behind it
/// where the entry has a token. Or want of memory.
pub fn report<E: Engine, G: Gate>(alloc: Global, world: &World<E, G>) -> Result<String, AllocError>
    ensures { (gate : G) (brought : List EntryView) (w : WorldSeen)
        → Reached (setting_of E.answer G.welcomes gate) brought w
        → FitsWorld E.entries world.now gate w
        → IfOk result (λ text. string_bytes text ≡ report_text w) }
{
    let mut text = String::new(alloc);
    push_connections(alloc, &mut text, world)?;
    push_entries(alloc, &mut text, ledger_of(world))?;
    Ok(text)
}

/// The ledger of a world.
fn ledger_of<E: Engine, G: Gate>(world: &World<E, G>) -> &[Entry]
    ensures { (gate : G) (w : WorldSeen) → FitsWorld E.entries world.now gate w
        → entries_view result.now ≡ ledger w }
{
    world.ledger()
}

/// Adds the connections, in the order of opening.
fn push_connections<E: Engine, G: Gate>(
    alloc: Global,
    text: &mut String,
    world: &World<E, G>,
) -> Result<(), AllocError>
    ensures { (gate : G) (brought : List EntryView) (w : WorldSeen)
        → Reached (setting_of E.answer G.welcomes gate) brought w
        → FitsWorld E.entries world.now gate w
        → OnOk result (string_bytes text.new ≡ string_bytes text.old ++ connections_text 0 w.conns) }
{
    for conn in 0..u64::MAX {
        match connection_at(world, conn) {
            None => return Ok(()),
            Some(connection) => push_connection(alloc, text, conn, connection)?,
        }
    }
    Err(AllocError)
}

/// Adds a connection.
fn push_connection(
    alloc: Global,
    text: &mut String,
    conn: u64,
    connection: Connection<'_>,
) -> Result<(), AllocError>
    ensures { (k : ConnectionSeen) → IsReport k connection.entry
        → OnOk result (string_bytes text.new ≡ string_bytes text.old ++ connection_text conn k) }
{
    push_conn(alloc, text, conn)?;
    push_read(alloc, text, connection.read)?;
    push_lost(alloc, text, connection.lost)?;
    push_waits(alloc, text, connection.read.len(), connection.waits)?;
    push_standing(alloc, text, connection.standing)
}

fn push_conn(alloc: Global, text: &mut String, conn: u64) -> Result<(), AllocError>
    ensures { OnOk result (string_bytes text.new ≡ string_bytes text.old ++ conn_line conn) }
{
    let line = format!(in alloc; "conn {conn}\n")?;
    text.push_str(line.as_str())
}

/// Adds the summaries that were read.
fn push_read(alloc: Global, text: &mut String, summaries: &[Read]) -> Result<(), AllocError>
    ensures { OnOk result (string_bytes text.new
        ≡ string_bytes text.old ++ flat_map read_line (map read_of summaries.now)) }
{
    for read in summaries {
        let line = summary(alloc, read.ordinal, read.outcome, read.phase)?;
        text.push_str(line.as_str())?;
    }
    Ok(())
}

/// Adds the outcomes at the loss.
fn push_lost(alloc: Global, text: &mut String, losses: &[(u64, Outcome)]) -> Result<(), AllocError>
    ensures { OnOk result (string_bytes text.new
        ≡ string_bytes text.old ++ flat_map lost_line losses.now) }
{
    for (ordinal, outcome) in losses {
        push_loss(alloc, text, *ordinal, *outcome)?;
    }
    Ok(())
}

fn push_loss(
    alloc: Global,
    text: &mut String,
    ordinal: u64,
    outcome: Outcome,
) -> Result<(), AllocError>
    ensures { OnOk result (string_bytes text.new
        ≡ string_bytes text.old ++ lost_line (ordinal, outcome)) }
{
    let outcome = outcome_name(outcome);
    let line = format!(in alloc; "lost {ordinal} {outcome}\n")?;
    text.push_str(line.as_str())
}

/// Adds the requests that wait, so many from this ordinal on.
fn push_waits(
    alloc: Global,
    text: &mut String,
    first: usize,
    count: usize,
) -> Result<(), AllocError>
    ensures { OnOk result (string_bytes text.new
        ≡ string_bytes text.old ++ flat_map waits_line (ordinals first count)) }
{
    let Some(end) = first.checked_add(count) else {
        return Err(AllocError);
    };
    for ordinal in first..end {
        push_waiting(alloc, text, ordinal)?;
    }
    Ok(())
}

fn push_waiting(alloc: Global, text: &mut String, ordinal: usize) -> Result<(), AllocError>
    ensures { OnOk result (string_bytes text.new ≡ string_bytes text.old ++ waits_line ordinal) }
{
    let line = format!(in alloc; "waits {ordinal}\n")?;
    text.push_str(line.as_str())
}

/// Adds where the session stands.
fn push_standing(alloc: Global, text: &mut String, standing: Standing) -> Result<(), AllocError>
    ensures { OnOk result (string_bytes text.new
        ≡ string_bytes text.old ++ standing_line (standing_seen standing)) }
{
    match standing {
        Standing::Stands(state) => push_words(alloc, text, "server ", state_name(state)),
        Standing::Ended(cause) => push_words(alloc, text, "server ended ", cause_code(cause)),
    }
}

fn push_words(alloc: Global, text: &mut String, words: &str, name: &str) -> Result<(), AllocError>
    ensures { OnOk result (string_bytes text.new
        ≡ string_bytes text.old ++ (words.now ++ name.now ++ 10 ∷ [])) }
{
    let line = format!(in alloc; "{words}{name}\n")?;
    text.push_str(line.as_str())
}

/// Adds the entries of a ledger.
fn push_entries(alloc: Global, text: &mut String, entries: &[Entry]) -> Result<(), AllocError>
    ensures { OnOk result (string_bytes text.new
        ≡ string_bytes text.old ++ flat_map entry_line (entries_view entries.now)) }
{
    for entry in entries {
        push_entry(alloc, text, entry)?;
    }
    Ok(())
}

fn push_entry(alloc: Global, text: &mut String, entry: &Entry) -> Result<(), AllocError>
    ensures { OnOk result (string_bytes text.new
        ≡ string_bytes text.old ++ entry_line (entry_view entry.now)) }
{
    let line = entry_text(alloc, entry)?;
    text.push_str(line.as_str())
}
