//! What the words of an event say.
ghost use Rattle.std.specs.Prelude.{◌≡◌, ◌∷◌, map, codes, if◌then◌else◌};
ghost use Rattle.std.specs.Option.{option_map};
ghost use Rattle.std.specs.Str.{bytes_eq};
ghost use Rattle.cli_scripts.specs.declared.line.Times.TheVariants as times;
ghost use Rattle.cli_scripts.specs.Answers.{Gives};
ghost use Rattle.cli_scripts.specs.Rows.{request_of, peer_of, amount_of, at_one, at_two, at_more, opening_line, event_of};
ghost use Rattle.cli_scripts.specs.Views.{line_view, Submit, Work};

use crate::fault::LineFault;
use crate::line::{Amount, Line, Peer, Times};
use crate::requests::request_of;
use crate::words::{bytes_of, number_of};
use std::alloc::Global;
use wire::{Version, Wish};

/// An event.
pub(crate) fn event_of(alloc: Global, words: &[&str]) -> Result<Line, LineFault>
    ensures { Gives line_view result (event_of (map (λ w. w.now) words.now)) }
{
    let Some((name, after)) = words.split_first() else {
        return Err(LineFault::Unreadable);
    };
    let Some((word, rest)) = after.split_first() else {
        return Err(LineFault::Unreadable);
    };
    named(alloc, name, word, rest)
}

/// An event by its first two words.
fn named(alloc: Global, name: &str, word: &str, rest: &[&str]) -> Result<Line, LineFault>
    ensures { Gives line_view result (event_of (name.now ∷ word.now ∷ map (λ w. w.now) rest.now)) }
{
    if name == "open" {
        return opened(word, rest);
    }
    let Some(conn) = number_of(word) else {
        return Err(LineFault::Unreadable);
    };
    if name == "submit" {
        return submitted(alloc, conn, rest);
    }
    at_more(alloc, name, rest, conn)
}

/// `open PEER`.
fn opened(word: &str, rest: &[&str]) -> Result<Line, LineFault>
    ensures { Gives line_view result (opening_line (map (λ w. w.now) rest.now) word.now) }
{
    if !rest.is_empty() {
        return Err(LineFault::Unreadable);
    }
    match peer_of(word) {
        Some(peer) => Ok(Line::Open(peer)),
        None => Err(LineFault::Unreadable),
    }
}

fn peer_of(word: &str) -> Option<Peer>
    ensures { result ≡ peer_of word.now }
{
    if word == "newest" {
        Some(Peer::Ours(Wish::Newest))
    } else if word == "4.4" {
        Some(Peer::Ours(Wish::Only(Version::V44)))
    } else if word == "5.0" {
        Some(Peer::Ours(Wish::Only(Version::V50)))
    } else if word == "5.1" {
        Some(Peer::Ours(Wish::Only(Version::V51)))
    } else if word == "foreign" {
        Some(Peer::Foreign)
    } else {
        None
    }
}

/// `submit K REQUEST`.
fn submitted(alloc: Global, conn: u64, words: &[&str]) -> Result<Line, LineFault>
    ensures { Gives line_view result
        (option_map (Submit conn) (request_of (map (λ w. w.now) words.now))) }
{
    let request = request_of(alloc, words)?;
    Ok(Line::Submit { conn, request })
}

/// An event of a connection and the words after it.
fn at_more(alloc: Global, name: &str, rest: &[&str], conn: u64) -> Result<Line, LineFault>
    ensures { Gives line_view result (at_more name.now (map (λ w. w.now) rest.now) conn) }
{
    match rest {
        [] => at_one(name, conn),
        [word] => at_two(alloc, name, conn, word),
        _ => Err(LineFault::Unreadable),
    }
}

/// An event that needs a connection alone.
fn at_one(name: &str, conn: u64) -> Result<Line, LineFault>
    ensures { Gives line_view result (at_one name.now conn) }
{
    if name == "work" {
        return Ok(Line::Work {
            conn,
            times: Times::Once,
        });
    }
    if name == "noop" {
        return Ok(Line::Noop { conn });
    }
    if name == "cut" {
        return Ok(Line::Cut { conn });
    }
    if name == "clientlost" {
        return Ok(Line::ClientLost { conn });
    }
    if name == "serverlost" {
        return Ok(Line::ServerLost { conn });
    }
    Err(LineFault::Unreadable)
}

/// An event of a connection and one word more.
fn at_two(alloc: Global, name: &str, conn: u64, word: &str) -> Result<Line, LineFault>
    ensures { Gives line_view result (at_two name.now conn word.now) }
{
    if name == "server" {
        let amount = amount_of(word)?;
        return Ok(Line::ToServer { conn, amount });
    }
    if name == "client" {
        let amount = amount_of(word)?;
        return Ok(Line::ToClient { conn, amount });
    }
    if name == "work" {
        return worked(conn, word);
    }
    if name == "foreign" {
        let bytes = bytes_of(alloc, word)?;
        return Ok(Line::Foreign { conn, bytes });
    }
    Err(LineFault::Unreadable)
}

fn amount_of(word: &str) -> Result<Amount, LineFault>
    ensures { Gives (λ a. a) result (amount_of word.now) }
{
    if word == "all" {
        return Ok(Amount::All);
    }
    match number_of(word) {
        Some(number) => Ok(Amount::Bytes(number as usize)),
        None => Err(LineFault::Unreadable),
    }
}

/// `work K all`.
fn worked(conn: u64, word: &str) -> Result<Line, LineFault>
    ensures { Gives line_view result
        (if bytes_eq word.now (codes "all") then Some (Work conn times.All) else None) }
{
    if word == "all" {
        let times = Times::All;
        return Ok(Line::Work { conn, times });
    }
    Err(LineFault::Unreadable)
}
