//! Calls and paths that take no memory, given if there is none. Those that have no answer for want of it need no look.

use crate::asked::{Table, Unplayed, asking, requests, server};
use crate::brought::{brought, writes_of};
use crate::hunger::Hunger;
use crate::play::Play;
use crate::spelling::{SPELLED, decoded};
use bytes::BytesMut;
use client::{Client, SubmitFault};
use engine::{Commit, Engine, EntryId, FixedTable, Write};
use machine::State;
use messages::{Count, Mode, Request, write_request_run};
use packstream::writing::Output;
use packstream::{Packed, size};
use server::{Cause, Took, What, Worked};
use std::alloc::Global;
use wire::{Dechunk, Version, WireFault, Wish};
use world::{Event, Peer, Refused, Seen};

/// A handshake for 5.1 and 4.4.
const OFFER: &[u8] = &[
    0x60, 0x60, 0xB0, 0x17, 0, 0, 1, 5, 0, 0, 4, 4, 0, 0, 0, 0, 0, 0, 0, 0,
];

const RESET: &[u8] = &[0, 2, 0xB0, 0x0F, 0, 0];

/// A session of 32 requests that wait, one that has ended, and one at which nothing waits.
fn open_three(server: &mut Table) -> Result<(), Unplayed> {
    let (full, ended, idle) = (server.open()?, server.open()?, server.open()?);
    server.feed(full, OFFER)?;
    for _place in 0..32 {
        server.feed(full, RESET)?;
    }
    server.feed(ended, &[0; 20])?;
    server.feed(idle, OFFER)?;
    Ok(())
}

/// A session of which 65,536 bytes wait to go: 4 of the version, and 2 of each no-op.
fn open_unsent(server: &mut Table) -> Result<(), Unplayed> {
    let unsent = server.open()?;
    server.feed(unsent, OFFER)?;
    for _noop in 0..32_766 {
        server.noop(unsent)?;
    }
    Ok(())
}

fn four(alloc: Global) -> Result<Table, Unplayed> {
    let mut server = server(alloc)?;
    open_three(&mut server)?;
    open_unsent(&mut server)?;
    Ok(server)
}

fn is_took(took: Result<Took, server::Refused>, what: What) -> bool {
    matches!(took, Ok(took) if took.used == 0 && took.what == what)
}

/// What the first three sessions answer without memory.
fn sessions_answer(server: &mut Table) -> bool {
    let is_fed = is_took(server.feed(0, RESET), What::Full)
        && is_took(server.feed(1, RESET), What::Closed);
    let is_worked = server.work(1) == Ok(Worked::Ended(Cause::BadMagic))
        && server.work(2) == Ok(Worked::Idle);
    let is_put = server.noop(1) == Ok(false);
    let stands = server.state(0) == Some(State::Fresh) && server.cause(1) == Some(Cause::BadMagic);
    let is_empty = server.engine().ledger().is_empty();
    let lost = (server.lost(0), server.lost(1), server.lost(7));
    is_fed
        && is_worked
        && is_put
        && stands
        && is_empty
        && lost == (Some(Cause::Lost), Some(Cause::BadMagic), None)
}

/// What the fourth answers.
fn unsent_answers(server: &mut Table) -> bool {
    server.work(3) == Ok(Worked::Full) && server.noop(3) == Ok(false)
}

pub fn sessions(alloc: Global) -> Result<bool, Unplayed> {
    let mut server = four(alloc)?;
    let mut hunger = Hunger::new(alloc)?;
    hunger.starve();
    let held = sessions_answer(&mut server) && unsent_answers(&mut server);
    hunger.feast();
    Ok(held)
}

/// A client whose pipeline is full.
fn full(alloc: Global) -> Result<Client, Unplayed> {
    let mut client = asking(alloc)?;
    for _place in 8..32 {
        client.submit(Request::Reset)?;
    }
    Ok(client)
}

/// What one client answers that isn't lost before, and one whose pipeline is full.
fn clients_answer(client: &mut Client, many: &mut Client) -> bool {
    let is_refused = matches!(client.submit(Request::Commit), Err(SubmitFault::NotAllowed));
    let is_full = matches!(many.submit(Request::Reset), Err(SubmitFault::PipelineFull));
    let losses = client.lost();
    let closed = client.submit(Request::Begin {
        mode: Mode::Read,
        token: None,
    });
    is_refused
        && is_full
        && losses.as_slice().len() == 8
        && matches!(closed, Err(SubmitFault::Closed))
}

/// A client refuses what isn't allowed, what is too much, and all when it has ended.
pub fn clients(alloc: Global) -> Result<bool, Unplayed> {
    let mut client = asking(alloc)?;
    let mut many = full(alloc)?;
    let mut hunger = Hunger::new(alloc)?;
    hunger.starve();
    let held = clients_answer(&mut client, &mut many);
    hunger.feast();
    Ok(held)
}

/// Past its limit, a message is refused again and again.
pub fn chunks(alloc: Global) -> Result<bool, Unplayed> {
    let mut chunks = Dechunk::new(alloc);
    let _ = chunks.feed(&[0xFF, 0xFF]);
    for _part in 0..65535 / 5 {
        let _ = chunks.feed(&[0; 5]);
    }
    let _ = chunks.feed(&[0, 2]);
    let mut hunger = Hunger::new(alloc)?;
    hunger.starve();
    let again = chunks.feed(&[0, 2, 1]);
    hunger.feast();
    Ok(matches!(again, Err(WireFault::TooBig { .. })))
}

/// Checking a value and asking for its size.
pub fn spellings(alloc: Global) -> Result<bool, Unplayed> {
    let good = decoded(alloc)?.into_value();
    let mut hunger = Hunger::new(alloc)?;
    hunger.starve();
    let packed = Packed::new(good);
    let length = match &packed {
        Ok(packed) => size(packed),
        Err(_) => 0,
    };
    hunger.feast();
    Ok(length == SPELLED.len())
}

/// A request of each kind.
fn each_kind(alloc: Global) -> Result<Vec<Request>, Unplayed> {
    let mut kinds = requests(alloc)?;
    kinds.push(Request::Logoff)?;
    kinds.push(Request::Discard(Count::All))?;
    kinds.push(Request::Rollback)?;
    kinds.push(Request::Reset)?;
    kinds.push(Request::Goodbye)?;
    Ok(kinds)
}

/// Puts the runs of these requests.
fn put_all(requests: &[Request], out: &mut Output) -> bool {
    for request in requests {
        if write_request_run(Version::V51, request, out).is_err() {
            return false;
        }
    }
    true
}

/// A server at which a client's requests wait: a login, a transaction and a result.
fn asked_server(alloc: Global) -> Result<Table, Unplayed> {
    let mut server = server(alloc)?;
    let conn = server.open()?;
    server.feed(conn, OFFER)?;
    let mut out = Output::new(alloc);
    let asked = requests(alloc)?;
    if !put_all(&asked, &mut out) {
        return Err(Unplayed);
    }
    let mut rest = out.as_slice();
    for _request in 0..asked.len() {
        let took = server.feed(conn, rest)?;
        rest = rest.get(took.used..).unwrap_or(&[]);
    }
    Ok(server)
}

/// Whether so many steps write a summary each.
fn writes(server: &mut Table, steps: usize) -> bool {
    for _step in 0..steps {
        if !matches!(server.work(0), Ok(Worked::Wrote { .. })) {
            return false;
        }
    }
    true
}

/// Requests of each kind, summaries and rows are put where there is room for them, by way of nothing beside it.
pub fn puts(alloc: Global) -> Result<bool, Unplayed> {
    let kinds = each_kind(alloc)?;
    let mut out = Output::marked(BytesMut::with_capacity(alloc, 4096)?, 0);
    let mut server = asked_server(alloc)?;
    let mut hunger = Hunger::new(alloc)?;
    hunger.starve();
    let said = put_all(&kinds, &mut out) && writes(&mut server, 3);
    hunger.feast();
    let opened = writes(&mut server, 4);
    server.sent(0, usize::MAX);
    hunger.starve();
    let rows = server.work(0) == Ok(Worked::Row) && server.write_rows(0) == 2;
    hunger.feast();
    Ok(said && opened && rows)
}

/// A transaction under the token of the table's entry, and what is answered to it.
#[derive(Drop)]
struct Again {
    token: String,
    writes: Vec<Write>,
    answer: Commit,
}

fn transaction(alloc: Global, value: i64, answer: Commit) -> Result<Again, Unplayed> {
    Ok(Again {
        token: String::from_str(alloc, "t1")?,
        writes: writes_of(alloc, value)?,
        answer,
    })
}

/// What is known of it is what its commit answers.
fn commits_again(table: &mut FixedTable, again: Again) -> bool {
    let Again {
        token,
        writes,
        answer,
    } = again;
    let id = EntryId {
        conn: 1,
        ordinal: 0,
    };
    let is_known = table.known(token.as_str(), &writes) == Some(answer);
    let told = table.commit(id, Some(token), writes);
    is_known && matches!(told, Ok(told) if told == answer)
}

/// Equal writes and other writes under a token that stands.
pub fn tokens(alloc: Global) -> Result<bool, Unplayed> {
    let mut table = brought(alloc)?;
    let equal = transaction(alloc, 1, Commit::Repeat(1))?;
    let other = transaction(alloc, 2, Commit::Clash)?;
    let mut hunger = Hunger::new(alloc)?;
    hunger.starve();
    let held = commits_again(&mut table, equal) && commits_again(&mut table, other);
    hunger.feast();
    Ok(held && table.ledger().len() == 1)
}

/// What a world answers to an event if there is no memory, and whether its report stands as it was.
fn stepped(hunger: &mut Hunger, play: &mut Play, event: Event) -> (Result<Seen, Refused>, bool) {
    hunger.starve();
    let before = play.digest();
    let seen = play.world.step(event);
    let is_same = play.digest() == before;
    hunger.feast();
    (seen, is_same)
}

fn opened(alloc: Global) -> Result<Play, Unplayed> {
    let mut play = Play::over(alloc, FixedTable::new(alloc))?;
    let _ = play.give(&Event::Open(Peer::Ours(Wish::Only(Version::V51))));
    for _place in 1..16 {
        let _ = play.give(&Event::Open(Peer::Foreign));
    }
    Ok(play)
}

fn is_refused(hunger: &mut Hunger, play: &mut Play, event: Event, fault: Refused) -> bool {
    let (seen, is_same) = stepped(hunger, play, event);
    is_same && matches!(seen, Err(other) if other == fault)
}

fn is_nothing(hunger: &mut Hunger, play: &mut Play, event: Event) -> bool {
    let (seen, _) = stepped(hunger, play, event);
    matches!(seen, Ok(Seen::Nothing))
}

/// Events that are refused but for want of memory.
fn refuses(alloc: Global, hunger: &mut Hunger, play: &mut Play) -> bool {
    is_refused(
        hunger,
        play,
        Event::Open(Peer::Foreign),
        Refused::SessionsFull,
    ) && is_refused(hunger, play, Event::Work(16), Refused::NoSuchConnection)
        && is_refused(
            hunger,
            play,
            Event::Foreign(0, Vec::new(alloc)),
            Refused::WrongPeer,
        )
        && is_refused(
            hunger,
            play,
            Event::Submit(1, Request::Reset),
            Refused::WrongPeer,
        )
        && is_refused(hunger, play, Event::ToServer(2, 7), Refused::WrongPeer)
        && is_refused(hunger, play, Event::ClientLost(3), Refused::WrongPeer)
}

/// Events that are refused but for want of memory, a cut and a client's loss.
pub fn worlds(alloc: Global) -> Result<bool, Unplayed> {
    let mut play = opened(alloc)?;
    let mut hunger = Hunger::new(alloc)?;
    Ok(
        refuses(alloc, &mut hunger, &mut play)
            && is_nothing(&mut hunger, &mut play, Event::Cut(1))
            && is_nothing(&mut hunger, &mut play, Event::ClientLost(0)),
    )
}
