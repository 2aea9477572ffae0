//! The calls that C sees. Each is the call of what the handle holds, in numbers. A null handle is answered by 100 and stays null, but that
//! `bolt_open` fills it and `bolt_close` leaves it so.

ghost use Rattle.std.specs.Prelude.{◌≡◌, None};
ghost use Rattle.bolt_c.specs.Values.{head_at};
ghost use Rattle.bolt_c.specs.Answers.{held_rest};
ghost use Rattle.bolt_c.specs.Codes.{wish_of, OnHeld, Opens, Asking, Unsending, Sending, Feeding, Concluding, Messaging, response_in, row_in, Counting, Dropping, Reading, Losing, Settling, StandsAt};

use crate::codes::{
    Asked, MEMORY, NO_CLIENT, NO_VALUE, NO_VERSION, NOT_ALLOWED, OK, Standing, message_code,
    outcome_code, refusal_code, stop_code, tell_rule, wish,
};
use crate::handle::Handle;
use crate::held::Held;
use crate::values::{Value, value_at};
use std::alloc::Global;

/// Holds a new client, whose offer is to be sent, and of whose requests at most so many rows each are kept; what it held before is freed. Answers
/// 10 if the wish is none of 0, 44, 50 and 51, and 5 for want of memory: nothing has changed then.
#[unsafe(no_mangle)]
pub extern "C" fn bolt_open(alloc: Global, handle: &mut Handle, versions: u32, rows: usize) -> u32
    ensures { Opens handle.old.held (wish_of versions) rows result handle.new.held }
{
    let Some(wish) = wish(versions) else {
        return NO_VERSION;
    };
    match Held::new(alloc, wish, rows) {
        Ok(held) => {
            handle.put(alloc, held);
            OK
        }
        Err(_) => MEMORY,
    }
}

/// Frees what it holds.
#[unsafe(no_mangle)]
pub extern "C" fn bolt_close(alloc: Global, handle: &mut Handle)
    ensures { handle.new.held ≡ None }
{
    drop(handle.take(alloc));
}

/// Asks the request of the bytes of a message: it waits, with this ordinal, and its bytes are to be sent. Else it answers the first of
/// 4, 1 before a version is known, 8, 1, 2, 7 and 3, or 5 for want of memory: nothing has changed then, but that 8 and 7 tell which rule the
/// message breaks, and where.
#[unsafe(no_mangle)]
pub extern "C" fn bolt_ask(
    alloc: Global,
    handle: &mut Handle,
    message: &[u8],
    asked: &mut Asked,
) -> u32
    ensures { OnHeld handle.old.held handle.new.held
        ((result ≡ 100) × (asked.new ≡ asked.old))
        (Asking message.now result asked.old asked.new) }
{
    let Some(mut held) = handle.take(alloc) else {
        return NO_CLIENT;
    };
    let answer = held.ask(alloc, message);
    handle.put(alloc, held);
    match answer {
        Ok(ordinal) => {
            *asked = Asked {
                ordinal,
                rule: 0,
                place: 0,
            };
            OK
        }
        Err(refusal) => {
            let code = refusal_code(&refusal);
            tell_rule(refusal, asked);
            code
        }
    }
}

/// The bytes that aren't sent go into the buffer, as many as there is room for; tells how many there are. They stay. Takes no memory.
#[unsafe(no_mangle)]
pub extern "C" fn bolt_unsent(
    alloc: Global,
    handle: &mut Handle,
    into: &mut [u8],
    length: &mut usize,
) -> u32
    ensures { OnHeld handle.old.held handle.new.held
        ((result ≡ 100) × (into.new ≡ into.old) × (length.new ≡ length.old))
        (Unsending into.old result into.new length.new) }
{
    let Some(held) = handle.take(alloc) else {
        return NO_CLIENT;
    };
    *length = held.unsent(into);
    handle.put(alloc, held);
    OK
}

/// The first of the bytes that aren't sent are taken off, so many, or all if there are fewer. Takes no memory.
#[unsafe(no_mangle)]
pub extern "C" fn bolt_sent(alloc: Global, handle: &mut Handle, count: usize) -> u32
    ensures { OnHeld handle.old.held handle.new.held (result ≡ 100) (Sending count result) }
{
    let Some(mut held) = handle.take(alloc) else {
        return NO_CLIENT;
    };
    held.tracking.sent(count);
    handle.put(alloc, held);
    OK
}

/// Uses bytes of the server, item after item, and tells how many, whatever it answers: what they say is in the account. Answers 0 if none is left,
/// and if as many rows of the one request that waits are held as may be: it goes on once they are dropped. Else 4 if the client has ended, 6
/// at a bad answer, 12 if that is a message of more than 65,536 bytes, 5 if memory runs out: then the rest may be fed again.
#[unsafe(no_mangle)]
pub extern "C" fn bolt_feed(
    alloc: Global,
    handle: &mut Handle,
    piece: &[u8],
    used: &mut usize,
) -> u32
    ensures { OnHeld handle.old.held handle.new.held
        ((result ≡ 100) × (used.new ≡ used.old))
        (Feeding piece.now result used.new) }
{
    let Some(mut held) = handle.take(alloc) else {
        return NO_CLIENT;
    };
    let (count, stop) = held.feed(piece);
    let is_large = held.tracking.message_is_too_large();
    handle.put(alloc, held);
    *used = count;
    stop_code(is_large, stop)
}

/// Tells what became of a request, 6 while nothing is known. Takes no memory.
#[unsafe(no_mangle)]
pub extern "C" fn bolt_outcome(
    alloc: Global,
    handle: &mut Handle,
    ordinal: u64,
    outcome: &mut u32,
) -> u32
    ensures { OnHeld handle.old.held handle.new.held
        ((result ≡ 100) × (outcome.new ≡ outcome.old))
        (Concluding ordinal result outcome.new) }
{
    let Some(held) = handle.take(alloc) else {
        return NO_CLIENT;
    };
    *outcome = outcome_code(held.tracking.outcome(ordinal));
    handle.put(alloc, held);
    OK
}

/// The bytes of a request's summary go into the buffer, as many as there is room for; tells how many there are. Answers 9 if none has come, 7
/// if it can't be written, 5 for want of memory: nothing has changed then.
#[unsafe(no_mangle)]
pub extern "C" fn bolt_response(
    alloc: Global,
    handle: &mut Handle,
    ordinal: u64,
    into: &mut [u8],
    length: &mut usize,
) -> u32
    ensures { OnHeld handle.old.held handle.new.held
        ((result ≡ 100) × (into.new ≡ into.old) × (length.new ≡ length.old))
        (Messaging (response_in ordinal) into.old result into.new length.old length.new) }
{
    let Some(held) = handle.take(alloc) else {
        return NO_CLIENT;
    };
    let answer = held.response(alloc, ordinal, into);
    handle.put(alloc, held);
    match answer {
        Ok(count) => {
            *length = count;
            OK
        }
        Err(fault) => message_code(fault),
    }
}

/// Tells how many rows are held of a request, and how many came behind them that aren't kept. Takes no memory.
#[unsafe(no_mangle)]
pub extern "C" fn bolt_rows(
    alloc: Global,
    handle: &mut Handle,
    ordinal: u64,
    count: &mut u64,
    left: &mut u64,
) -> u32
    ensures { OnHeld handle.old.held handle.new.held
        ((result ≡ 100) × (count.new ≡ count.old) × (left.new ≡ left.old))
        (Counting ordinal result count.new left.new) }
{
    let Some(held) = handle.take(alloc) else {
        return NO_CLIENT;
    };
    *count = held.tracking.rows(ordinal).len() as u64;
    *left = held.tracking.rows_left(ordinal);
    handle.put(alloc, held);
    OK
}

/// The bytes of a row that is held of a request, as `bolt_response` has those of its summary. Answers 9 if none is held at the index.
#[unsafe(no_mangle)]
pub extern "C" fn bolt_row(
    alloc: Global,
    handle: &mut Handle,
    ordinal: u64,
    index: u64,
    into: &mut [u8],
    length: &mut usize,
) -> u32
    ensures { OnHeld handle.old.held handle.new.held
        ((result ≡ 100) × (into.new ≡ into.old) × (length.new ≡ length.old))
        (Messaging (row_in ordinal index) into.old result into.new length.old length.new) }
{
    let Some(held) = handle.take(alloc) else {
        return NO_CLIENT;
    };
    let answer = held.row(alloc, ordinal, index, into);
    handle.put(alloc, held);
    match answer {
        Ok(count) => {
            *length = count;
            OK
        }
        Err(fault) => message_code(fault),
    }
}

/// The rows of a request aren't held any more. Takes no memory.
#[unsafe(no_mangle)]
pub extern "C" fn bolt_drop_rows(alloc: Global, handle: &mut Handle, ordinal: u64) -> u32
    ensures { OnHeld handle.old.held handle.new.held (result ≡ 100) (Dropping ordinal result) }
{
    let Some(mut held) = handle.take(alloc) else {
        return NO_CLIENT;
    };
    drop(held.tracking.take_rows(ordinal));
    handle.put(alloc, held);
    OK
}

/// Reads the value that begins at a place of the bytes, or the head of one that has members, and moves the place behind it. Answers 11 if none
/// begins there, or it is cut off: nothing has changed then. Takes no memory.
#[unsafe(no_mangle)]
pub extern "C" fn bolt_value_at(bytes: &[u8], at: &mut usize, value: &mut Value) -> u32
    ensures { Reading (head_at bytes.now at.old) result at.old value.old at.new value.new }
{
    let Some((read, after)) = value_at(bytes, *at) else {
        return NO_VALUE;
    };
    *value = read;
    *at = after;
    OK
}

/// No byte comes any more: the client has ended, and the account has the outcome of each request that waited. Takes no memory.
#[unsafe(no_mangle)]
pub extern "C" fn bolt_lose(alloc: Global, handle: &mut Handle) -> u32
    ensures { OnHeld handle.old.held handle.new.held (result ≡ 100) (Losing result) }
{
    let Some(mut held) = handle.take(alloc) else {
        return NO_CLIENT;
    };
    held.tracking.lost();
    handle.put(alloc, held);
    OK
}

/// What was told is forgotten. Answers 1 if a request waits: nothing has changed then. Takes no memory.
#[unsafe(no_mangle)]
pub extern "C" fn bolt_settle(alloc: Global, handle: &mut Handle) -> u32
    ensures { OnHeld handle.old.held handle.new.held (result ≡ 100) (Settling result) }
{
    let Some(mut held) = handle.take(alloc) else {
        return NO_CLIENT;
    };
    let settled = held.tracking.settle();
    handle.put(alloc, held);
    if settled { OK } else { NOT_ALLOWED }
}

/// Where the client stands. Takes no memory.
#[unsafe(no_mangle)]
pub extern "C" fn bolt_state(alloc: Global, handle: &mut Handle, state: &mut Standing) -> u32
    ensures { OnHeld handle.old.held handle.new.held
        ((result ≡ 100) × (state.new ≡ state.old))
        (λ old new. (result ≡ 0) × (new ≡ old) × StandsAt (held_rest old) state.new) }
{
    let Some(held) = handle.take(alloc) else {
        return NO_CLIENT;
    };
    *state = held.standing();
    handle.put(alloc, held);
    OK
}
