//! What a shell tells on standard error. None of it takes memory.
ghost use Rattle.client.specs.Notes.{note};
ghost use Rattle.cli_output.specs.Stopping.{Gets};
ghost use Rattle.cli_output.specs.Telling.{lost_line};
ghost use Rattle.cli_sessions.specs.Printing.{summary_line};
ghost use Rattle.cli_sessions.specs.Talking.{greeting_of, losses_text};

use cli_output::{heard_line, outcome_name, tell, version_name};
use client::{Heard, Outcome};
use itoa::Buffer;
use streams::Sink;
use wire::Version;

/// Tells the version that was taken and how a line looks, or that there is no conversation.
pub(crate) fn greet<E: Sink>(has_ended: bool, version: Version, err: &mut E)
    ensures { Gets (E.has_failed err.old) (E.has_failed err.new) (E.taken err.old) (E.taken err.new)
        (greeting_of has_ended version) }
{
    if has_ended {
        tell(b"no conversation\n", err);
        return;
    }
    tell(b"version ", err);
    tell(version_name(version).as_bytes(), err);
    tell(
        b"; each line is a request: hello, logon [bad], logoff, goodbye, reset, run TEXT HEX [r] [token T], begin [r] [token T], commit, rollback, discard N or pull N\n",
        err,
    );
}

/// Tells `heard ORDINAL OUTCOME PHASE` of a summary, and of nothing else.
pub(crate) fn put_unprinted<E: Sink>(heard: &Heard, err: &mut E)
    ensures { Gets (E.has_failed err.old) (E.has_failed err.new) (E.taken err.old) (E.taken err.new)
        (summary_line (note heard.now)) }
{
    if let Heard::Summary {
        ordinal,
        phase,
        outcome,
        ..
    } = heard
    {
        tell(heard_line(*ordinal, *outcome, *phase).as_bytes(), err);
    }
}

/// Tells `lost ORDINAL OUTCOME` of each request that has no answer.
pub(crate) fn put_losses<E: Sink>(losses: &[(u64, Outcome)], err: &mut E)
    ensures { Gets (E.has_failed err.old) (E.has_failed err.new) (E.taken err.old) (E.taken err.new)
        (losses_text losses.now) }
{
    for (ordinal, outcome) in losses {
        put_loss(*ordinal, *outcome, err);
    }
}

fn put_loss<E: Sink>(ordinal: u64, outcome: Outcome, err: &mut E)
    ensures { Gets (E.has_failed err.old) (E.has_failed err.new) (E.taken err.old) (E.taken err.new)
        (lost_line (ordinal, outcome)) }
{
    let mut digits = Buffer::new();
    tell(b"lost ", err);
    tell(digits.format(ordinal).as_bytes(), err);
    tell(b" ", err);
    tell(outcome_name(outcome).as_bytes(), err);
    tell(b"\n", err);
}
