//! One event of a world, and what is noted of it.
ghost use Rattle.std.specs.Prelude.{◌≡◌, List, Some, Err, false};
ghost use Rattle.std.specs.Option.{option_map};
ghost use Rattle.engine.specs.Views.{EntryView};
ghost use Rattle.world.specs.World.{World as WorldSeen, Reached};
ghost use Rattle.world.specs.Views.{event_of, seen_of};
ghost use Rattle.world.specs.Turns.{FitsWorld, setting_of};
ghost use Rattle.cli_replay.specs.Events.{fed_code, moves_seen, seen_code, submit_code, worked_code, works};
ghost use Rattle.cli_replay.specs.Running.{LeadsBy, SettlesBy, Stepped};

use cli_output::refusal_code;
use client::SubmitFault;
use engine::{Engine, Gate};
use server::{What, Worked};
use std::alloc::AllocError;
use world::{Event, Refused, Seen, World};

/// The code of a step that found a session full.
const FULL: &str = "Full";

/// What an event came to.
#[derive(Clone, Copy, Debug)]
pub struct Step {
    /// The code that is noted of it: of a refused request, of an event that can't be, or `Full`.
    pub code: Option<&'static str>,
    /// Whether something moved.
    pub goes_on: bool,
}

/// One event; or want of memory.
pub(crate) fn take_step<E: Engine, G: Gate>(
    world: &mut World<E, G>,
    event: Event,
) -> Result<Step, AllocError>
    ensures { (gate : G) (brought : List EntryView) (w : WorldSeen)
        → Reached (setting_of E.answer G.welcomes gate) brought w
        → FitsWorld E.entries world.old gate w
        → LeadsBy E.entries (setting_of E.answer G.welcomes gate) gate brought
        (λ s. Stepped (setting_of E.answer G.welcomes gate) w (event_of event) s) result world.new }
{
    settled(world.step(event))
}

/// What a world's answer came to.
fn settled(answer: Result<Seen, Refused>) -> Result<Step, AllocError>
    ensures { SettlesBy answer result }
{
    match answer {
        Ok(seen) => Ok(Step {
            code: seen_code(&seen),
            goes_on: moves(&seen),
        }),
        Err(refused) => refusal(refused),
    }
}

/// What a refusal of a world came to.
fn refusal(refused: Refused) -> Result<Step, AllocError>
    ensures { SettlesBy (Err refused) result }
{
    match refused {
        Refused::NoSuchConnection => Ok(noted("V1")),
        Refused::WrongPeer => Ok(noted("V2")),
        Refused::SessionsFull => Ok(noted("V3")),
        Refused::Memory => Err(AllocError),
    }
}

/// A refusal with its code.
fn noted(code: &'static str) -> Step
    ensures { (option_map (λ t. t.now) result.code ≡ Some code.now) × (result.goes_on ≡ false) }
{
    Step {
        code: Some(code),
        goes_on: false,
    }
}

/// The code of what is seen, if it has one.
fn seen_code(seen: &Seen) -> Option<&'static str>
    ensures { option_map (λ t. t.now) result ≡ seen_code (seen_of seen.now) }
{
    match seen {
        Seen::Opened(_) => None,
        Seen::Submitted(answer) => submit_code(answer),
        Seen::Fed(took) => fed_code(took.what),
        Seen::Gave { .. } => None,
        Seen::Worked(worked) => worked_code(*worked),
        Seen::Noop(_) => None,
        Seen::Nothing => None,
    }
}

fn submit_code(answer: &Result<u64, SubmitFault>) -> Option<&'static str>
    ensures { option_map (λ t. t.now) result ≡ submit_code answer.now }
{
    match answer {
        Ok(_) => None,
        Err(fault) => refusal_code(fault),
    }
}

fn fed_code(what: What) -> Option<&'static str>
    ensures { option_map (λ t. t.now) result ≡ fed_code what }
{
    match what {
        What::Full => Some(FULL),
        _ => None,
    }
}

fn worked_code(worked: Worked) -> Option<&'static str>
    ensures { option_map (λ t. t.now) result ≡ worked_code worked }
{
    match worked {
        Worked::Full => Some(FULL),
        _ => None,
    }
}

/// Whether something moved.
fn moves(seen: &Seen) -> bool
    ensures { result ≡ moves_seen (seen_of seen.now) }
{
    match seen {
        Seen::Fed(took) => took.used > 0,
        Seen::Gave { used, .. } => *used > 0,
        Seen::Worked(worked) => works(*worked),
        _ => false,
    }
}

fn works(worked: Worked) -> bool
    ensures { result ≡ works worked }
{
    match worked {
        Worked::Row => true,
        Worked::Wrote { .. } => true,
        _ => false,
    }
}
