//! A list of events, one after the other.
ghost use Rattle.std.specs.Prelude.{◌≡◌, List, [], map, IfOk, IfErr, OnOk};
ghost use Rattle.engine.specs.Views.{EntryView};
ghost use Rattle.world.specs.World.{World as WorldSeen, Reached};
ghost use Rattle.world.specs.Views.{event_of};
ghost use Rattle.world.specs.Turns.{FitsWorld, setting_of, Goes, GoesBy};
ghost use Rattle.world.specs.Replayed.{Replayed};

use crate::kinds::{Event, Refused, Seen};
use crate::world::World;
use engine::{Engine, FixedTable, Gate, OneUser};
use std::alloc::{AllocError, Global};

/// The world after one step for each event in order, over an empty `FixedTable` and the gate of `user` with `pass`. Events that V1
/// to V3 refuse are left out, and no others; V4 if a step, or making the gate, finds no memory.
pub fn replay(alloc: Global, events: &[Event]) -> Result<World<FixedTable, OneUser>, Refused>
    ensures ok { IfOk result (Replayed (map event_of events.now)) }
    ensures fault { IfErr result (λ e. e ≡ Refused.Memory) }
{
    let Ok(gate) = OneUser::new(alloc, "user", "pass") else {
        return Err(Refused::Memory);
    };
    let mut world = World::new(alloc, FixedTable::new(alloc), gate);
    let Ok(()) = follow_all(&mut world, events) else {
        return Err(Refused::Memory);
    };
    Ok(world)
}

/// Each event in order.
fn follow_all<E: Engine, G: Gate>(
    world: &mut World<E, G>,
    events: &[Event],
) -> Result<(), AllocError>
    ensures { (gate : G) (brought : List EntryView) (w : WorldSeen)
        → Goes E.entries (setting_of E.answer G.welcomes gate) gate brought w [] world.old
        → OnOk result (Goes E.entries (setting_of E.answer G.welcomes gate) gate brought w
        (map event_of events.now) world.new) }
{
    for event in events {
        follow(world, event)?;
    }
    Ok(())
}

/// One event, which V1 to V3 may refuse.
fn follow<E: Engine, G: Gate>(world: &mut World<E, G>, event: &Event) -> Result<(), AllocError>
    ensures { (gate : G) (brought : List EntryView) (w : WorldSeen)
        → Reached (setting_of E.answer G.welcomes gate) brought w
        → FitsWorld E.entries world.old gate w
        → OnOk result (GoesBy E.entries (setting_of E.answer G.welcomes gate) gate brought w
        (event_of event.now) world.new) }
{
    let event = event.clone()?;
    settled(world.step(event))
}

/// Whether an event was done or may be left out.
fn settled(answer: Result<Seen, Refused>) -> Result<(), AllocError>
    ensures { OnOk result (answer ≡ Err Refused.Memory → ⊥) }
{
    let Err(refused) = answer else {
        return Ok(());
    };
    left_out(refused)
}

/// Whether a refused event may be left out.
fn left_out(refused: Refused) -> Result<(), AllocError>
    ensures { OnOk result (refused ≡ Refused.Memory → ⊥) }
{
    match refused {
        Refused::Memory => Err(AllocError),
        _ => Ok(()),
    }
}
