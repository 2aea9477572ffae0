//! The name that a server tells, lent by its gate.
ghost use Rattle.std.specs.Prelude.{◌≡◌, ◌≤◌, length};
ghost use Rattle.engine.specs.Limits.{max_agent};

use engine::Gate;

/// The name that a server tells in its answer to HELLO.
#[derive(Clone, Copy)]
pub(crate) struct Agent<'a> {
    pub(crate) name: &'a str,
    ghost short: { length name.now ≤ max_agent },
}

impl<'a> Agent<'a> {
    /// The name of a server with this gate.
    pub(crate) fn of<G: Gate>(gate: &'a G) -> Agent<'a>
        ensures { result.name.now ≡ (G.welcomes gate.entry.now).agent }
    {
        Agent { name: gate.agent() }
    }
}
