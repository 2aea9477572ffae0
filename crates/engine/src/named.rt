//! A gate under a name of its own.
ghost use Rattle.std.specs.Prelude.{◌≡◌, ◌<◌, ◌≤◌, ◌↔◌, length, string_bytes, IfOk, IfErr, IsOk};
ghost use Rattle.engine.specs.Limits.{max_agent};

use crate::{Gate, MAX_AGENT};

/// A gate that lets in whom the gate inside lets in, and has a server tell this name in its answer to HELLO. Neo4j's own drivers take no server
/// whose name doesn't begin with `Neo4j/`.
#[derive(Debug, Drop)]
pub struct Named<G> {
    gate: G,
    agent: String,
    ghost short: { length (string_bytes agent) ≤ max_agent },
}

/// A gate, and a text that is no name of a server.
#[derive(Debug, Drop)]
pub struct Unnamed<G> {
    pub gate: G,
    pub agent: String,
}

impl<G: Gate> Named<G> {
    ghost use Rattle.engine.specs.Kept.{named_welcome};
    ghost use Rattle.engine.specs.Welcomes.{IsNamed};

    /// The gate under this name. A name that is empty or has more than 40 bytes is refused: both come back. Takes no memory.
    pub fn new(gate: G, agent: String) -> Result<Named<G>, Unnamed<G>>
        ensures named { IfOk result
            (λ named. IsNamed (G.welcomes gate) (string_bytes agent)
            (named_welcome G.welcomes named)) }
        ensures taken { IsOk result
            ↔ ((0 < length (string_bytes agent)) × (length (string_bytes agent) ≤ max_agent)) }
        ensures gate { IfErr result (λ back. back.gate ≡ gate) }
        ensures agent { IfErr result (λ back. string_bytes back.agent ≡ string_bytes agent) }
    {
        if agent.is_empty() || agent.len() > MAX_AGENT {
            return Err(Unnamed { gate, agent });
        }
        Ok(Named { gate, agent })
    }
}

impl<G: Gate> Gate for Named<G> {
    ghost use Rattle.engine.specs.Kept.{named_welcome};

    ghost welcomes = { named_welcome G.welcomes };

    fn check(&self, principal: &str, credentials: &str) -> bool {
        self.gate.check(principal, credentials)
    }

    fn agent(&self) -> &str {
        self.agent.as_str()
    }
}
