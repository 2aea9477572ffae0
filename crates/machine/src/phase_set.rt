//! Sets of phases.
ghost use Rattle.std.specs.Prelude.{◌≡◌, List, [], ◌∷◌, not};
ghost use Rattle.std.specs.List.{list_any};
ghost use Rattle.machine.specs.Following.{has, union, is_defunct};

use crate::states::Phase;
use std::marker::Model;

/// A set of phases.
#[derive(Clone, Copy, Debug)]
pub struct PhaseSet {
    fresh: bool,
    unauth: bool,
    ready: bool,
    streaming: bool,
    tx_ready: bool,
    tx_streaming: bool,
    halted: bool,
    defunct: bool,
}

impl Model for PhaseSet {
    ghost use Rattle.std.specs.Prelude.{List};
    ghost use Rattle.machine.specs.declared.states.Phase.{Phase};

    ghost Value = { List Phase };

    ghost use Rattle.machine.specs.Members.{members, fields, fields-members};

    ghost view = { members };

    ghost inverse = { fields };

    ghost inverse_ok = { λ a h. fields-members a };
}

impl PhaseSet {
    /// The set of no phase.
    pub fn empty() -> PhaseSet
        ensures { result ≡ [] }
    {
        PhaseSet {
            fresh: false,
            unauth: false,
            ready: false,
            streaming: false,
            tx_ready: false,
            tx_streaming: false,
            halted: false,
            defunct: false,
        }
    }

    /// The set of one phase.
    pub fn of(phase: Phase) -> PhaseSet
        ensures { result ≡ phase ∷ [] }
    {
        let mut set = PhaseSet::empty();
        match phase {
            Phase::Fresh => set.fresh = true,
            Phase::Unauth => set.unauth = true,
            Phase::Ready => set.ready = true,
            Phase::Streaming => set.streaming = true,
            Phase::TxReady => set.tx_ready = true,
            Phase::TxStreaming => set.tx_streaming = true,
            Phase::Halted => set.halted = true,
            Phase::Defunct => set.defunct = true,
        }
        set
    }

    /// Whether the phase is in the set.
    pub fn has(self, phase: Phase) -> bool
        ensures { result ≡ has phase self }
    {
        match phase {
            Phase::Fresh => self.fresh,
            Phase::Unauth => self.unauth,
            Phase::Ready => self.ready,
            Phase::Streaming => self.streaming,
            Phase::TxReady => self.tx_ready,
            Phase::TxStreaming => self.tx_streaming,
            Phase::Halted => self.halted,
            Phase::Defunct => self.defunct,
        }
    }

    /// Whether a phase other than Defunct is in the set.
    #[tactic(auto, using(crate::proofs::Gathered::some_live))]
    pub(crate) fn is_live(self) -> bool
        ensures { result ≡ list_any (λ p. not (is_defunct p)) self }
    {
        let opening = self.fresh | self.unauth;
        let serving = self.ready | self.streaming | self.tx_ready | self.tx_streaming;
        opening | serving | self.halted
    }

    /// The phases of either set.
    #[tactic(auto, using(crate::proofs::Sets::joined))]
    pub fn union(self, other: PhaseSet) -> PhaseSet
        ensures { result ≡ union self other }
    {
        PhaseSet {
            fresh: self.fresh | other.fresh,
            unauth: self.unauth | other.unauth,
            ready: self.ready | other.ready,
            streaming: self.streaming | other.streaming,
            tx_ready: self.tx_ready | other.tx_ready,
            tx_streaming: self.tx_streaming | other.tx_streaming,
            halted: self.halted | other.halted,
            defunct: self.defunct | other.defunct,
        }
    }
}
