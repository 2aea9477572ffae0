//! Who is told of each end.
ghost use Rattle.std.specs.Prelude.{Option, List, [], ◌∷◌};
ghost use Rattle.server_event_loop.specs.Standing.{Told};
ghost use Rattle.server_event_loop.specs.Running.{TellsMore};

use crate::Parting;

/// Who is told of each connection whose session was given up.
pub trait Journal {
    // The ends that were told, in order, if they are known.
    ghost told: { Self → Option (List Told) };

    /// The session of the connection with this number was given up so.
    fn note(&mut self, conn: u64, parting: Parting)
        ensures { TellsMore (told self.old) (told self.new)
            (record { conn = conn; parting = parting } ∷ []) };
}
