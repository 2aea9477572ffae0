//! The journal of a server, printed a line for each connection.
ghost use Rattle.std.specs.Prelude.{◌≡◌, None, [], ◌∷◌};
ghost use Rattle.std.specs.Fmt.{decimal};
ghost use Rattle.cli_output.specs.Names.{cause_code};
ghost use Rattle.cli_output.specs.Telling.{conn_line};
ghost use Rattle.cli_output.specs.Stopping.{Gets};
ghost use Rattle.server_event_loop.specs.Running.{TellsMore};
ghost use Rattle.cli_serve.specs.Printing.{cause_of};

use cli_output::{cause_code, tell};
use itoa::Buffer;
use server::Cause;
use server_event_loop::{Journal, Parting};
use std::io::Eprint;
use streams::{Sink, write_all};

/// The journal of a server: prints `conn K En` of each connection whose session was given up, its number and the cause of its end. That a line
/// isn't taken is said on standard error, the first time alone. Takes no memory.
#[derive(Drop)]
pub(crate) struct Printed<'a, R, O> {
    rt: &'a R,
    out: &'a mut O,
    has_failed: bool,
}

impl<'a, R: Eprint, O: Sink> Printed<'a, R, O> {
    /// Prints so.
    pub(crate) fn new(rt: &'a R, out: &'a mut O) -> Printed<'a, R, O> {
        Printed {
            rt,
            out,
            has_failed: false,
        }
    }
}

/// The cause that is printed: `Lost` and the like, whether or not all that the session had said was taken out.
fn cause_of(parting: Parting) -> Cause
    ensures { result ≡ cause_of parting }
{
    match parting {
        Parting::Whole(cause) | Parting::Cut(cause) => cause,
    }
}

/// Writes a number in decimal, as far as it is taken.
fn tell_number<O: Sink>(number: u64, out: &mut O)
    ensures { Gets (O.has_failed out.old) (O.has_failed out.new) (O.taken out.old) (O.taken out.new)
        (decimal number) }
{
    let mut digits = Buffer::new();
    tell(digits.format(number).as_bytes(), out);
}

/// Writes the code of a cause, as far as it is taken.
fn tell_cause<O: Sink>(cause: Cause, out: &mut O)
    ensures { Gets (O.has_failed out.old) (O.has_failed out.new) (O.taken out.old) (O.taken out.new)
        (cause_code cause) }
{
    tell(cause_code(cause).as_bytes(), out);
}

/// Writes the end of a line; whether it was taken.
fn end_line<O: Sink>(out: &mut O) -> bool
    ensures { Gets (O.has_failed out.old) (O.has_failed out.new) (O.taken out.old) (O.taken out.new)
        (10 ∷ []) }
{
    write_all(out, b"\n").is_ok()
}

/// Writes `conn K En` on a line; whether its end was taken. An output that has failed takes nothing more.
fn put_end<O: Sink>(conn: u64, cause: Cause, out: &mut O) -> bool
    ensures { Gets (O.has_failed out.old) (O.has_failed out.new) (O.taken out.old) (O.taken out.new)
        (conn_line conn cause) }
{
    tell(b"conn ", out);
    tell_number(conn, out);
    tell(b" ", out);
    tell_cause(cause, out);
    end_line(out)
}

impl<'a, R: Eprint, O: Sink> Journal for Printed<'a, R, O> {
    ghost use Rattle.std.specs.Prelude.{None};

    ghost told = { λ _. None };

    fn note(&mut self, conn: u64, parting: Parting)
        ensures told { TellsMore None None (record { conn = conn; parting = parting } ∷ []) }
        ensures line { Gets (O.has_failed self.old.out.now) (O.has_failed self.new.out.now)
            (O.taken self.old.out.now) (O.taken self.new.out.now) (conn_line conn (cause_of parting)) }
    {
        if !put_end(conn, cause_of(parting), self.out) && !self.has_failed {
            self.has_failed = true;
            let _told = eprintln!(self.rt; "fault I2\nthe server goes on, and prints no more");
        }
    }
}
