//! Readers and writers of the standard library, as sources and sinks: interrupted calls, ends and errors.
ghost use Rattle.std.specs.Prelude.{◌≤◌, IfOk};

use std::io;
use std::io::{ErrorKind, Read, Write};
use std::test::*;
use streams::{Failed, Over, Sink, Source};

/// A reader and writer whose calls are interrupted so often, and then all end so.
#[derive(Drop)]
struct Stopped {
    interrupts: usize,
    end: Result<usize, ErrorKind>,
}

impl Stopped {
    fn call(&mut self, most: usize) -> io::Result<usize>
        ensures { IfOk result (λ n. n ≤ most) }
    {
        if self.interrupts > 0 {
            self.interrupts -= 1;
            return Err(ErrorKind::Interrupted.into());
        }
        match self.end {
            Ok(n) => Ok(n.min(most)),
            Err(kind) => Err(kind.into()),
        }
    }
}

impl Read for Stopped {
    fn read(&mut self, buffer: &mut [u8]) -> io::Result<usize> {
        self.call(buffer.len())
    }
}

impl Write for Stopped {
    fn write(&mut self, bytes: &[u8]) -> io::Result<usize> {
        self.call(bytes.len())
    }

    fn flush(&mut self) -> io::Result<()> {
        Ok(())
    }
}

/// How a call ends, and why a read and a write fail by it.
type Case = (
    Result<usize, ErrorKind>,
    Option<ErrorKind>,
    Option<ErrorKind>,
);

const CASES: [Case; 4] = [
    (Ok(2), None, None),
    (Ok(0), None, Some(ErrorKind::WriteZero)),
    // A time that has passed, and a connection that was reset, are no interruption.
    (
        Err(ErrorKind::WouldBlock),
        Some(ErrorKind::WouldBlock),
        Some(ErrorKind::WouldBlock),
    ),
    (
        Err(ErrorKind::ConnectionReset),
        Some(ErrorKind::ConnectionReset),
        Some(ErrorKind::ConnectionReset),
    ),
];

/// What a call moves, if it doesn't fail.
fn moved(end: Result<usize, ErrorKind>, why: Option<ErrorKind>) -> Result<usize, Failed> {
    match why {
        None => end.map_err(|_| Failed),
        Some(_) => Err(Failed),
    }
}

fn is_read(interrupts: usize, case: &Case) -> bool {
    let (end, why, _) = *case;
    let mut source = Over::new(Stopped { interrupts, end });
    let mut are_so = true;
    for _ in 0..2 {
        let is_moved = source.read(&mut [0; 4]) == moved(end, why);
        are_so &= is_moved && source.error().map(|e| e.kind()) == why;
    }
    are_so
}

fn is_written(interrupts: usize, case: &Case) -> bool {
    let (end, _, why) = *case;
    let mut sink = Over::new(Stopped { interrupts, end });
    let mut are_so = true;
    for _ in 0..2 {
        let is_moved = sink.write(&[0; 4]) == moved(end, why);
        are_so &= is_moved && sink.error().map(|e| e.kind()) == why;
    }
    are_so
}

/// What a signal interrupts is tried again; every other failure is kept with its reason.
#[test]
fn tries_again_what_a_signal_interrupts(rt: HostRuntime) {
    for interrupts in [0, 1, 3] {
        for (row, case) in CASES.iter().enumerate() {
            assert!(rt;
                is_read(interrupts, case),
                "row {row}, {interrupts} interrupts"
            );
            assert!(rt;
                is_written(interrupts, case),
                "row {row}, {interrupts} interrupts"
            );
        }
    }
}
