//! The program `bolt`: its commands over sockets stand here, the others in `cli_commands`.
#![tactic(auto)]

mod command_line;
mod reasons;
mod script_file;
mod sockets;

use cli_commands::{CommandLine, asked, command};
use cli_output::fill_closed;
use command_line::{refuse, words_of};
use script_file::replay_file;
use sockets::{loop_through, serve_on, shell_at};
use std::process::ExitCode;
use streams::Over;

fn run(rt: &HostRuntime) -> u8 {
    let mut err = Over::new(rt.stderr());
    let words = match words_of(rt) {
        Ok(words) => words,
        Err(unread) => return refuse(unread, &mut err),
    };
    match asked(words.as_slice()) {
        Ok(CommandLine::Loop { file }) => return loop_through(rt, file),
        Ok(CommandLine::Serve { port, count }) => return serve_on(rt, port, count),
        Ok(CommandLine::Shell { host, port }) => return shell_at(rt, host, port),
        Ok(CommandLine::Replay { file }) => return replay_file(rt, words.as_slice(), file),
        _ => {}
    }
    let mut input = Over::new(rt.stdin());
    let mut out = Over::new(rt.stdout());
    command(rt.alloc(), words.as_slice(), &mut input, &mut out, &mut err)
}

fn main(rt: HostRuntime) -> ExitCode {
    // Before anything else is opened, and kept until the end.
    let _closed = fill_closed(&rt);
    ExitCode::from(run(&rt))
}
