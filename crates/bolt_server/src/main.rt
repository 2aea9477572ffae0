//! The program `bolt_server`: serves a fixed table to one user, many connections at once, until it is ended.
#![tactic(auto)]

mod password;
mod running;
mod words;

use cli_output::fill_closed;
use running::run;
use std::process::ExitCode;

fn main(rt: HostRuntime) -> ExitCode {
    // Before anything else is opened, and kept until the end.
    let _closed = fill_closed(&rt);
    ExitCode::from(run(&rt))
}
