//! The file of a replay.

use crate::reasons::put_unread;
use cli_commands::command;
use std::fs::File;
use streams::Over;

/// Does the replay that the words ask for, with the file as its input: `fault I1` if it can't be opened, and on the next line why.
pub(crate) fn replay_file(rt: &HostRuntime, words: &[String], file: &str) -> u8 {
    let opened = match File::open(rt, file) {
        Ok(opened) => opened,
        Err(error) => return put_unread(rt.alloc(), file, &error, &mut Over::new(rt.stderr())),
    };
    let mut input = Over::new(opened);
    let mut out = Over::new(rt.stdout());
    let mut err = Over::new(rt.stderr());
    command(rt.alloc(), words, &mut input, &mut out, &mut err)
}
