//! Lines out of bytes.
ghost use Rattle.cli_scripts.specs.Answers.{Gives};
ghost use Rattle.cli_scripts.specs.Rows.{line_of, request_line_of};
ghost use Rattle.cli_scripts.specs.Views.{line_view, script_request_view};

use crate::events::event_of;
use crate::fault::LineFault;
use crate::line::Line;
use crate::request::ScriptRequest;
use crate::requests::request_of;
use crate::words::words_of;
use std::alloc::Global;

/// A line of a script of a world: its words are parted by one blank each. `Unreadable` if they are no form of a line; or want of memory.
pub fn read_line(alloc: Global, line: &[u8]) -> Result<Line, LineFault>
    ensures { Gives line_view result (line_of line.now) }
{
    let words = words_of(alloc, line)?;
    event_of(alloc, words.as_slice())
}

/// A line that is a request alone, as a shell's. `Unreadable` if it is none; or want of memory.
pub fn read_request(alloc: Global, line: &[u8]) -> Result<ScriptRequest, LineFault>
    ensures { Gives script_request_view result (request_line_of line.now) }
{
    let words = words_of(alloc, line)?;
    request_of(alloc, words.as_slice())
}
