//! The standard streams that are closed where the program starts.

use std::fs::File;
use std::io;

/// What reads as an empty file.
const NOTHING: &str = "/dev/null";

/// Opens `/dev/null` for reading as often as there are standard streams. The system gives each file and socket the lowest number that is free,
/// so a standard stream that is closed is one of these from here on, for as long as they are kept: as an input it is empty, as an output it
/// fails, and no file or socket is taken for it. Where `/dev/null` can't be opened nothing is kept.
pub fn fill_closed(rt: &HostRuntime) -> [io::Result<File>; 3] {
    [
        File::open(rt, NOTHING),
        File::open(rt, NOTHING),
        File::open(rt, NOTHING),
    ]
}
