//! The words of the command line, before any command.
ghost use Rattle.std.specs.Prelude.{◌≡◌};
ghost use Rattle.cli_output.specs.Stopping.{Gets};
ghost use Rattle.bolt.specs.Starting.{unread_status, unread_text};

use cli_commands::help_text;
use cli_output::tell;
use std::env::Env;
use std::io::ErrorKind;
use streams::Sink;

/// Why there are no words.
#[derive(Clone, Copy, Debug, PartialEq, Eq)]
pub(crate) enum Unread {
    /// Want of memory.
    Memory,
    /// A word that isn't UTF-8.
    NotText,
}

/// The program's name and the words after it.
pub(crate) fn words_of<R: Env + AllocGlobal>(rt: &R) -> Result<Vec<String>, Unread> {
    let args = match std::env::args(rt) {
        Ok(args) => args,
        Err(error) if error.kind() == ErrorKind::InvalidData => return Err(Unread::NotText),
        Err(_) => return Err(Unread::Memory),
    };
    let Ok(words) = args.collect(rt.alloc()) else {
        return Err(Unread::Memory);
    };
    Ok(words)
}

/// Says why there are no words, behind a word that can't be read the help, and answers the exit status. Its texts are fixed.
/// Takes no memory.
pub(crate) fn refuse<E: Sink>(unread: Unread, err: &mut E) -> u8
    ensures status { result ≡ unread_status unread }
    ensures text { Gets (E.has_failed err.old) (E.has_failed err.new) (E.taken err.old)
        (E.taken err.new) (unread_text unread) }
{
    match unread {
        Unread::Memory => {
            tell(b"fault I3\n", err);
            3
        }
        Unread::NotText => {
            tell(b"error: a word is not UTF-8\n", err);
            tell(help_text().as_bytes(), err);
            2
        }
    }
}
