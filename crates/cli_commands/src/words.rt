//! What the words of a command line ask for.
ghost use Rattle.std.specs.Prelude.{map, string_bytes};
ghost use Rattle.cli_commands.specs.Asked.{Gives, ask_of, asked_answer, asked_by, asked_check, asked_loop, asked_replay, asked_serve, asked_shell, asked_vectors, asked_words};

use crate::arguments::{
    Wanted, Wrong, first_count, first_plain, first_port, first_version, no_more,
};
use wire::Version;

/// What words ask for.
#[derive(Clone, Copy, Debug)]
pub enum CommandLine<'a> {
    /// What a server answers to these bytes in hex.
    Answer { hex: &'a str },
    /// Whether these bytes in hex are a cell of the version.
    Check { version: Version, hex: &'a str },
    /// What a script's lines do to a world, and its report. The script is this file.
    Replay { file: &'a str },
    /// The request lines of this file, by both ends over a socket, which the program has.
    Loop { file: &'a str },
    /// A server of so many connections at this port, over sockets that the program has.
    Serve { port: u16, count: u32 },
    /// The test vectors.
    Vectors,
    /// A client at a shell, with the server at this port of the host, over a socket that the program has.
    Shell { host: &'a str, port: u16 },
}

/// What the words, of which the first is the program's name, ask for; or the first that makes them no command with just its arguments, and
/// what has to stand there. No command has a flag: a hyphen and more is never what is wanted.
pub fn asked<'a>(words: &'a [String]) -> Result<CommandLine<'a>, Wrong<'a>>
    ensures { Gives ask_of result (asked_words (map string_bytes words.entry.now)) }
{
    let Some((_, after)) = words.split_first() else {
        return Err(Wrong {
            number: 1,
            word: None,
            wanted: Wanted::Command,
        });
    };
    let Some((name, rest)) = after.split_first() else {
        return Err(Wrong {
            number: 1,
            word: None,
            wanted: Wanted::Command,
        });
    };
    by_name(name.as_str(), rest)
}

/// A command by its name.
fn by_name<'a>(name: &'a str, rest: &'a [String]) -> Result<CommandLine<'a>, Wrong<'a>>
    ensures { Gives ask_of result (asked_by name.entry.now (map string_bytes rest.entry.now)) }
{
    if name == "answer" {
        return answer(rest);
    }
    if name == "check" {
        return check(rest);
    }
    if name == "replay" {
        return replay(rest);
    }
    if name == "loop" {
        return looped(rest);
    }
    if name == "serve" {
        return serve(rest);
    }
    if name == "vectors" {
        return vectors(rest);
    }
    if name == "shell" {
        return shell(rest);
    }
    Err(Wrong {
        number: 1,
        word: Some(name),
        wanted: Wanted::Command,
    })
}

/// `answer HEX`.
fn answer<'a>(words: &'a [String]) -> Result<CommandLine<'a>, Wrong<'a>>
    ensures { Gives ask_of result (asked_answer (map string_bytes words.entry.now)) }
{
    let (hex, rest) = first_plain(2, Wanted::Hex, words)?;
    no_more(3, rest)?;
    Ok(CommandLine::Answer { hex })
}

/// `check VERSION HEX`.
fn check<'a>(words: &'a [String]) -> Result<CommandLine<'a>, Wrong<'a>>
    ensures { Gives ask_of result (asked_check (map string_bytes words.entry.now)) }
{
    let (version, after) = first_version(2, words)?;
    let (hex, rest) = first_plain(3, Wanted::Hex, after)?;
    no_more(4, rest)?;
    Ok(CommandLine::Check { version, hex })
}

/// `replay FILE`.
fn replay<'a>(words: &'a [String]) -> Result<CommandLine<'a>, Wrong<'a>>
    ensures { Gives ask_of result (asked_replay (map string_bytes words.entry.now)) }
{
    let (file, rest) = first_plain(2, Wanted::File, words)?;
    no_more(3, rest)?;
    Ok(CommandLine::Replay { file })
}

/// `loop FILE`.
fn looped<'a>(words: &'a [String]) -> Result<CommandLine<'a>, Wrong<'a>>
    ensures { Gives ask_of result (asked_loop (map string_bytes words.entry.now)) }
{
    let (file, rest) = first_plain(2, Wanted::File, words)?;
    no_more(3, rest)?;
    Ok(CommandLine::Loop { file })
}

/// `serve PORT COUNT`.
fn serve<'a>(words: &'a [String]) -> Result<CommandLine<'a>, Wrong<'a>>
    ensures { Gives ask_of result (asked_serve (map string_bytes words.entry.now)) }
{
    let (port, after) = first_port(2, words)?;
    let (count, rest) = first_count(3, after)?;
    no_more(4, rest)?;
    Ok(CommandLine::Serve { port, count })
}

/// `vectors`.
fn vectors<'a>(words: &'a [String]) -> Result<CommandLine<'a>, Wrong<'a>>
    ensures { Gives ask_of result (asked_vectors (map string_bytes words.entry.now)) }
{
    no_more(2, words)?;
    Ok(CommandLine::Vectors)
}

/// `shell HOST PORT`.
fn shell<'a>(words: &'a [String]) -> Result<CommandLine<'a>, Wrong<'a>>
    ensures { Gives ask_of result (asked_shell (map string_bytes words.entry.now)) }
{
    let (host, after) = first_plain(2, Wanted::Host, words)?;
    let (port, rest) = first_port(3, after)?;
    no_more(4, rest)?;
    Ok(CommandLine::Shell { host, port })
}
