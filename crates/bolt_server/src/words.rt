//! What the words of the command line ask for.

use clap::{Arg, ArgMatches, Command, Error, value_parser};
use std::alloc::{AllocError, Global};

/// What is asked for.
#[derive(Clone, Copy)]
pub(crate) struct Asked<'a> {
    pub(crate) port: u16,
    pub(crate) host: &'a str,
    pub(crate) user: &'a str,
    /// The file of the password, if one is named.
    pub(crate) password_file: Option<&'a str>,
    pub(crate) sessions: Option<u16>,
    /// The name that the server tells.
    pub(crate) agent: &'a str,
    /// Seconds for which a peer may be silent, at least one: with none nobody would be served.
    pub(crate) silence: u32,
    /// Seconds for which a peer may take to log on, at least one.
    pub(crate) arrival: u32,
    /// Seconds for which a connection is drained at its end.
    pub(crate) last: u32,
}

/// An option with a value that is asked for only if it is another.
fn option<'a>(
    alloc: Global,
    name: &'a str,
    value: &'a str,
    default: &'a str,
    help: &'a str,
) -> Arg<'a> {
    Arg::new(alloc, name)
        .long(name)
        .value_name(value)
        .default_value(default)
        .help(help)
}

/// A number of seconds, no fewer than these.
fn seconds<'a>(
    alloc: Global,
    name: &'a str,
    least: i64,
    default: &'a str,
    help: &'a str,
) -> Arg<'a> {
    option(alloc, name, "SECONDS", default, help).value_parser(value_parser!(u32).range(least..))
}

/// The words that there may be.
fn command<'a>(alloc: Global) -> Result<Command<'a>, AllocError> {
    let port = Arg::new(alloc, "port")
        .value_name("PORT")
        .required(true)
        .value_parser(value_parser!(u16))
        .help("The port at which it listens; 0 for any that is free");
    let host = option(
        alloc,
        "host",
        "HOST",
        "127.0.0.1",
        "The name or address of this machine at which it listens",
    );
    let user = option(alloc, "user", "NAME", "user", "The user who may log on");
    let file = Arg::new(alloc, "password-file")
        .long("password-file")
        .value_name("FILE")
        .help("The file whose first line is the user's password [without one: pass]");
    let sessions = Arg::new(alloc, "sessions")
        .long("sessions")
        .value_name("COUNT")
        .value_parser(value_parser!(u16).range(1..=16))
        .help("The most connections at once, from 1 to 16 [without it: 16 sessions]");
    let agent = option(
        alloc,
        "agent",
        "NAME",
        "BoltTable/1",
        "The name that the server tells, of 1 to 40 bytes; drivers of Neo4j want Neo4j/ in front",
    );
    Command::new(alloc, "bolt_server")
        .version("1.0.0")
        .about("Serves a table in memory over Bolt 4.4, 5.0 and 5.1, to many connections at once")
        .arg(port)?
        .arg(host)?
        .arg(user)?
        .arg(file)?
        .arg(sessions)?
        .arg(agent)?
        .arg(seconds(
            alloc,
            "silence",
            1,
            "60",
            "How long a client may send and take nothing",
        ))?
        .arg(seconds(
            alloc,
            "arrival",
            1,
            "10",
            "How long a client may take to log on",
        ))?
        .arg(seconds(
            alloc,
            "last",
            0,
            "1",
            "How long what a client still sends is read after its end",
        ))
}

/// The number that an argument was given, or its default.
fn number<'a>(matches: &ArgMatches<'a>, name: &str, default: u32) -> u32 {
    matches.get_one::<u32>(name).unwrap_or(default)
}

/// What the words ask for, the first of them the program's name; or what is to be said, as of words that aren't taken, or help.
pub(crate) fn read<'a>(alloc: Global, words: &'a [String]) -> Result<Asked<'a>, Error> {
    let command = command(alloc)?;
    let matches = command.try_get_matches_from(words)?;
    Ok(Asked {
        port: matches.get_one::<u16>("port").unwrap_or(0),
        host: matches.get_str("host").unwrap_or("127.0.0.1"),
        user: matches.get_str("user").unwrap_or("user"),
        password_file: matches.get_str("password-file"),
        sessions: matches.get_one::<u16>("sessions"),
        agent: matches.get_str("agent").unwrap_or("BoltTable/1"),
        silence: number(&matches, "silence", 60),
        arrival: number(&matches, "arrival", 10),
        last: number(&matches, "last", 1),
    })
}
