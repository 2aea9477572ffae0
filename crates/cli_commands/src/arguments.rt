//! The words after a command's name, by what is wanted of each.
ghost use Rattle.std.specs.Prelude.{◌≡◌, map, string_bytes};
ghost use Rattle.cli_commands.specs.Asked.{Gives, count_at, count_word, ends_at, is_flag, plain_word, port_at, port_word, version_at, version_word};

use cli_scripts::number_of;
use wire::Version;

/// What a word of a command line has to be.
#[derive(Clone, Copy, Debug, PartialEq, Eq)]
pub enum Wanted {
    /// The name of a command.
    Command,
    /// Bytes in hex: any word that is no flag. The command itself tells of other words.
    Hex,
    /// `4.4`, `5.0` or `5.1`.
    Version,
    /// The path of a file: any word that is no flag.
    File,
    /// The name or the address of a machine: any word that is no flag.
    Host,
    /// A decimal number from 1 to 65,535.
    Port,
    /// A decimal number from 0 to 1,000,000.
    Count,
    /// No word: the command has all of its words.
    NoMore,
}

/// The first word that makes words no command.
#[derive(Clone, Copy, Debug)]
pub struct Wrong<'a> {
    /// Its number, of which 1 is the command's name.
    pub number: usize,
    /// The word, or None where the words end before it.
    pub word: Option<&'a str>,
    /// What has to stand there.
    pub wanted: Wanted,
}

/// The first of the words, which has this number and is no flag, and the words after it.
#[tactic(auto, unfolding(crate::specs::Asked::plain_word))]
pub(crate) fn first_plain<'a>(
    number: usize,
    wanted: Wanted,
    words: &'a [String],
) -> Result<(&'a str, &'a [String]), Wrong<'a>>
    ensures { Gives (λ p. (p.0.now, map string_bytes p.1.now)) result
        (plain_word number wanted (map string_bytes words.entry.now)) }
{
    let Some((first, rest)) = words.split_first() else {
        return Err(Wrong {
            number,
            word: None,
            wanted,
        });
    };
    let word = first.as_str();
    if starts_a_flag(word) {
        return Err(Wrong {
            number,
            word: Some(word),
            wanted,
        });
    }
    Ok((word, rest))
}

/// The version that the first of the words says, which has this number, and the words after it.
#[tactic(auto, unfolding(crate::specs::Asked::version_word))]
pub(crate) fn first_version<'a>(
    number: usize,
    words: &'a [String],
) -> Result<(Version, &'a [String]), Wrong<'a>>
    ensures { Gives (λ p. (p.0, map string_bytes p.1.now)) result
        (version_word number (map string_bytes words.entry.now)) }
{
    let wanted = Wanted::Version;
    let Some((first, rest)) = words.split_first() else {
        return Err(Wrong {
            number,
            word: None,
            wanted,
        });
    };
    let word = first.as_str();
    let Some(version) = version_of(word) else {
        return Err(Wrong {
            number,
            word: Some(word),
            wanted,
        });
    };
    Ok((version, rest))
}

/// The port that the first of the words says, which has this number, and the words after it.
#[tactic(auto, unfolding(crate::specs::Asked::port_word))]
pub(crate) fn first_port<'a>(
    number: usize,
    words: &'a [String],
) -> Result<(u16, &'a [String]), Wrong<'a>>
    ensures { Gives (λ p. (p.0, map string_bytes p.1.now)) result
        (port_word number (map string_bytes words.entry.now)) }
{
    let wanted = Wanted::Port;
    let Some((first, rest)) = words.split_first() else {
        return Err(Wrong {
            number,
            word: None,
            wanted,
        });
    };
    let word = first.as_str();
    let Some(port) = port_of(word) else {
        return Err(Wrong {
            number,
            word: Some(word),
            wanted,
        });
    };
    Ok((port, rest))
}

/// The count that the first of the words says, which has this number, and the words after it.
#[tactic(auto, unfolding(crate::specs::Asked::count_word))]
pub(crate) fn first_count<'a>(
    number: usize,
    words: &'a [String],
) -> Result<(u32, &'a [String]), Wrong<'a>>
    ensures { Gives (λ p. (p.0, map string_bytes p.1.now)) result
        (count_word number (map string_bytes words.entry.now)) }
{
    let wanted = Wanted::Count;
    let Some((first, rest)) = words.split_first() else {
        return Err(Wrong {
            number,
            word: None,
            wanted,
        });
    };
    let word = first.as_str();
    let Some(count) = count_of(word) else {
        return Err(Wrong {
            number,
            word: Some(word),
            wanted,
        });
    };
    Ok((count, rest))
}

/// That there are no more words; the first that is there has this number.
pub(crate) fn no_more<'a>(number: usize, words: &'a [String]) -> Result<(), Wrong<'a>>
    ensures { Gives (λ u. u) result (ends_at number (map string_bytes words.entry.now)) }
{
    match words.split_first() {
        None => Ok(()),
        Some((first, _)) => Err(Wrong {
            number,
            word: Some(first.as_str()),
            wanted: Wanted::NoMore,
        }),
    }
}

/// The version of a word.
fn version_of(word: &str) -> Option<Version>
    ensures { result ≡ version_at word.now }
{
    if word == "4.4" {
        Some(Version::V44)
    } else if word == "5.0" {
        Some(Version::V50)
    } else if word == "5.1" {
        Some(Version::V51)
    } else {
        None
    }
}

/// The port of a word: 1 to 65,535.
fn port_of(word: &str) -> Option<u16>
    ensures { result ≡ port_at word.now }
{
    let number = number_of(word)?;
    if number == 0 || number > 65535 {
        return None;
    }
    Some(number as u16)
}

/// The count of a word: 0 to 1,000,000.
fn count_of(word: &str) -> Option<u32>
    ensures { result ≡ count_at word.now }
{
    let number = number_of(word)?;
    if number > 1_000_000 {
        return None;
    }
    Some(number as u32)
}

/// A hyphen and more.
fn starts_a_flag(word: &str) -> bool
    ensures { result ≡ is_flag word.now }
{
    let bytes = word.as_bytes();
    bytes.len() > 1 && bytes[0] == b'-'
}
