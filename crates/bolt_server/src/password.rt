//! The password of the one user.

use std::{fs, io};

/// The first line of a text, without its end, and without the byte order mark that some editors put in front of it.
fn first_line(text: &str) -> &str {
    let text = text.strip_prefix('\u{FEFF}').unwrap_or(text);
    match text.lines().next() {
        Some(line) => line,
        None => "",
    }
}

/// The password: the first line of the file, or `pass` if none is named.
pub(crate) fn password_of(rt: &HostRuntime, file: Option<&str>) -> io::Result<String> {
    let alloc = rt.alloc();
    match file {
        None => Ok(String::from_str(alloc, "pass")?),
        Some(file) => {
            let text = fs::read_to_string(rt, file)?;
            Ok(String::from_str(alloc, first_line(text.as_str()))?)
        }
    }
}
