//! The named entries of a dictionary, written straight into an output.
ghost use Rattle.std.specs.Prelude.{◌≡◌, ◌≤◌, ◌++◌, ◌∷◌, [], Some, true, OnOk, codes, length, map, string_bytes};
ghost use Rattle.messages.specs.Prelude.{canon, canon_entries, entries_of, AddsEntries, is_token as token_fits, transaction_put, token_dict, named_text, of_texts, login_pairs, hello_pairs, error_pairs, auth_view, token_view};

use crate::entries::is_token;
use crate::request::{Auth, Mode};
use crate::write_parts::{Spelled, put_structure};
use packstream::writing::put_head;
use structures_encoder::{Output, Unspelled, put_text};

/// The entry of a token, the last.
#[tactic(auto, using(crate::proofs::Named::token_entry_added))]
fn put_token(out: &mut Output, token: &String) -> Result<(), Unspelled>
    ensures before { out.new.before ≡ out.old.before }
    ensures fits { OnOk result (token_fits (string_bytes token.now) ≡ true) }
    ensures added { OnOk result (out.new.more ≡ out.old.more ++ canon_entries (entries_of
        ((codes "tx_metadata", token_dict (string_bytes token.now)) ∷ []))) }
{
    if !is_token(token.as_str()) {
        return Err(Unspelled);
    }
    out.extend_from_slice(b"\x8Btx_metadata\xA1\x85token")?;
    put_text(out, token.as_str())
}

/// The entries of a transaction: its mode, where that of writing isn't written, and its token if it has one.
#[tactic(auto, using(crate::proofs::Named::texts_fit, crate::proofs::Named::of_writing, crate::proofs::Named::of_reading, crate::proofs::Named::token_added, crate::proofs::Named::mode_and_token_added))]
pub(crate) fn put_transaction(out: &mut Output, mode: Mode, token: &Option<String>) -> Spelled
    ensures before { out.new.before ≡ out.old.before }
    ensures adds { OnOk result
        (AddsEntries (transaction_put mode (token_view token.now)) out.old.more out.new.more) }
{
    match (mode, token) {
        (Mode::Write, None) => Ok(out.push(0xA0)?),
        (Mode::Read, None) => Ok(out.extend_from_slice(b"\xA1\x84mode\x81r")?),
        (Mode::Write, Some(token)) => {
            out.push(0xA1)?;
            Ok(put_token(out, token)?)
        }
        (Mode::Read, Some(token)) => {
            out.extend_from_slice(b"\xA2\x84mode\x81r")?;
            Ok(put_token(out, token)?)
        }
    }
}

/// The texts by which a client says who it is, each under its name.
pub(crate) fn auth_texts(auth: &Auth) -> [(&str, &str); 3]
    ensures { map named_text result ≡ login_pairs (auth_view auth.now) }
{
    [
        ("scheme", auth.scheme.as_str()),
        ("principal", auth.principal.as_str()),
        ("credentials", auth.credentials.as_str()),
    ]
}

/// The texts of HELLO where it says who the client is.
pub(crate) fn hello_texts<'a>(agent: &'a String, auth: &'a Auth) -> [(&'a str, &'a str); 4]
    ensures { map named_text result
        ≡ hello_pairs (string_bytes agent.now) (Some (auth_view auth.now)) }
{
    let agent = ("user_agent", agent.as_str());
    let [scheme, principal, credentials] = auth_texts(auth);
    [agent, scheme, principal, credentials]
}

/// The texts of FAILURE.
pub(crate) fn error_texts<'a>(code: &'a String, message: &'a String) -> [(&'a str, &'a str); 2]
    ensures { map named_text result
        ≡ error_pairs (string_bytes code.now) (string_bytes message.now) }
{
    [("code", code.as_str()), ("message", message.as_str())]
}

/// A structure of one dictionary, of these texts.
#[tactic(auto, using(packstream::proofs::Putting::parts))]
pub(crate) fn put_texts(out: &mut Output, tag: u8, named: &[(&str, &str)]) -> Result<(), Unspelled>
    requires { length named.now ≤ 15 }
    ensures before { out.new.before ≡ out.old.before }
    ensures added { OnOk result (out.new.more
        ≡ out.old.more ++ canon (of_texts tag (map named_text named.now))) }
{
    put_structure(out, 1, tag)?;
    put_head(out, 0xA0, 0xD8, named.len() as u32)?;
    for &(name, text) in named {
        put_text(out, name)?;
        put_text(out, text)?;
    }
    Ok(())
}
