//! The responses of a session but its rows and the SUCCESS of a RUN.
ghost use Rattle.std.specs.Prelude.{◌≡◌, ◌≤◌, ◌+◌, ◌++◌, ◌∷◌, [], length, codes, OnOk, Some, IfSome, IsNone, false};
ghost use Rattle.std.specs.Fmt.{decimal};
ghost use Rattle.packstream.specs.Canon.{head, text_bytes, canon, canon_entries};
ghost use Rattle.packstream.specs.Limits.{max_size};
ghost use Rattle.packstream.specs.Tree.{text};
ghost use Rattle.packstream.specs.View.{entries_of};
ghost use Rattle.messages.specs.Summaries.{Greeting, Closing, Committed, ending, form_of, IsShort};
ghost use Rattle.engine.specs.Limits.{max_agent};
ghost use Rattle.wire.specs.Texts.{written_run};
ghost use Rattle.server_session.specs.Acts.{summary_of, is_ready};
ghost use Rattle.server_session.specs.Faults.{failure};

use crate::agent::Agent;
use crate::fault::Fault;
use itoa::Buffer;
use messages::Mode;
use std::alloc::AllocError;
use structures_encoder::{Output, put_short_text};

#[derive(Clone, Copy)]
pub(crate) enum Summary<'a> {
    /// Of a HELLO, with the server's name and the number of the connection.
    Greeting(Agent<'a>, u64),
    /// Of a PULL or DISCARD after which rows are left.
    RowsLeft,
    /// Of the last PULL or DISCARD of a result, with the place of its entry in the ledger, from 1, if it commits, and the result's
    /// mode.
    Closing(Option<u64>, Mode),
    /// Of a COMMIT, with the place of its entry.
    Committed(u64),
    /// Of a request that has nothing to tell.
    Plain,
    Failure(Fault),
    /// Of a request that is passed over.
    Passed,
}

impl<'a> Summary<'a> {
    /// The run of the response, if it is always the same.
    #[tactic(auto, unfolding(packstream::specs::Canon::head, packstream::specs::Canon::int_bytes, wire::specs::Texts::written_run, wire::specs::Texts::written_run_by))]
    pub(crate) fn ready(self) -> Option<&'static [u8]>
        ensures run { IfSome result (λ b. b.now ≡ written_run (canon (form_of (summary_of self.entry)))) }
        ensures short { IfSome result (λ _. IsShort (summary_of self.entry)) }
        ensures made { IsNone result → is_ready self.entry ≡ false }
    {
        match self {
            Summary::Plain => Some(b"\0\x03\xB1\x70\xA0\0\0"),
            Summary::Passed => Some(b"\0\x02\xB0\x7E\0\0"),
            Summary::RowsLeft => Some(b"\0\x0D\xB1\x70\xA1\x88has_more\xC3\0\0"),
            Summary::Closing(None, Mode::Read) => {
                Some(b"\0\x12\xB1\x70\xA2\x84type\x81r\x86t_last\x00\0\0")
            }
            Summary::Closing(None, Mode::Write) => {
                Some(b"\0\x12\xB1\x70\xA2\x84type\x81w\x86t_last\x00\0\0")
            }
            _ => None,
        }
    }

    /// Adds a place for a header, and the text of the response, if it tells a name, a number or a failure.
    pub(crate) fn put(self, out: &mut Output) -> Result<(), AllocError>
        requires empty { out.old.more ≡ [] }
        requires made { is_ready self ≡ false }
        ensures before { out.new.before ≡ out.old.before }
        ensures spelled { OnOk result (out.new.more ≡ 0 ∷ 0 ∷ canon (form_of (summary_of self.entry))) }
        ensures short { IsShort (summary_of self.entry) }
    {
        match self {
            Summary::Greeting(agent, conn) => put_greeting(out, agent.name, conn),
            Summary::Closing(Some(place), mode) => put_last_at(out, place, mode),
            Summary::Committed(place) => put_committed(out, place),
            Summary::Failure(fault) => put_failure(out, fault),
            Summary::RowsLeft | Summary::Closing(None, _) | Summary::Plain | Summary::Passed => {
                unreachable!()
            }
        }
    }
}

/// An entry that holds a text.
#[tactic(auto, using(packstream::proofs::Putting::three_parts))]
fn put_entry(out: &mut Output, key: &str, text: &str) -> Result<(), AllocError>
    requires key { length key.now ≤ max_size }
    requires text { length text.now ≤ max_size }
    ensures before { out.new.before ≡ out.old.before }
    ensures ok { OnOk result (out.new.more
        ≡ out.old.more ++ (text_bytes key.now ++ text_bytes text.now)) }
{
    put_short_text(out, key)?;
    put_short_text(out, text)
}

/// The head of a text of so many bytes.
#[tactic(auto, unfolding(packstream::specs::Canon::head, packstream::specs::Canon::long_head))]
fn put_text_head(out: &mut Output, count: usize) -> Result<(), AllocError>
    requires { count ≤ 255 }
    ensures before { out.new.before ≡ out.old.before }
    ensures ok { OnOk result (out.new.more ≡ out.old.more ++ head 0x80 0xD0 count) }
{
    if count < 16 {
        return out.push(0x80 + count as u8);
    }
    out.push(0xD0)?;
    out.push(count as u8)
}

/// A text in two parts.
#[tactic(auto, using(packstream::proofs::Putting::three_parts))]
fn put_parts(out: &mut Output, front: &str, back: &str) -> Result<(), AllocError>
    requires { length front.now + length back.now ≤ 255 }
    ensures before { out.new.before ≡ out.old.before }
    ensures ok { OnOk result (out.new.more
        ≡ out.old.more ++ text_bytes (front.now ++ back.now)) }
{
    put_text_head(out, front.len() + back.len())?;
    out.extend_from_slice(front.as_bytes())?;
    out.extend_from_slice(back.as_bytes())
}

/// An entry that holds a word with a number.
fn put_numbered(out: &mut Output, key: &str, word: &str, number: u64) -> Result<(), AllocError>
    requires key { length key.now ≤ 16 }
    requires word { length word.now ≤ 16 }
    ensures before { out.new.before ≡ out.old.before }
    ensures ok { OnOk result (out.new.more
        ≡ out.old.more ++ (text_bytes key.now ++ text_bytes (word.now ++ decimal number))) }
{
    let mut buffer = Buffer::new();
    put_short_text(out, key)?;
    put_parts(out, word, buffer.format(number))
}

fn put_greeting(out: &mut Output, agent: &str, conn: u64) -> Result<(), AllocError>
    requires empty { out.old.more ≡ [] }
    requires agent { length agent.now ≤ max_agent }
    ensures before { out.new.before ≡ out.old.before }
    ensures spelled { OnOk result (out.new.more ≡ 0 ∷ 0 ∷ canon (form_of (Greeting agent.now conn))) }
    ensures short { IsShort (Greeting agent.now conn) }
{
    out.extend_from_slice(&[0, 0, 0xB1, 0x70, 0xA2])?;
    put_entry(out, "server", agent)?;
    put_numbered(out, "connection_id", "bolt-", conn)?;
    Ok(())
}

/// The text of a bookmark.
fn put_bookmark(out: &mut Output, place: u64) -> Result<(), AllocError>
    ensures before { out.new.before ≡ out.old.before }
    ensures ok { OnOk result (out.new.more
        ≡ out.old.more ++ text_bytes (codes "bk:" ++ decimal place)) }
{
    let mut buffer = Buffer::new();
    put_digits(out, buffer.format(place))
}

/// The text of the bookmark with these digits.
fn put_digits(out: &mut Output, digits: &str) -> Result<(), AllocError>
    requires { length digits.now ≤ 40 }
    ensures before { out.new.before ≡ out.old.before }
    ensures ok { OnOk result (out.new.more
        ≡ out.old.more ++ text_bytes (codes "bk:" ++ digits.now)) }
{
    if digits.len() > 12 {
        return put_parts(out, "bk:", digits);
    }
    out.push_and_extend(0x80 + (3 + digits.len() as u8), b"bk:")?;
    out.extend_from_slice(digits.as_bytes())
}

/// The entries of the last SUCCESS of a result.
#[tactic(auto, unfolding(packstream::specs::Canon::head, packstream::specs::Canon::int_bytes))]
fn ending_of(mode: Mode) -> &'static [u8; 15]
    ensures { result.now ≡ canon_entries (entries_of (ending mode)) }
{
    match mode {
        Mode::Read => b"\x84type\x81r\x86t_last\x00",
        Mode::Write => b"\x84type\x81w\x86t_last\x00",
    }
}

fn put_last_at(out: &mut Output, place: u64, mode: Mode) -> Result<(), AllocError>
    requires { out.old.more ≡ [] }
    ensures before { out.new.before ≡ out.old.before }
    ensures spelled { OnOk result (out.new.more ≡ 0 ∷ 0 ∷ canon (form_of (Closing (Some place) mode))) }
    ensures short { IsShort (Closing (Some place) mode) }
{
    out.extend_from_slice(b"\0\0\xB1\x70\xA3\x88bookmark")?;
    put_bookmark(out, place)?;
    out.extend_from_slice(ending_of(mode))
}

fn put_committed(out: &mut Output, place: u64) -> Result<(), AllocError>
    requires { out.old.more ≡ [] }
    ensures before { out.new.before ≡ out.old.before }
    ensures spelled { OnOk result (out.new.more ≡ 0 ∷ 0 ∷ canon (form_of (Committed place))) }
    ensures short { IsShort (Committed place) }
{
    out.extend_from_slice(b"\0\0\xB1\x70\xA1\x88bookmark")?;
    put_bookmark(out, place)
}

#[tactic(auto, using(crate::proofs::Summed::added), unfolding(packstream::specs::Canon::head))]
fn put_failure(out: &mut Output, fault: Fault) -> Result<(), AllocError>
    requires { out.old.more ≡ [] }
    ensures before { out.new.before ≡ out.old.before }
    ensures spelled { OnOk result (out.new.more ≡ 0 ∷ 0 ∷ canon (form_of (failure fault))) }
    ensures short { IsShort (failure fault) }
{
    out.extend_from_slice(&[0, 0, 0xB1, 0x7F, 0xA2])?;
    put_entry(out, "code", fault.code())?;
    put_entry(out, "message", fault.message())?;
    Ok(())
}
