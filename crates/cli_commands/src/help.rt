//! The help.
ghost use Rattle.std.specs.Prelude.{◌≡◌};
ghost use Rattle.cli_commands.specs.Refusals.{help_text};

/// What the program is, each command with its words and an example, and what the exit statuses mean.
const HELP: &str =
    "bolt: both ends of Bolt, the wire protocol of graph databases, at 4.4, 5.0 and 5.1

Usage: bolt COMMAND WORD..

  answer HEX         prints what a server answers to these bytes of its first client,
                     and how the session then stands
                       bolt answer 6060B01700000105000000000000000000000000
  check VERSION HEX  reads the bytes as a value and a cell of VERSION, and prints its
                     shortest spelling, or where and why it is refused
                       bolt check 5.1 C90001
  replay FILE        runs the script of the file by a server and clients in one process,
                     and prints what became of each request
                       bolt replay script.txt
  loop FILE          sends the request lines of the file to a server of its own, over a
                     socket, and prints what it answers, and the ledger
                       bolt loop requests.txt
  serve PORT COUNT   serves COUNT connections at PORT of this machine, one after the
                     other, and prints how each ended
                       bolt serve 7687 1
  vectors            runs the test vectors
                       bolt vectors
  shell HOST PORT    sends the request lines of standard input to the server at PORT of
                     HOST, and prints what it answers
                       printf 'hello\\nlogon\\nbegin\\ncommit\\n' | bolt shell 127.0.0.1 7687
  help               prints this

HEX is bytes as pairs of hex digits, VERSION is 4.4, 5.0 or 5.1, PORT is a number
from 1 to 65535, COUNT one from 0 to 1000000. There are no options.

Exit status:
  0  it is done
  1  a value is refused, a vector fails, or a file, a port, a host or an output can't be
     had (fault I1, fault I2)
  2  the words are no command, or what is to be read can't be (fault I4,
     line N unreadable)
  3  there is not enough memory (fault I3)
";

/// The help: what the program is, each command with its words and an example, and what the exit statuses mean.
#[tactic(auto, unfolding(crate::specs::Refusals::help_text))]
pub fn help_text() -> &'static str
    ensures { result.now ≡ help_text }
{
    HELP
}
