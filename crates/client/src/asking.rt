//! How the written run of a request is put behind what isn't taken out.
ghost use Rattle.std.specs.Prelude.{◌≡◌, ◌++◌, OnOk, OnErr, IfErr, Some};
ghost use Rattle.packstream.specs.Writing.{whole};
ghost use Rattle.messages.specs.Arrivals.{request_bytes, IsWritten};
ghost use Rattle.messages.specs.View.{request_view};
ghost use Rattle.messages.specs.Writing.{request_spelling};
ghost use Rattle.client.specs.Rest.{of_writer, writing_fault_by};

use crate::faults::{SubmitFault, Unwritable};
use messages::{MsgFault, Request, write_request_run};
use packstream::writing::Output;
use wire::Version;

/// Puts the written run of a request behind what isn't taken out; or nothing, and why: C7 or C3, C1 if it is no message of the version, or
/// want of memory.
#[tactic(auto, using(crate::proofs::Refusing::refused_by_writer))]
pub(crate) fn append(
    version: Version,
    request: &Request,
    out: &mut Output,
) -> Result<(), SubmitFault>
    ensures ok { OnOk result (whole out.new
        ≡ whole out.old ++ request_bytes version (request_view request.now)) }
    ensures written { OnOk result (IsWritten version (request_view request.now)) }
    ensures err { OnErr result (whole out.new ≡ whole out.old) }
    ensures fault { IfErr result
        (λ e. (e ≡ SubmitFault.Memory → ⊥)
        → writing_fault_by (request_spelling version (request_view request.now)) ≡ Some e) }
{
    match write_request_run(version, request, out) {
        Ok(()) => Ok(()),
        Err(fault) => Err(why_unwritten(fault)),
    }
}

/// What the caller is told of the writer's fault. A request that is allowed is a message of the version, so that its writer
/// tells none of the last three.
fn why_unwritten(fault: MsgFault) -> SubmitFault
    ensures { result ≡ of_writer fault }
{
    match fault {
        MsgFault::Pack(reason, place) => SubmitFault::Unwritable(Unwritable::Pack(reason, place)),
        MsgFault::Extra => SubmitFault::Unwritable(Unwritable::Extra),
        MsgFault::Cell(reason, number) => {
            SubmitFault::Unwritable(Unwritable::Cell(reason, number))
        }
        MsgFault::CellPack(reason, place) => {
            SubmitFault::Unwritable(Unwritable::CellPack(reason, place))
        }
        MsgFault::Size => SubmitFault::Size,
        MsgFault::Memory => SubmitFault::Memory,
        MsgFault::NotAMessage | MsgFault::UnknownTag | MsgFault::Fields => SubmitFault::NotAllowed,
    }
}
