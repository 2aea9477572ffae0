//! The codes by which faults are printed.
ghost use Rattle.std.specs.Prelude.{◌≡◌};
ghost use Rattle.cli_commands.specs.Commands.{cell_code_of, pack_code_of};

use packstream::Reason as PackReason;
use structures::Reason;

/// The code of what is wrong with a value.
pub(crate) fn pack_code(reason: PackReason) -> &'static str
    ensures { result.now ≡ pack_code_of reason }
{
    match reason {
        PackReason::Short => "P1",
        PackReason::Marker => "P2",
        PackReason::Utf8 => "P3",
        PackReason::KeyKind => "P4",
        PackReason::KeyTwice => "P5",
        PackReason::Depth => "P6",
        PackReason::Trailing => "P7",
        PackReason::Size => "P9",
    }
}

/// The code of what is wrong with a structure.
pub(crate) fn cell_code(reason: Reason) -> &'static str
    ensures { result.now ≡ cell_code_of reason }
{
    match reason {
        Reason::UnknownTag => "S1",
        Reason::FieldCount => "S2",
        Reason::FieldKind => "S3",
        Reason::Range => "S4",
        Reason::PathShape => "S5",
        Reason::NotInVersion => "S6",
    }
}
