//! What holds of the answers, whatever gives them. Each function has an empty body, and its contract is the law.
ghost use Rattle.cli_commands.specs.Laws.{FlagsAreWrong, HasOneAnswer, HasOneCheck};

/// Bytes have one answer.
pub fn has_one_answer()
    ensures { HasOneAnswer }
{}

/// A check of bytes tells one thing at a version.
pub fn has_one_check()
    ensures { HasOneCheck }
{}

/// No command has a flag: a word of a hyphen and more, after the program's name.
pub fn flags_are_wrong()
    ensures { FlagsAreWrong }
{}
