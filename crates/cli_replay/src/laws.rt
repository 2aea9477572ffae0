//! What holds of scripts, whatever runs them. The function has an empty body, and its contract is the law.
ghost use Rattle.cli_replay.specs.Scripts.{SaysOneThing};

/// Of bytes one thing is said: what is noted and the report, or the first line that can't be read.
pub fn says_one_thing()
    ensures { SaysOneThing }
{}
