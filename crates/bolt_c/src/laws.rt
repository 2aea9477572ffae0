//! Laws on the definitions. Each function has an empty body, and its contract is the law.

ghost use Rattle.bolt_c.specs.Values.{HeadsTell};

/// Of every spelling of every value, wherever it stands: its head tells the value, and its members come next.
pub fn heads_tell()
    ensures { HeadsTell }
{}
