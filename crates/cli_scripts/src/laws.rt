//! What holds of lines, whatever reads them.
ghost use Rattle.std.specs.Prelude.{◌≡◌, ◌↔◌, ℕ, List, Some};
ghost use Rattle.packstream.specs.Plain.{AreBytes};
ghost use Rattle.cli_scripts.specs.Laws.{AreWords};
ghost use Rattle.cli_scripts.specs.Params.{IsParams, params_of};
ghost use Rattle.cli_scripts.specs.Views.{Params as AnyParams, Text as AnyText};
ghost use Rattle.cli_scripts.specs.Words.{words_of};

/// The words of a line are those that one blank between each two joins to the line: none is empty, and none has a blank.
pub fn words_are_joined()
    ensures { (line : AnyText) (ws : List AnyText) → (words_of line ≡ Some ws) ↔ AreWords line ws }
{}

/// Bytes spell parameters exactly if they spell a dictionary that is a cell at some version, with just these entries.
pub fn params_are_cells()
    ensures { (b : List ℕ) (ps : AnyParams) → AreBytes b → (params_of b ≡ Some ps) ↔ IsParams b ps }
{}
