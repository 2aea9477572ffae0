//! What holds of the texts that are printed, whatever prints them. The function has an empty body, and its contract is the law.
ghost use Rattle.std.specs.Prelude.{◌≡◌, List};
ghost use Rattle.hex.specs.Hex.{encode_lower};
ghost use Rattle.packstream.specs.Canon.{canon};
ghost use Rattle.packstream.specs.Tree.{Tree, list};
ghost use Rattle.packstream.specs.View.{trees_of};
ghost use Rattle.structures.specs.Form.{Form};
ghost use Rattle.wire.specs.declared.Version.{Version};
ghost use Rattle.cli_output.specs.Telling.{row_line, row_text};

/// What is printed of a row that has a form at a version is the shortest spelling of that form, the only one.
#[tactic(auto, using(crate::proofs::Spelled::spelled_form))]
pub fn one_text()
    ensures { (v : Version) (cells : List Tree) (t : Tree) → Form v (list (trees_of cells)) t
        → row_text v cells ≡ row_line (encode_lower (canon t)) }
{}
