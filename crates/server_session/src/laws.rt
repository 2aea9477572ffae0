//! What holds of what a session answers. Each function has an empty body, and its contract is the law.
ghost use Rattle.std.specs.Prelude.{◌≡◌, ◌↔◌, ℕ, List, true, Ok};
ghost use Rattle.wire.specs.declared.Version.{Version};
ghost use Rattle.messages.specs.View.{ResponseView};
ghost use Rattle.messages.specs.Sound.{IsResponse};
ghost use Rattle.messages.specs.Writing.{response_spelling};
ghost use Rattle.server_session.specs.Said.{fits};

/// A response that is made of texts in UTF-8 and of cells of the version can be said exactly if it has a text: `RowTooLarge` or
/// `NotInVersion` is answered in the place of such a one exactly if it has none.
#[tactic(auto, using(crate::proofs::Fitting::fits_with_text))]
pub fn fits_where_it_has_a_text()
    ensures { (v : Version) (m : ResponseView) → IsResponse v m
        → (fits v m ≡ true) ↔ ((b : List ℕ) × (response_spelling v m ≡ Ok b)) }
{}
