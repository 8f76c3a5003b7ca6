//! What a sheet says. Each function states some of it by its contract, and does nothing.
ghost use Rattle.std.specs.Prelude.{◌≡◌, ℕ, List, Ok};
ghost use Rattle.litmus_text.specs.declared.text_lines.LinedObject.{LinedObject};
ghost use Rattle.litmus_text.specs.Texts.{litmus_of};
ghost use Rattle.sheets.specs.Reading.{sheet_of, litmus_said};

/// What a sheet says is what a litmus text says: the one that its lines make.
#[tactic(auto, using(crate::proofs::ToldLines::object_is_told))]
pub fn sheets_say_litmus_texts()
    ensures { (text : List ℕ) (lined : LinedObject) → sheet_of text ≡ Ok lined → litmus_of (litmus_said text) ≡ Ok lined.object }
{}
