//! What a program file says, and which site a text names. Each function states it by its contract, and does nothing.
ghost use Rattle.std.specs.Prelude.{◌≡◌, ◌<◌, ◌^◌, ◌⊎◌, ℕ, Bool, List, Ok, Some, slice_index};
ghost use Rattle.isa.specs.Objects.{Object};
ghost use Rattle.litmus_text.specs.Grammar.{IsText};
ghost use Rattle.loader.specs.Spelling.{IsSpelled};
ghost use Rattle.text_tokens.specs.Text.{lines_of};
ghost use Rattle.commands.specs.AskedSites.{site_named};
ghost use Rattle.commands.specs.Programs.{IsSheetOf, program_of};
ghost use Rattle.commands.specs.StateTexts.{site_text};

use litmus_text::laws::texts_are_read;
use loader::objects_are_read;

/// A file is a program exactly where its lines are those of a text of the grammar; or it is a sheet, and the lines that it
/// says are those of such a text; or its bytes are the spelling of an object in one of the versions of the format. So a text
/// is never read as an object or a sheet, nor any of them as another.
pub fn programs_are_texts_or_objects()
    ensures only { (bytes : List ℕ) (o : Object) → ((i : ℕ) → slice_index bytes i < 256)
        → program_of bytes ≡ Ok o → IsSpelled o bytes ⊎ (IsText (lines_of bytes) o ⊎ IsSheetOf o bytes) }
    ensures text { (bytes : List ℕ) (o : Object) → IsText (lines_of bytes) o → program_of bytes ≡ Ok o }
    ensures sheet { (bytes : List ℕ) (o : Object) → IsSheetOf o bytes → program_of bytes ≡ Ok o }
    ensures object { (bytes : List ℕ) (o : Object) → IsSpelled o bytes → program_of bytes ≡ Ok o }
{
    texts_are_read();
    objects_are_read();
}

/// The text by which a report says where an instruction is names that site.
pub fn written_sites_are_named()
    ensures { (processor : ℕ) (recovery : Bool) (place : ℕ) → processor < 2 ^ 32 → place < 2 ^ 32
        → site_named (site_text processor recovery place)
        ≡ Some (record { processor = processor; recovery = recovery; place = place }) }
{}
