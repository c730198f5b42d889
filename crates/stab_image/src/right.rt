//! That the image of a run is in the grammar.
ghost use Rattle.std.specs.Prelude.{List, ℤ};
ghost use Rattle.std.specs.List.{AllByRecursion};
ghost use Rattle.stab_code.specs.Program.{ProgramParts};
ghost use Rattle.stab_journal.specs.declared.event.Event.{Event as OneEvent};
ghost use Rattle.image_laws.specs.Image.{StandsAt};
ghost use Rattle.image_lines.specs.HeadText.{IsProbe};
ghost use Rattle.stab_image.specs.Written.{IsRight};

use crate::image::Image;
use standing_runs::runs_stand;

/// An image that stands for a history is right, so `read_image` gives it back from the text that `put_image` writes of it. It takes
/// one pass over the nodes of the program and one over the script.
pub fn history_is_right(image: &Image)
    ensures { (p : ProgramParts) (script : List ℤ) (events : List OneEvent) → StandsAt p script events image.now → IsRight image.now }
{
    runs_stand(&image.program);
    numbers_fit(&image.script);
}

// The numbers of a script have 64 bits, as they lie in memory.
fn numbers_fit(script: &[i64])
    ensures { AllByRecursion IsProbe script.now }
{
    for number in script {
        let _number = *number;
    }
}
