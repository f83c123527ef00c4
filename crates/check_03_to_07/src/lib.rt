// Numbers 3 to 7 of a contract that is decoded: the first of their sentences that holds.
#![tactic(auto)]

ghost use Rattle.std.specs.Prelude.{◌≡◌};
ghost use Rattle.file_decoded.specs.Sections.{sections_held};
ghost use Rattle.check_03_to_07.specs.Shape.{sections_number, Held};

use check_03_04_sections::tables_and_names;
use check_05_to_07::uses_depth_sorts;
use file_decoded::DecodedSections;

// The first of the sentences 3 to 7 that holds of the sections that four slices hold, or 0.
pub fn sections_number(sections: &DecodedSections) -> u8
    requires { Held sections.now.functions.now sections.now.parameters.now sections.now.nodes.now }
    ensures { result ≡ sections_number (sections_held sections.now) }
{
    let number = tables_and_names(sections);
    if number != 0 {
        return number;
    }
    uses_depth_sorts(sections.functions, sections.nodes)
}
