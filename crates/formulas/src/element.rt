// ELEMENT: the first input is an index from 0 into the others, the candidates.
ghost use Rattle.std.specs.Prelude.{◌<◌, ◌≡◌, length};
ghost use Rattle.paper.specs.Formula as Formula;
ghost use Rattle.formulas.specs.Given.{inputs_of};

use crate::blanks::BLANK;
use crate::inputs::Inputs;

// ELEMENT: the value of the chosen candidate, blank where the index chooses none.
pub fn element(row: Inputs) -> i32
    requires { 0 < length row.vars.now }
    ensures { result ≡ Formula.element (inputs_of row.entry) }
{
    let index = row.at(0);
    if index < 0 {
        return BLANK;
    }
    let place = index as usize + 1;
    if place < row.len() {
        row.at(place)
    } else {
        BLANK
    }
}
