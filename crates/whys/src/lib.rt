// Why the result of a formula is blank. A blank input that stops it comes first, then the headway, the index, and departures; what is left is a result
// that left the range.
#![tactic(auto)]

pub mod notes;
pub mod plain;
pub mod reasoned;

ghost use Rattle.std.specs.Prelude.{◌<◌, true, false, cond, not, ◌≡◌, length};
ghost use Rattle.integers.specs.Integers.{eq_z};
ghost use Rattle.paper.specs.Checks.{arity};
ghost use Rattle.paper.specs.Formula.{blank};
ghost use Rattle.paper.specs.Reason.{all_blank, inside, choice_blank};
ghost use Rattle.paper.specs.Reason as Reason;
ghost use Rattle.formulas.specs.Given.{inputs_of};
ghost use Rattle.whys.specs.Codes.{code};
ghost use Rattle.whys.specs.Window.{window_why};

use formulas::blanks::{BLANK, is_blank};
use formulas::inputs::Inputs;

// Why a result is blank, by its code.
#[derive(Clone, Copy)]
enum Cause {
    LeftRange = 1,
    IndexOutside = 2,
    HeadwayBad = 3,
    InputBlank = 4,
    NoDepartures = 5,
}

// Whether all inputs are blank.
fn all_blank(row: Inputs) -> bool
    ensures { result ≡ all_blank (inputs_of row.entry) }
{
    row.len() <= row.places(BLANK)
}

// Whether an index picks none of so many candidates.
fn picks_none(index: i32, count: usize) -> bool
    ensures { result ≡ not (inside index count) }
{
    index < 0 || count <= index as usize
}

// ELEMENT: the index is outside.
fn outside(row: Inputs) -> bool
    requires { 0 < length row.vars.now }
    ensures { result ≡ Reason.outside_index (inputs_of row.entry) }
{
    picks_none(row.at(0), row.len() - 1)
}

// ELEMENT: the index is blank, or the candidate that it picks. A blank index picks none.
fn choice_blank(row: Inputs) -> bool
    requires { 0 < length row.vars.now }
    ensures { result ≡ choice_blank (inputs_of row.entry) }
{
    let index = row.at(0);
    if picks_none(index, row.len() - 1) {
        return is_blank(index);
    }
    is_blank(row.at(index as usize + 1))
}

// Of ELEMENT.
fn of_element(row: Inputs) -> Cause
    requires { 0 < length row.vars.now }
    ensures { code result ≡ cond (choice_blank (inputs_of row.entry)) 4 (cond (Reason.outside_index (inputs_of row.entry)) 2 1) }
{
    if choice_blank(row) {
        Cause::InputBlank
    } else if outside(row) {
        Cause::IndexOutside
    } else {
        Cause::LeftRange
    }
}

// Of DEPARTURES.
fn of_departures(row: Inputs) -> Cause
    requires { 2 < length row.vars.now }
    ensures { code result ≡ window_why false (inputs_of row.entry) }
{
    if row.any_blank() {
        Cause::InputBlank
    } else if row.at(2) <= 0 {
        Cause::HeadwayBad
    } else {
        Cause::LeftRange
    }
}

// Of LAST, which asks for departures too: without any the end is not after the start.
fn of_last(row: Inputs) -> Cause
    requires { 2 < length row.vars.now }
    ensures { code result ≡ window_why true (inputs_of row.entry) }
{
    match of_departures(row) {
        Cause::LeftRange if row.at(1) <= row.at(0) => Cause::NoDepartures,
        other => other,
    }
}

// Of a formula that only blank inputs stop, or of which the result left the range.
fn of_inputs(stopped: bool) -> Cause
    ensures { code result ≡ cond stopped 4 1 }
{
    if stopped {
        Cause::InputBlank
    } else {
        Cause::LeftRange
    }
}

// Why the result of the formula of a kind is blank.
fn why(kind: u16, row: Inputs) -> Cause
    requires { arity kind (length row.vars.now) ≡ true }
    ensures { code result ≡ Reason.why kind (inputs_of row.entry) }
{
    // Stays: a kind is a number of the lent tables (the C interface).
    match kind {
        2 | 3 => of_inputs(all_blank(row)),
        4 => of_element(row),
        8 => of_departures(row),
        9 => of_last(row),
        _ => of_inputs(row.any_blank()),
    }
}

// The reason of a value: 0 if it has one, else why the formula of the kind gives blank over these inputs.
pub fn reason(kind: u16, row: Inputs, value: i32) -> u8
    requires { arity kind (length row.vars.now) ≡ true }
    ensures { result ≡ cond (eq_z value blank) (Reason.why kind (inputs_of row.entry)) 0 }
{
    if is_blank(value) {
        why(kind, row) as u8
    } else {
        0
    }
}
