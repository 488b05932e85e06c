// What a move adds to the figures.
ghost use Rattle.std.specs.Prelude.{cond, ◌≡◌, ℤ};
ghost use Rattle.paper.specs.Formula.{lesser, greater};
ghost use Rattle.figures.specs.Figures.{one_of};
ghost use Rattle.figures.specs.Outcomes.{SmallOutcome};
ghost use Rattle.figures.specs.Adding.{RoomForOne, result_given, plus, single};

use crate::Totals;
use crate::outcomes::Outcome;
use crate::sums::add_value;
use formulas::blanks::{BLANK, is_blank};

// One of two results, as `pick` gives it of two that have a value; a blank one is left out.
fn one_of<F: Fn(i32, i32) -> i32>(pick: F, a: i32, b: i32) -> i32
    ghost f: { ℤ → ℤ → ℤ }
    requires may { F.IsAlwaysCallable pick }
    requires picks { (x y r : ℤ) → F.post pick x y r → r ≡ f x y }
    ensures { result ≡ one_of f a b }
{
    if is_blank(a) {
        return b;
    }
    if is_blank(b) {
        return a;
    }
    pick(a, b)
}

// The lesser of two results; a blank one is left out.
pub fn least_of(a: i32, b: i32) -> i32
    ensures { result ≡ one_of lesser a b }
{
    one_of(|x, y| x.min(y), a, b)
}

// The greater of two results; a blank one is left out.
pub fn greatest_of(a: i32, b: i32) -> i32
    ensures { result ≡ one_of greater a b }
{
    one_of(|x, y| x.max(y), a, b)
}

// The result of an accepted move, blank for a refused one.
fn given_by(number: u32, res: i32) -> i32
    ensures { result ≡ result_given number res }
{
    if number == 0 { res } else { BLANK }
}

// The figures with one more move.
pub(crate) fn add(totals: Totals, outcome: Outcome) -> Totals
    requires { RoomForOne totals × SmallOutcome outcome }
    ensures { result ≡ plus totals (single outcome) }
{
    let value = given_by(outcome.number, outcome.result);
    let blank = (outcome.number == 0) & is_blank(outcome.result);
    Totals {
        blank: totals.blank + u32::from(blank),
        least: least_of(totals.least, value),
        greatest: greatest_of(totals.greatest, value),
        sum: add_value(totals.sum, value),
        first: totals.first + outcome.first,
        second: totals.second + outcome.second,
        third: totals.third + outcome.third,
    }
}
