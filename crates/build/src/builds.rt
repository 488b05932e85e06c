// The verdict of build, before anything lent is written.
ghost use Rattle.std.specs.Prelude.{◌≡◌};
ghost use Rattle.tables.specs.Lent.{lent_bounds};
ghost use Rattle.verdicts.specs.Lent.{no_record, lent_to_build};
ghost use Rattle.build.specs.BuildJudged.{Scratch, BuildJudged};

use chains::closed::some_closes;
use chains::numbering::number_all;
use checks::allowed::{Values, first_bad_value};
use checks::sound::table_checks;
use choices::afresh::first_stuck;
use tables::lent::{Bounds, Index, Move, Tables};
use tables::{Refusal, none_fails, refused};
use verdicts::fits::build_fits;

// Checks 1 to 7 of build, and 20: where no chain closes every variable is determined, and elsewhere the start values are tried with a move of no pairs. If all
// are passed, `state` holds the number of every variable, and `by` its maker.
pub fn judge_build(
    tables: &Tables,
    bounds: &Bounds,
    starts: &[i32],
    numbers: &[u16],
    order: &[u16],
    stored: &[i32],
    index: &Index,
    reasons: &[u8],
    log_sizes: &[u16],
    by: &mut [u16],
    state: &mut [u16],
) -> Result<(), Refusal>
    requires scratch { Scratch tables.now.n by.old state.old }
    ensures { BuildJudged (lent_to_build no_record tables.now (lent_bounds bounds.now) starts.now numbers.now order.now stored.now index.now.starts.now index.now.places.now reasons.now log_sizes.now) state.new result }
{
    if !build_fits(
        tables, bounds, starts, numbers, order, stored, index, reasons, log_sizes,
    ) {
        return Err(refused(1, 0));
    }
    table_checks(tables, bounds, by)?;
    none_fails(6, number_all(tables, by, state))?;
    none_fails(
        7,
        first_bad_value(Values::Start, tables.n, by, bounds, starts),
    )?;
    if !some_closes(tables, state) {
        return Ok(());
    }
    let unmoved = Move {
        pairs: 0,
        vars: &tables.vars[..0],
        values: &starts[..0],
    };
    none_fails(20, first_stuck(tables, by, starts, &unmoved))
}
