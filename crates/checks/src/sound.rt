// Checks 2 to 5 in the paper's order: whether the tables are sound, and the bounds good.
ghost use Rattle.std.specs.Prelude.{◌≡◌, ◌≤◌, length};
ghost use Rattle.integers.specs.Below.{if_below};
ghost use Rattle.paper.specs.Lists.{first_fail};
ghost use Rattle.paper.specs.Checks.{accepted, made_once, row_lines, by_lines};
ghost use Rattle.paper.proofs.Sizes.{Sized};
ghost use Rattle.tables.specs.Answers.{answer_of};
ghost use Rattle.tables.specs.Lent.{lent_tables, lent_bounds};
ghost use Rattle.checks.specs.Judged.{TablesJudged};
ghost use Rattle.checks.specs.Once.{Made};

use crate::bounds::first_bad_bound;
use integers::wide;
use tables::lent::{Bounds, Tables};
use tables::{
    Refusal, first_bad_kind, first_bad_number, first_bad_shape, makers, none_fails, refused,
    total_of,
};

// Checks 2 to 4 of the rows, each over all rows before the next. Past check 3 the parts lie within the first e coefficients.
pub fn row_checks(tables: &Tables) -> Result<(), Refusal>
    requires { Sized (lent_tables tables.now) }
    ensures { result ≡ answer_of tt (by_lines (row_lines (lent_tables tables.now)) accepted) }
{
    none_fails(2, first_bad_kind(tables))?;
    none_fails(3, first_bad_shape(tables))?;
    if total_of(tables) != tables.e {
        return Err(refused(3, tables.m.saturating_sub(1)));
    }
    let within_e = Tables {
        coefs: &tables.coefs[..tables.e],
        ..*tables
    };
    none_fails(4, first_bad_number(&within_e))
}

// Check 5: the first row that makes a variable which an earlier row makes too. The row of makers names the first row that makes each. The test is
// not whether it names this row: the compiler would take the number that it reads for the next turn's, and each turn would wait for the one before.
fn first_made_again(tables: &Tables, by: &[u16]) -> Option<usize>
    requires { Made tables.now.n tables.now.m tables.now.makes.now by.now }
    ensures { result ≡ if_below tables.now.m (first_fail (made_once (lent_tables tables.now)) tables.now.m) }
{
    (0..tables.m).find(|&row| wide(by[wide(tables.makes[row])]) <= row)
}

// Checks 2 to 5, the bounds after the rows of check 4; if all are passed, `by` holds the makers.
pub fn table_checks(tables: &Tables, bounds: &Bounds, by: &mut [u16]) -> Result<(), Refusal>
    requires sized { Sized (lent_tables tables.now) }
    requires n_in_bounds { (tables.now.n ≤ length bounds.now.lows.now) × (tables.now.n ≤ length bounds.now.highs.now) × (tables.now.n ≤ length by.old) }
    ensures { TablesJudged (lent_tables tables.now) (lent_bounds bounds.now) by.new result }
{
    row_checks(tables)?;
    makers(tables.n, tables.m, tables.makes, by);
    none_fails(4, first_bad_bound(tables.n, by, bounds))?;
    none_fails(5, first_made_again(tables, by))
}
