// The value of one row over a row of values.
ghost use Rattle.std.specs.Prelude.{◌≡◌};
ghost use Rattle.tables.specs.Lent.{lent_tables};
ghost use Rattle.routes.specs.Rows.{RowFitsIn, row_gives_in};

use formulas::formula_value;
use integers::wide;
use tables::lent::Tables;

// What the formula of row r gives over the values.
pub fn row_value(r: usize, tables: &Tables, values: &[i32]) -> i32
    requires { RowFitsIn (lent_tables tables.now) r values.now }
    ensures { result ≡ row_gives_in (lent_tables tables.now) r values.now }
{
    let first = wide(tables.firsts[r]);
    let count = wide(tables.counts[r]);
    formula_value(
        tables.kinds[r],
        tables.params[r],
        first,
        count,
        tables.coefs,
        tables.vars,
        values,
    )
}
