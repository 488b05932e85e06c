// Check 1, as far as every call asks it.
ghost use Rattle.std.specs.Prelude.{◌&&◌, ◌≡◌, leb, length};
ghost use Rattle.paper.specs.Checks.{sized};
ghost use Rattle.tables.specs.Lent.{lent_tables};

use crate::lent::Tables;

// The counts are within their bounds, and neither a table nor the row of values is shorter than they ask. No test waits for another, so they
// are joined by `&`.
pub fn sizes(tables: &Tables, values: &[i32]) -> bool
    ensures { result ≡ (sized (lent_tables tables.now) && leb tables.now.n (length values.now)) }
{
    (1 <= tables.n)
        & (tables.n <= 4096)
        & (tables.m <= tables.n)
        & (tables.e <= 16384)
        & (tables.m <= tables.kinds.len())
        & (tables.m <= tables.makes.len())
        & (tables.m <= tables.params.len())
        & (tables.m <= tables.firsts.len())
        & (tables.m <= tables.counts.len())
        & (tables.e <= tables.vars.len())
        & (tables.e <= tables.coefs.len())
        & (tables.n <= values.len())
}
