// The rows and the entries of a file, column by column laid over lent rows.
ghost use Rattle.std.specs.Prelude.{◌≡◌, ◌+◌, ◌≤◌, ◌<◌, length};
ghost use Rattle.std.specs.Int.{w16, w32};
ghost use Rattle.std.proofs.Common.{to_z};
ghost use Rattle.paper.specs.Lists.{over};
ghost use Rattle.paper.specs.File.{column, rows_from, entries_from, bounds_from};

use crate::columns::lay_column;
use crate::places::{Size, entries_at, rows_at};

// Lays the five columns of the rows over the lent ones.
// Stays: the rows are written: with a struct of them lent as `&mut` the goal `returns-clause-kinds_after` stayed open, and each row would need a clause that it is still the caller's.
pub fn lay_rows(
    bytes: &[u8],
    head: usize,
    size: Size,
    kinds: &mut [u16],
    makes: &mut [u16],
    params: &mut [i32],
    firsts: &mut [u16],
    counts: &mut [u16],
)
    requires m_in_bounds { (size.m ≤ length kinds.old) × (size.m ≤ length makes.old) × (size.m ≤ length params.old) × (size.m ≤ length firsts.old) × (size.m ≤ length counts.old) }
    requires head_bound { (head ≤ 28) × (size.n < 65536) × (entries_from head size.n size.m ≤ length bytes.now) }
    ensures kinds_after { kinds.new ≡ over size.m (column bytes.now 2 (rows_from head size.n) 12) kinds.old }
    ensures makes_after { makes.new ≡ over size.m (column bytes.now 2 (rows_from head size.n + 2) 12) makes.old }
    ensures params_after { params.new ≡ over size.m (λ r. to_z w32 (column bytes.now 4 (rows_from head size.n + 4) 12 r)) params.old }
    ensures firsts_after { firsts.new ≡ over size.m (column bytes.now 2 (rows_from head size.n + 8) 12) firsts.old }
    ensures counts_after { counts.new ≡ over size.m (column bytes.now 2 (rows_from head size.n + 10) 12) counts.old }
{
    let at = rows_at(head, size.n);
    lay_column(bytes, at, 12, size.m, kinds);
    lay_column(bytes, at + 2, 12, size.m, makes);
    lay_column(bytes, at + 4, 12, size.m, params);
    lay_column(bytes, at + 8, 12, size.m, firsts);
    lay_column(bytes, at + 10, 12, size.m, counts);
}

// Lays the two columns of the entries over the lent ones.
pub fn lay_entries(bytes: &[u8], head: usize, size: Size, vars: &mut [u16], coefs: &mut [i16])
    requires e_in_bounds { (size.e ≤ length vars.old) × (size.e ≤ length coefs.old) }
    requires head_bound { (head ≤ 28) × (size.n < 65536) × (size.m < 65536) × (bounds_from head size.n size.m size.e ≤ length bytes.now) }
    ensures vars_after { vars.new ≡ over size.e (column bytes.now 2 (entries_from head size.n size.m) 4) vars.old }
    ensures coefs_after { coefs.new ≡ over size.e (λ i. to_z w16 (column bytes.now 2 (entries_from head size.n size.m + 2) 4 i)) coefs.old }
{
    let at = entries_at(head, size.n, size.m);
    lay_column(bytes, at, 4, size.e, vars);
    lay_column(bytes, at + 2, 4, size.e, coefs);
}
