// A column of a file's tables, laid over a lent row. The start values are one column.
ghost use Rattle.std.specs.Prelude.{◌≡◌, ◌≤◌, length};
ghost use Rattle.std.specs.Int.{w32};
ghost use Rattle.std.proofs.Common.{to_z};
ghost use Rattle.paper.specs.Lists.{over};
ghost use Rattle.paper.specs.File.{column, rows_from};
ghost use Rattle.fields.specs.Columns.{Inside};

use crate::numbers::Number;

// Lays a column of numbers over a row.
// Stays: i picks the place that is read too, so an iterator over the row would have to count it.
pub fn lay_column<N: Number>(bytes: &[u8], at: usize, step: usize, count: usize, out: &mut [N])
    requires inside { Inside (length bytes.now) at step N.width count }
    requires count_in_bounds { count ≤ length out.old }
    ensures { out.new ≡ over count (λ i. N.of_bits (column bytes.now N.width at step i)) out.old }
{
    for i in 0..count {
        out[i] = N::read(bytes, at + step * i);
    }
}

// Lays the start values of a file behind this header over the lent ones.
pub fn lay_starts(bytes: &[u8], head: usize, n: usize, starts: &mut [i32])
    requires { (n ≤ length starts.old) × (rows_from head n ≤ length bytes.now) }
    ensures { starts.new ≡ over n (λ v. to_z w32 (column bytes.now 4 head 4 v)) starts.old }
{
    lay_column(bytes, head, 4, n, starts);
}
