// The bounds in a file: stored one variable behind the other, and laid over lent rows.
ghost use Rattle.std.specs.Prelude.{◌≡◌, ◌++◌, ◌+◌, ◌*◌, ◌≤◌, ◌<◌, length};
ghost use Rattle.std.proofs.lemmas.List.Edits.{sets};
ghost use Rattle.std.specs.Int.{w32};
ghost use Rattle.std.proofs.Common.{to_z, of_z};
ghost use Rattle.paper.specs.Lists.{joined, over};
ghost use Rattle.paper.specs.File.{bytes_of, bound_bytes, column};

use crate::columns::lay_column;
use crate::numbers::Number;
use tables::lent::Bounds;

// Stores the bounds of one variable, lowest then highest.
pub fn put_bound(bytes: &mut [u8], at: usize, low: i32, high: i32)
    requires { at + 8 ≤ length bytes.old }
    ensures { bytes.new ≡ sets bytes.old at (bytes_of 4 (of_z w32 low) ++ bytes_of 4 (of_z w32 high)) }
{
    low.write(bytes, at);
    high.write(bytes, at + 4);
}

// Stores the bounds, of as many variables as have them.
// Stays: v picks from two rows, and the place too.
pub fn put_bounds(bytes: &mut [u8], at: usize, count: usize, bounds: &Bounds)
    requires { (count ≤ length bounds.now.lows.now) × (count ≤ length bounds.now.highs.now) × (at + 8 * count ≤ length bytes.old) }
    ensures { bytes.new ≡ sets bytes.old at (joined (bound_bytes bounds.now.lows.now bounds.now.highs.now) count) }
{
    let Bounds { lows, highs } = *bounds;
    for v in 0..count {
        put_bound(bytes, at + 8 * v, lows[v], highs[v]);
    }
}

// Lays the two columns of the bounds over the lent ones, as many as have them.
pub fn lay_bounds(bytes: &[u8], at: usize, count: usize, lows: &mut [i32], highs: &mut [i32])
    requires count_in_bounds { (count ≤ length lows.old) × (count ≤ length highs.old) }
    requires at_bound { (at < 1048576) × (at + 8 * count ≤ length bytes.now) }
    ensures lows_after { lows.new ≡ over count (λ v. to_z w32 (column bytes.now 4 at 8 v)) lows.old }
    ensures highs_after { highs.new ≡ over count (λ v. to_z w32 (column bytes.now 4 (at + 4) 8 v)) highs.old }
{
    lay_column(bytes, at, 8, count, lows);
    lay_column(bytes, at + 4, 8, count, highs);
}
