// How a route is begun: the stored values with the move put in, and no flag set.
ghost use Rattle.std.specs.Prelude.{◌≡◌, ◌≤◌, pos, length, get_or};
ghost use Rattle.paper.specs.Lists.{over};
ghost use Rattle.paper.specs.Net.{moved};
ghost use Rattle.paper.specs.Checks.{pairs_of_move};
ghost use Rattle.tables.specs.Lent.{lent_move};
ghost use Rattle.rows.specs.Put.{PairsFit, put_in, Startable};

use crate::copies::copy::copy_values;
use integers::wide;
use tables::lent::Move;

// Puts the pairs of a move into a row of values, from the last to the first: the first pair that names a variable decides.
// (An accepted move names each variable once.)
pub fn put_move(mv: &Move, row: &mut [i32])
    requires { PairsFit (length row.old) (lent_move mv.now) }
    ensures { row.new ≡ put_in (pairs_of_move (lent_move mv.now)) row.old }
{
    // Stays: `zip` turned round wants both rows cut to the pairs first, which is no plainer.
    for i in (0..mv.pairs).rev() {
        row[wide(mv.vars[i])] = mv.values[i];
    }
}

// Puts 0 at the first n flags.
pub fn clear_flags(n: usize, flags: &mut [u8])
    requires { n ≤ length flags.old }
    ensures { flags.new ≡ over n (λ v. 0) flags.old }
{
    flags[..n].fill(0);
}

// Begins a route: the trial row has the stored values with the move put in, and no flag is set.
pub fn begin_route(n: usize, stored: &[i32], mv: &Move, trial: &mut [i32], flags: &mut [u8])
    requires { Startable n stored.now (lent_move mv.now) trial.old flags.old }
    ensures trial_after { trial.new ≡ over n (moved (pairs_of_move (lent_move mv.now)) (λ v. get_or stored.now v (pos 0))) trial.old }
    ensures flags_after { flags.new ≡ over n (λ v. 0) flags.old }
{
    copy_values(n, stored, trial);
    put_move(mv, trial);
    clear_flags(n, flags);
}
