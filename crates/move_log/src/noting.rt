// A kept move noted in the log as the latest, over its lent rows: its variables, and the values that they had before it.
ghost use Rattle.std.specs.Prelude.{true, ◌≡◌, pos, get_or};
ghost use Rattle.paper.specs.Log.{log_in, log_fits, noted};
ghost use Rattle.tables.specs.Lent.{lent_move};
ghost use Rattle.move_log.specs.Named.{PairsLent};

use crate::rooms::{make_room, write_pairs};
use integers::wide;
use tables::lent::Move;

// Stays: three written rows, since callers from C lend them one by one, and `log_in` joins them in clauses.
// Notes a move as the latest, over the stored values before it: behind the moves held, and as the last if there are 64.
pub fn note_move(
    stored: &[i32],
    mv: &Move,
    log_sizes: &mut [u16],
    log_vars: &mut [u16],
    log_values: &mut [i32],
)
    requires fits { log_fits (log_in log_sizes.old log_vars.old log_values.old) ≡ true }
    requires named { PairsLent stored.now mv.now.pairs mv.now.vars.now }
    ensures { log_in log_sizes.new log_vars.new log_values.new ≡ noted (log_in log_sizes.old log_vars.old log_values.old) (λ v. get_or stored.now v (pos 0)) (lent_move mv.now) }
{
    let k = wide(log_sizes[0]).min(63);
    make_room(log_sizes, log_vars, log_values);
    write_pairs(64 * k, stored, mv, log_vars, log_values);
    log_sizes[0] = (k + 1) as u16;
    log_sizes[k + 1] = mv.pairs as u16;
}
