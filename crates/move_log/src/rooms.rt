// Room in the log of kept moves, over its lent rows: the oldest of 64 moves pushed out, and the pairs of a move written from a place on.
ghost use Rattle.std.specs.Prelude.{true, ◌≡◌, ◌+◌, ◌≤◌, pos, length, get_or};
ghost use Rattle.paper.specs.Lists.{nat};
ghost use Rattle.paper.specs.Log.{log_in, laid_at, log_fits, room_made};
ghost use Rattle.move_log.specs.Named.{PairsLent};

use integers::wide;
use tables::lent::Move;

// The oldest move goes if there are 64.
pub fn make_room(log_sizes: &mut [u16], log_vars: &mut [u16], log_values: &mut [i32])
    requires { log_fits (log_in log_sizes.old log_vars.old log_values.old) ≡ true }
    ensures { log_in log_sizes.new log_vars.new log_values.new ≡ room_made (log_in log_sizes.old log_vars.old log_values.old) }
{
    if 64 <= log_sizes[0] {
        log_sizes.copy_within(1..65, 0);
        log_vars.copy_within(64..4096, 0);
        log_values.copy_within(64..4096, 0);
    }
}

// Writes the variables of a move, and their values, from a place of the log's rows on.
pub fn write_pairs(
    at: usize,
    stored: &[i32],
    mv: &Move,
    log_vars: &mut [u16],
    log_values: &mut [i32],
)
    requires named { PairsLent stored.now mv.now.pairs mv.now.vars.now }
    requires room { (at + mv.now.pairs ≤ length log_vars.old) × (at + mv.now.pairs ≤ length log_values.old) }
    ensures log_vars_after { log_vars.new ≡ laid_at at mv.now.pairs (nat mv.now.vars.now) log_vars.old }
    ensures log_values_after { log_values.new ≡ laid_at at mv.now.pairs (λ i. get_or stored.now (nat mv.now.vars.now i) (pos 0)) log_values.old }
{
    log_vars[at..at + mv.pairs].copy_from_slice(&mv.vars[..mv.pairs]);
    // Stays: what is written is looked up by what is read, so that no slice is copied.
    for i in 0..mv.pairs {
        log_values[at + i] = stored[wide(mv.vars[i])];
    }
}
