// The moves of a log, each judged as a move to be kept is, and all of them together.
ghost use Rattle.std.specs.Prelude.{true, ◌≡◌, ◌≤◌, ◌<◌, length};
ghost use Rattle.paper.specs.Log.{log_fits, move_good, back, log_good};
ghost use Rattle.tables.specs.Lent.{lent_bounds, lent_log};
ghost use Rattle.checks.specs.Allowed.{OfMakers};

use checks::moves::all_pairs_good;
use checks::repeats::first_again;
use integers::wide;
use tables::lent::{Bounds, Log, Move};

// Move k of the log has at most 64 pairs, of search variables, each named once, and no value is blank or outside its bounds.
fn logged_good(n: usize, by: &[u16], bounds: &Bounds, log: &Log, k: usize) -> bool
    requires n_in_bounds { (n ≤ length by.now) × (k < 64) }
    requires log_values_value { log_fits (lent_log log.now) ≡ true }
    ensures { OfMakers n by.now (λ t. result ≡ move_good t (lent_bounds bounds.now) (back (lent_log log.now) k)) }
{
    let pairs = wide(log.sizes[k + 1]);
    if 64 < pairs {
        return false;
    }
    let logged = Move {
        pairs,
        vars: &log.vars[64 * k..],
        values: &log.values[64 * k..],
    };
    all_pairs_good(n, by, bounds, &logged) && first_again(logged.pairs, logged.vars).is_none()
}

// The log has no more moves than 64 or than that number kept, and each is good.
pub fn log_good(n: usize, by: &[u16], bounds: &Bounds, kept: u32, log: &Log) -> bool
    requires n_in_bounds { n ≤ length by.now }
    requires log_values_value { log_fits (lent_log log.now) ≡ true }
    ensures { OfMakers n by.now (λ t. result ≡ log_good (lent_log log.now) t (lent_bounds bounds.now) kept) }
{
    let held = wide(log.sizes[0]);
    if 64 < held {
        return false;
    }
    if (kept as usize) < held {
        return false;
    }
    (0..held).all(|k| logged_good(n, by, bounds, log, k))
}
