// The latest move of a log: which one it is, and the log without it.
ghost use Rattle.std.specs.Prelude.{◌≡◌, pred, ◌<◌, length, set};
ghost use Rattle.paper.specs.Lists.{nat};

use integers::wide;

// Which move of the log is the latest; 0 if there is none.
// Stays: 0 for none, since its clause says `pred`, and a log without a move is asked for none.
pub fn latest_move(log_sizes: &[u16]) -> usize
    requires { 0 < length log_sizes.now }
    ensures { result ≡ pred (nat log_sizes.now 0) }
{
    wide(log_sizes[0]).saturating_sub(1)
}

// The log is without its latest move, whose room the next one takes.
pub fn drop_move(log_sizes: &mut [u16])
    requires { 0 < length log_sizes.old }
    ensures { log_sizes.new ≡ set log_sizes.old 0 (pred (nat log_sizes.old 0)) }
{
    log_sizes[0] = log_sizes[0].saturating_sub(1);
}
