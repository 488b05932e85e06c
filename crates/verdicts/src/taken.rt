// The latest move of a log that is lent to be read.
ghost use Rattle.std.specs.Prelude.{◌≡◌, pred};
ghost use Rattle.paper.specs.Log.{logged, back};
ghost use Rattle.tables.specs.Lent.{lent_move, lent_log};
ghost use Rattle.verdicts.specs.Latest.{LatestRoom};

use integers::wide;
use move_log::latest::latest_move;
use tables::lent::{Log, Move};

// Its variables get the values before it, which stand in the log from its place on.
pub fn latest_of<'a>(log: &Log<'a>) -> Move<'a>
    requires room { LatestRoom (lent_log log.now) }
    ensures { lent_move result ≡ back (lent_log log.now) (pred (logged (lent_log log.now))) }
{
    let at = latest_move(log.sizes);
    Move {
        pairs: wide(log.sizes[at + 1]),
        vars: &log.vars[64 * at..],
        values: &log.values[64 * at..],
    }
}
