// Checks 21 and 20 of the move that takes the latest back.
ghost use Rattle.std.specs.Prelude.{◌≡◌, pred, ◌≤◌, length};
ghost use Rattle.paper.specs.Tables.{values_in};
ghost use Rattle.paper.specs.Checks.{Sound, fresh_lines, accepted, by_lines};
ghost use Rattle.paper.specs.Chains.{closes};
ghost use Rattle.paper.specs.Log.{logged, back};
ghost use Rattle.tables.specs.Answers.{answer_of};
ghost use Rattle.tables.specs.Lent.{lent_tables, lent_log};
ghost use Rattle.tables.specs.Makers.{Makers};
ghost use Rattle.verdicts.specs.Latest.{LatestFits};

use crate::taken::latest_of;
use choices::renewals::fresh_checks;
use tables::Refusal;
use tables::lent::{Log, Tables};

// It is read from the log, and checked as any other.
pub fn back_checks(
    tables: &Tables,
    by: &[u16],
    closed: bool,
    stored: &[i32],
    log: &Log,
) -> Result<(), Refusal>
    requires sound { Sound (lent_tables tables.now) }
    requires makers { Makers (lent_tables tables.now) by.now }
    requires closing { closed ≡ closes (lent_tables tables.now) }
    requires there { tables.now.n ≤ length stored.now }
    requires latest { LatestFits tables.now.n (lent_log log.now) }
    ensures { result ≡ answer_of tt (by_lines (fresh_lines (back (lent_log log.now) (pred (logged (lent_log log.now)))) (lent_tables tables.now) (values_in (lent_tables tables.now) stored.now)) accepted) }
{
    fresh_checks(tables, by, closed, stored, &latest_of(log))
}
