// Checks 21 and 20, the last of trial, keep and taking back: in a model with a closed chain every stored value is the fresh one, and once the move is put in
// every variable is determined.
ghost use Rattle.std.specs.Prelude.{◌≡◌, ◌≤◌, length};
ghost use Rattle.paper.specs.Tables.{values_in};
ghost use Rattle.paper.specs.Checks.{Sound, fresh_lines, accepted, by_lines};
ghost use Rattle.paper.specs.Chains.{closes};
ghost use Rattle.tables.specs.Answers.{answer_of};
ghost use Rattle.tables.specs.Lent.{lent_tables, lent_move};
ghost use Rattle.tables.specs.Makers.{Makers};
ghost use Rattle.rows.specs.Put.{PairsFit};

use crate::afresh::{first_stale, first_stuck};
use tables::lent::{Move, Tables};
use tables::{Refusal, none_fails};

// Check 21 and then 20. Where no chain closes every variable is determined, and nothing is asked of stored values; `closed` says whether one does.
pub fn fresh_checks(
    tables: &Tables,
    by: &[u16],
    closed: bool,
    stored: &[i32],
    mv: &Move,
) -> Result<(), Refusal>
    requires sound { Sound (lent_tables tables.now) }
    requires makers { Makers (lent_tables tables.now) by.now }
    requires closing { closed ≡ closes (lent_tables tables.now) }
    requires there { tables.now.n ≤ length stored.now }
    requires fits { PairsFit tables.now.n (lent_move mv.now) }
    ensures { result ≡ answer_of tt (by_lines (fresh_lines (lent_move mv.now) (lent_tables tables.now) (values_in (lent_tables tables.now) stored.now)) accepted) }
{
    if !closed {
        return Ok(());
    }
    none_fails(21, first_stale(tables, by, stored))?;
    none_fails(20, first_stuck(tables, by, stored, mv))
}
