// The checks behind those of the model: what a move, the variables asked and the log must be.
ghost use Rattle.std.specs.Prelude.{[], true, ◌≡◌, ◌≤◌, length};
ghost use Rattle.paper.specs.Checks.{accepted};
ghost use Rattle.paper.specs.Log.{log_fits};
ghost use Rattle.tables.specs.Answers.{answer_of};
ghost use Rattle.tables.specs.Lent.{lent_bounds, lent_move, lent_log};
ghost use Rattle.checks.specs.Allowed.{OfMakers};
ghost use Rattle.verdicts.specs.Lent.{lent_to_try};
ghost use Rattle.verdicts.specs.Chains.{ask_checks, keep_checks, take_checks};

use crate::asked::Asked;
use checks::moves::move_checks;
use move_log::logs::log_good;
use tables::lent::{Bounds, Log, Move};
use tables::{Refusal, first_unknown, none_fails, refused};

// Checks 9 to 12, 17 and 13: the route, the move and the variables asked.
pub fn ask_checks(
    n: usize,
    by: &[u16],
    bounds: &Bounds,
    mv: &Move,
    asked: &Asked,
) -> Result<(), Refusal>
    requires n_in_bounds { (n ≤ length by.now) × (mv.now.pairs ≤ 64) × (mv.now.pairs ≤ length mv.now.vars.now) × (mv.now.pairs ≤ length mv.now.values.now) }
    requires asked_bound { (asked.now.count ≤ 32) × (asked.now.count ≤ length asked.now.vars.now) }
    ensures { OfMakers n by.now (λ t. result ≡ answer_of tt (ask_checks (lent_to_try mv.now asked.now [] [] [] []) t (lent_bounds bounds.now) accepted)) }
{
    if !(1..=3).contains(&asked.route) {
        return Err(refused(9, 0));
    }
    move_checks(n, by, bounds, mv)?;
    none_fails(13, first_unknown(n, asked.count, asked.vars))
}

// Checks 10 to 12, 17 and 16: the move and the log.
pub fn keep_checks(
    n: usize,
    by: &[u16],
    bounds: &Bounds,
    kept: u32,
    mv: &Move,
    log: &Log,
) -> Result<(), Refusal>
    requires n_in_bounds { (n ≤ length by.now) × (mv.now.pairs ≤ 64) × (mv.now.pairs ≤ length mv.now.vars.now) × (mv.now.pairs ≤ length mv.now.values.now) }
    requires log_values_value { log_fits (lent_log log.now) ≡ true }
    ensures { OfMakers n by.now (λ t. result ≡ answer_of tt (keep_checks (lent_log log.now) (lent_move mv.now) kept t (lent_bounds bounds.now) accepted)) }
{
    move_checks(n, by, bounds, mv)?;
    if !log_good(n, by, bounds, kept, log) {
        return Err(refused(16, 0));
    }
    Ok(())
}

// Checks 16 and 15: the log, and whether it holds a move.
pub fn take_checks(
    n: usize,
    by: &[u16],
    bounds: &Bounds,
    kept: u32,
    log: &Log,
) -> Result<(), Refusal>
    requires n_in_bounds { n ≤ length by.now }
    requires log_values_value { log_fits (lent_log log.now) ≡ true }
    ensures { OfMakers n by.now (λ t. result ≡ answer_of tt (take_checks (lent_log log.now) kept t (lent_bounds bounds.now) accepted)) }
{
    if !log_good(n, by, bounds, kept, log) {
        return Err(refused(16, 0));
    }
    if log.sizes[0] == 0 {
        return Err(refused(15, 0));
    }
    Ok(())
}
