// What an accepted trial writes.
ghost use Rattle.std.specs.Prelude.{[], ◌≡◌};
ghost use Rattle.paper.specs.Chains.{closes};
ghost use Rattle.tables.specs.Lent.{lent_tables, lent_index};
ghost use Rattle.tables.specs.Makers.{Makers};
ghost use Rattle.verdicts.specs.Lent.{lent_to_try};
ghost use Rattle.fills.specs.Accepted.{Trying, TrialFilled};

use crate::running::run_route;
use rows::copies::{begin_route, copy_asked};
use rows::steps::evaluations;
use tables::lent::{Model, Move};
use verdicts::asked::Asked;

// Works the move out in the trial row, and answers with the number of evaluations. `by` holds the makers, and `closed` says whether some chain closes.
pub fn fill_trial(
    model: &Model,
    by: &[u16],
    closed: bool,
    mv: &Move,
    asked: &Asked,
    results: &mut [i32],
    trial: &mut [i32],
    flags: &mut [u8],
) -> u32
    requires trying { Trying (lent_tables model.now.tables) model.now.order.now (lent_index model.now.index) model.now.stored.now (lent_to_try mv.now asked.now results.old trial.old flags.old []) }
    requires makers { Makers (lent_tables model.now.tables) by.now }
    requires closing { closed ≡ closes (lent_tables model.now.tables) }
    ensures { TrialFilled (lent_tables model.now.tables) model.now.stored.now (lent_to_try mv.now asked.now results.old trial.old flags.old []) result results.new trial.new flags.new }
{
    let n = model.tables.n;
    begin_route(n, model.stored, mv, trial, flags);
    let wanted = &asked.vars[..asked.count];
    run_route(
        &model.tables,
        by,
        closed,
        model.order,
        &model.index,
        &mv.vars[..mv.pairs],
        model.stored,
        wanted,
        asked.route,
        trial,
        flags,
    );
    copy_asked(wanted, trial, results);
    evaluations(n, flags) as u32
}
