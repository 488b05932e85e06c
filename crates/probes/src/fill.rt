// What an accepted move writes over rows at rest.
ghost use Rattle.std.specs.Prelude.{[], false, ◌≡◌, ◌≤◌, eqb, length};
ghost use Rattle.paper.specs.Lists.{nat, size};
ghost use Rattle.paper.specs.Net.{mark-guided};
ghost use Rattle.paper.specs.Chains.{closes};
ghost use Rattle.paper.specs.Calls.{route_of};
ghost use Rattle.tables.specs.Lent.{lent_tables, lent_index};
ghost use Rattle.tables.specs.Makers.{Makers};
ghost use Rattle.verdicts.specs.Lent.{lent_to_try};
ghost use Rattle.fills.specs.Accepted.{Trying, TrialFilled};
ghost use Rattle.probes.specs.Rest.{AtRest, Astray};

use crate::guide::guide;
use rows::copies::{copy_asked, put_move};
use tables::lent::{Model, Move};
use verdicts::asked::Asked;

// Puts the move into the trial row, works out there by route 3 what is asked, and answers how many variables are listed as touched.
// Stays: rows that are written are parameters of their own, here and below: a struct of them would need a clause for each, that it is still the caller's.
pub fn fill_guided(
    model: &Model,
    by: &[u16],
    mv: &Move,
    asked: &Asked,
    results: &mut [i32],
    trial: &mut [i32],
    flags: &mut [u8],
    marks: &mut [u8],
    work: &mut [u16],
    touched: &mut [u16],
) -> usize
    requires trying { Trying (lent_tables model.now.tables) model.now.order.now (lent_index model.now.index) model.now.stored.now (lent_to_try mv.now asked.now results.old trial.old flags.old []) }
    requires makers { Makers (lent_tables model.now.tables) by.now }
    requires ended { closes (lent_tables model.now.tables) ≡ false }
    requires third { route_of asked.now.route ≡ mark-guided }
    requires rest { AtRest model.now.tables.n model.now.stored.now trial.old flags.old marks.old work.old }
    requires list { model.now.tables.n ≤ length touched.old }
    ensures filled { TrialFilled (lent_tables model.now.tables) model.now.stored.now (lent_to_try mv.now asked.now results.old trial.old flags.old []) (size (λ v. eqb (nat flags.new v) 1) model.now.tables.n) results.new trial.new flags.new }
    ensures astray { Astray model.now.tables.n model.now.stored.now trial.new flags.new marks.new work.new touched.new 0 result }
{
    put_move(mv, trial);
    let wanted = &asked.vars[..asked.count];
    let count = guide(
        &model.tables,
        by,
        &model.index,
        &mv.vars[..mv.pairs],
        wanted,
        model.stored,
        trial,
        flags,
        marks,
        work,
        touched,
    );
    copy_asked(wanted, trial, results);
    count
}
