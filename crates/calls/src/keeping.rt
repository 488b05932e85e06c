// Keep: judged first, and written only once it is accepted.
ghost use Rattle.std.specs.Prelude.{◌≡◌};
ghost use Rattle.paper.specs.Log.{log_in};
ghost use Rattle.paper.specs.Calls.{keep as kept};
ghost use Rattle.verdicts.specs.Lent.{lent_to_model, lent_to_keep};
ghost use Rattle.records.specs.Left.{record_in, left_by_keep};

use fills::fill_keep;
use formulas::blanks::blanks_among;
use integers::naturals::kept_once_more;
use move_log::noting::note_move;
use records::{Done, Session};
use tables::lent::{Bounds, Index, Log, Model, Move, Tables};
use verdicts::judges::judge_keep;
use whys::notes::note_reasons;

// Keep, with the session record taken and given back by value. The reason of every variable evaluated is noted.
// Stays: rows that are written are parameters of their own, here and below: a struct of them would need a clause for each, that it is still the caller's.
pub fn keep_core<'a>(
    session: Session,
    tables: &Tables<'a>,
    bounds: &Bounds<'a>,
    numbers: &[u16],
    order: &[u16],
    stored: &mut [i32],
    index: &Index<'a>,
    reasons: &mut [u8],
    mv: &Move,
    flags: &mut [u8],
    log_sizes: &mut [u16],
    log_vars: &mut [u16],
    log_values: &mut [i32],
) -> Done
    ensures { left_by_keep result stored.new reasons.new flags.new log_sizes.new log_vars.new log_values.new ≡ kept (record_in session) (log_in log_sizes.old log_vars.old log_values.old) (lent_to_model tables.now bounds.now numbers.now order.now stored.old index.now reasons.old) (lent_to_keep mv.now flags.old) }
{
    // Stays: rows of a fixed length, since no call allocates.
    let mut by = [0u16; 4096];
    let judged = {
        let model = Model {
            tables: *tables,
            bounds: *bounds,
            numbers,
            order,
            stored,
            index: *index,
            reasons,
        };
        let log = Log {
            sizes: log_sizes,
            vars: log_vars,
            values: log_values,
        };
        judge_keep(
            session.kept,
            session.blanks,
            &model,
            mv,
            flags,
            &log,
            &mut by,
        )
    };
    let closed = match judged {
        Ok(closed) => closed,
        Err(refusal) => {
            return Done {
                answer: Err(refusal),
                session,
            };
        }
    };
    let makers = &by[..tables.n];
    note_move(stored, mv, log_sizes, log_vars, log_values);
    let evaluations = fill_keep(tables, makers, closed, order, stored, index, mv, flags);
    note_reasons(tables, makers, stored, flags, reasons);
    let blanks = blanks_among(tables.n, stored);
    Done {
        answer: Ok(evaluations),
        session: Session {
            kept: kept_once_more(session.kept),
            evaluations,
            blanks,
        },
    }
}
