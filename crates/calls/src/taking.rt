// Taking back: judged first, and written only once it is accepted.
ghost use Rattle.std.specs.Prelude.{◌≡◌};
ghost use Rattle.paper.specs.Log.{log_in};
ghost use Rattle.paper.specs.Calls.{take_back};
ghost use Rattle.verdicts.specs.Lent.{lent_to_model, to_take};
ghost use Rattle.records.specs.Left.{record_in, left_by_keep};

use fills::fill_keep;
use formulas::blanks::blanks_among;
use integers::naturals::kept_once_less;
use move_log::latest::drop_move;
use records::{Done, Session};
use tables::lent::{Bounds, Index, Log, Model, Tables};
use verdicts::judges::judge_take_back;
use verdicts::taken::latest_of;
use whys::notes::note_reasons;

// Taking back the latest kept move, with the session record taken and given back by value. The reason of every variable evaluated is noted.
// Stays: rows that are written are parameters of their own, here and below: a struct of them would need a clause for each, that it is still the caller's.
pub fn take_back_core<'a>(
    session: Session,
    tables: &Tables<'a>,
    bounds: &Bounds<'a>,
    numbers: &[u16],
    order: &[u16],
    stored: &mut [i32],
    index: &Index<'a>,
    reasons: &mut [u8],
    flags: &mut [u8],
    log_sizes: &mut [u16],
    log_vars: &[u16],
    log_values: &[i32],
) -> Done
    ensures { left_by_keep result stored.new reasons.new flags.new log_sizes.new log_vars.now log_values.now ≡ take_back (record_in session) (log_in log_sizes.old log_vars.now log_values.now) (lent_to_model tables.now bounds.now numbers.now order.now stored.old index.now reasons.old) (to_take flags.old) }
{
    // Stays: rows of a fixed length, since no call allocates.
    let mut by = [0u16; 4096];
    let judged = {
        let model = Model {
            tables: *tables,
            bounds: *bounds,
            numbers,
            order,
            stored,
            index: *index,
            reasons,
        };
        let log = Log {
            sizes: log_sizes,
            vars: log_vars,
            values: log_values,
        };
        judge_take_back(session.kept, session.blanks, &model, flags, &log, &mut by)
    };
    let closed = match judged {
        Ok(closed) => closed,
        Err(refusal) => {
            return Done {
                answer: Err(refusal),
                session,
            };
        }
    };
    let makers = &by[..tables.n];
    let mv = latest_of(&Log {
        sizes: log_sizes,
        vars: log_vars,
        values: log_values,
    });
    let evaluations = fill_keep(tables, makers, closed, order, stored, index, &mv, flags);
    note_reasons(tables, makers, stored, flags, reasons);
    drop_move(log_sizes);
    let blanks = blanks_among(tables.n, stored);
    Done {
        answer: Ok(evaluations),
        session: Session {
            kept: kept_once_less(session.kept),
            evaluations,
            blanks,
        },
    }
}
