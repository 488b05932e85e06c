// A batch of moves in figures across the C boundary.
ghost use Rattle.std.specs.Prelude.{◌≡◌, replicate};
ghost use Rattle.verdicts.specs.Lent.{to_model};
ghost use Rattle.records.specs.Left.{record_in};
ghost use Rattle.figures.specs.Figures.{batch_of, figures as counted};
ghost use Rattle.capi.specs.Products.{figures_in_numbers, figures_out};

use crate::FiguresOutcome;
use figures::{Totals, figures};
use formulas::blanks::BLANK;
use records::Session;
use tables::Refusal;
use tables::lent::{Bounds, Index, Model, Tables};
use trials::Batch;

// What `figures` answers, as nine numbers.
impl From<Result<Totals, Refusal>> for FiguresOutcome {
    ghost from_gives = { λ told r. r ≡ figures_in_numbers told };

    fn from(told: Result<Totals, Refusal>) -> FiguresOutcome {
        match told {
            Ok(totals) => FiguresOutcome {
                number: 0,
                place: 0,
                blank: totals.blank,
                least: totals.least,
                greatest: totals.greatest,
                sum: totals.sum,
                first: totals.first,
                second: totals.second,
                third: totals.third,
            },
            Err(refusal) => FiguresOutcome {
                number: refusal.number,
                place: refusal.place,
                blank: 0,
                least: BLANK,
                greatest: BLANK,
                sum: 0,
                first: 0,
                second: 0,
                third: 0,
            },
        }
    }
}

// `figures::figures` for C. The record is only read.
pub fn lukhandro_figures(
    session: &Session,
    n: usize,
    m: usize,
    e: usize,
    kinds: &[u16],
    makes: &[u16],
    params: &[i32],
    firsts: &[u16],
    counts: &[u16],
    vars: &[u16],
    coefs: &[i16],
    lows: &[i32],
    highs: &[i32],
    numbers: &[u16],
    order: &[u16],
    stored: &[i32],
    reader_starts: &[u16],
    reader_places: &[u16],
    moves: usize,
    move_pairs: &[u16],
    move_vars: &[u16],
    move_values: &[i32],
    asked: u16,
    by_number: &mut [u32],
) -> FiguresOutcome
    ensures { (result, by_number.new) ≡ figures_out (counted (record_in session.now) (to_model n m e kinds.now makes.now params.now firsts.now counts.now vars.now coefs.now lows.now highs.now numbers.now order.now stored.now reader_starts.now reader_places.now (replicate 4096 0)) asked (batch_of moves move_pairs.now move_vars.now move_values.now) by_number.old) }
{
    let tables = Tables {
        n,
        m,
        e,
        kinds,
        makes,
        params,
        firsts,
        counts,
        vars,
        coefs,
    };
    let bounds = Bounds { lows, highs };
    let index = Index {
        starts: reader_starts,
        places: reader_places,
    };
    let model = Model {
        tables,
        bounds,
        numbers,
        order,
        stored,
        index,
        reasons: &[],
    };
    let batch = Batch {
        moves,
        pairs: move_pairs,
        vars: move_vars,
        values: move_values,
    };
    FiguresOutcome::from(figures(*session, &model, &batch, asked, by_number))
}
