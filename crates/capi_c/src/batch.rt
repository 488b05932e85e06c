// A batch of moves in figures across the C boundary.
ghost use Rattle.std.specs.Prelude.{◌≡◌, replicate};
ghost use Rattle.verdicts.specs.Lent.{to_model};
ghost use Rattle.records.specs.Left.{record_in};
ghost use Rattle.figures.specs.Figures.{batch_of, figures as counted};
ghost use Rattle.capi.specs.Products.{figures_out};

use capi::FiguresOutcome;
use records::Session;

// `capi::lukhandro_figures` for C.
#[unsafe(no_mangle)]
pub extern "C" fn lukhandro_figures(
    session: &Session,
    n: usize,
    m: usize,
    e: usize,
    kinds: &[u16],
    makes: &[u16],
    params: &[i32],
    firsts: &[u16],
    counts: &[u16],
    vars: &[u16],
    coefs: &[i16],
    lows: &[i32],
    highs: &[i32],
    numbers: &[u16],
    order: &[u16],
    stored: &[i32],
    reader_starts: &[u16],
    reader_places: &[u16],
    moves: usize,
    move_pairs: &[u16],
    move_vars: &[u16],
    move_values: &[i32],
    asked: u16,
    by_number: &mut [u32],
) -> FiguresOutcome
    ensures { (result, by_number.new) ≡ figures_out (counted (record_in session.now) (to_model n m e kinds.now makes.now params.now firsts.now counts.now vars.now coefs.now lows.now highs.now numbers.now order.now stored.now reader_starts.now reader_places.now (replicate 4096 0)) asked (batch_of moves move_pairs.now move_vars.now move_values.now) by_number.old) }
{
    capi::lukhandro_figures(
        session,
        n,
        m,
        e,
        kinds,
        makes,
        params,
        firsts,
        counts,
        vars,
        coefs,
        lows,
        highs,
        numbers,
        order,
        stored,
        reader_starts,
        reader_places,
        moves,
        move_pairs,
        move_vars,
        move_values,
        asked,
        by_number,
    )
}
