// Build: judged first, and written only once it is accepted; and for callers that hold no record.
ghost use Rattle.std.specs.Prelude.{◌≡◌, ◌≤◌, replicate};
ghost use Rattle.paper.specs.Checks.{bounds_in, lowest, highest};
ghost use Rattle.paper.specs.Calls.{build};
ghost use Rattle.tables.specs.Lent.{lent_bounds};
ghost use Rattle.verdicts.specs.Lent.{no_record, lent_to_build};
ghost use Rattle.records.specs.Left.{record_in, left_by_build};
ghost use Rattle.build.specs.BuildJudged.{Scratch};

use crate::builds::judge_build;
use crate::writes::fill_model;
use checks::bounds::{HIGHEST, LOWEST};
use formulas::blanks::blanks_among;
use records::{Done, Session};
use tables::lent::{Bounds, Index, Tables};

// Build, with the session record taken and given back by value, over two rows for the makers and the numbers.
// Stays: rows that are written are parameters of their own, here and below: a struct of them would need a clause for each, that it is still the caller's.
fn build_over(
    session: Session,
    tables: &Tables,
    bounds: &Bounds,
    starts: &[i32],
    numbers: &mut [u16],
    order: &mut [u16],
    stored: &mut [i32],
    reader_starts: &mut [u16],
    reader_places: &mut [u16],
    reasons: &mut [u8],
    log_sizes: &mut [u16],
    by: &mut [u16],
    state: &mut [u16],
) -> Done
    requires { Scratch tables.now.n by.old state.old }
    ensures { left_by_build result numbers.new order.new stored.new reader_starts.new reader_places.new reasons.new log_sizes.new ≡ build (lent_to_build (record_in session) tables.now (lent_bounds bounds.now) starts.now numbers.old order.old stored.old reader_starts.old reader_places.old reasons.old log_sizes.old) }
{
    let judged = {
        let index = Index {
            starts: reader_starts,
            places: reader_places,
        };
        judge_build(
            tables, bounds, starts, numbers, order, stored, &index, reasons, log_sizes, by, state,
        )
    };
    // Stays: no `?`: the record goes with the refusal, and an inner function for it would take every row again.
    if let Err(refusal) = judged {
        return Done {
            answer: Err(refusal),
            session,
        };
    }
    fill_model(
        tables,
        starts,
        state,
        numbers,
        order,
        stored,
        reader_starts,
        reader_places,
        reasons,
        log_sizes,
    );
    let evaluations = tables.m as u32;
    let blanks = blanks_among(tables.n, stored);
    Done {
        answer: Ok(evaluations),
        session: Session {
            kept: 0,
            evaluations,
            blanks,
        },
    }
}

// Build over rows for the makers and the numbers with N places each.
fn build_sized<const N: usize>(
    session: Session,
    tables: &Tables,
    bounds: &Bounds,
    starts: &[i32],
    numbers: &mut [u16],
    order: &mut [u16],
    stored: &mut [i32],
    reader_starts: &mut [u16],
    reader_places: &mut [u16],
    reasons: &mut [u8],
    log_sizes: &mut [u16],
) -> Done
    requires room { (N ≤ 4096) × (tables.now.n ≤ 4096 → tables.now.n ≤ N) }
    ensures { left_by_build result numbers.new order.new stored.new reader_starts.new reader_places.new reasons.new log_sizes.new ≡ build (lent_to_build (record_in session) tables.now (lent_bounds bounds.now) starts.now numbers.old order.old stored.old reader_starts.old reader_places.old reasons.old log_sizes.old) }
{
    // Stays: rows of a fixed length, since no call allocates.
    let mut by = [0u16; N];
    let mut state = [0u16; N];
    build_over(
        session,
        tables,
        bounds,
        starts,
        numbers,
        order,
        stored,
        reader_starts,
        reader_places,
        reasons,
        log_sizes,
        &mut by,
        &mut state,
    )
}

// Build, with the session record taken and given back by value. A small model has short rows, since clearing long ones would take longer than the rest.
pub fn build_core(
    session: Session,
    tables: &Tables,
    bounds: &Bounds,
    starts: &[i32],
    numbers: &mut [u16],
    order: &mut [u16],
    stored: &mut [i32],
    reader_starts: &mut [u16],
    reader_places: &mut [u16],
    reasons: &mut [u8],
    log_sizes: &mut [u16],
) -> Done
    ensures { left_by_build result numbers.new order.new stored.new reader_starts.new reader_places.new reasons.new log_sizes.new ≡ build (lent_to_build (record_in session) tables.now (lent_bounds bounds.now) starts.now numbers.old order.old stored.old reader_starts.old reader_places.old reasons.old log_sizes.old) }
{
    if tables.n <= 256 {
        build_sized::<256>(
            session,
            tables,
            bounds,
            starts,
            numbers,
            order,
            stored,
            reader_starts,
            reader_places,
            reasons,
            log_sizes,
        )
    } else {
        build_sized::<4096>(
            session,
            tables,
            bounds,
            starts,
            numbers,
            order,
            stored,
            reader_starts,
            reader_places,
            reasons,
            log_sizes,
        )
    }
}

// Build over a record, full bounds and a log of its own, for callers that keep no move.
pub fn build_new(
    tables: &Tables,
    starts: &[i32],
    numbers: &mut [u16],
    order: &mut [u16],
    stored: &mut [i32],
    reader_starts: &mut [u16],
    reader_places: &mut [u16],
    reasons: &mut [u8],
) -> Done
    ensures { left_by_build result numbers.new order.new stored.new reader_starts.new reader_places.new reasons.new (replicate 65 0) ≡ build (lent_to_build no_record tables.now (bounds_in (replicate 4096 lowest) (replicate 4096 highest)) starts.now numbers.old order.old stored.old reader_starts.old reader_places.old reasons.old (replicate 65 0)) }
{
    // Stays: rows of a fixed length, since no call allocates.
    let lows = [LOWEST; 4096];
    let highs = [HIGHEST; 4096];
    let mut log_sizes = [0u16; 65];
    build_core(
        Session {
            kept: 0,
            evaluations: 0,
            blanks: 0,
        },
        tables,
        &Bounds {
            lows: &lows,
            highs: &highs,
        },
        starts,
        numbers,
        order,
        stored,
        reader_starts,
        reader_places,
        reasons,
        &mut log_sizes,
    )
}
