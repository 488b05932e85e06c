// Check 1 of each call: the counts within their bounds, and every lent buffer as long as they ask.
ghost use Rattle.std.specs.Prelude.{suc, ◌&&◌, ◌≡◌, leb, length};
ghost use Rattle.paper.specs.Log.{log_fits};
ghost use Rattle.paper.specs.Calls.{build_fits, model_fits, keep_fits, take_fits};
ghost use Rattle.tables.specs.Lent.{lent_bounds, lent_model, lent_log};
ghost use Rattle.verdicts.specs.Lent.{no_record, lent_to_build, lent_to_try, lent_to_keep, to_take, move_own_fits};

use crate::asked::Asked;
use checks::moves::move_sizes;
use tables::lent::{Bounds, Index, Log, Model, Move, Tables};
use tables::sizes;

// Check 1 of the index: room for n + 1 starts and a place of every entry.
fn index_fits(n: usize, e: usize, index: &Index) -> bool
    ensures { result ≡ (leb (suc n) (length index.now.starts.now) && leb e (length index.now.places.now)) }
{
    (n < index.starts.len()) & (e <= index.places.len())
}

// Check 1 of the bounds: a lowest and a highest number of each variable.
fn bounds_fit(n: usize, bounds: &Bounds) -> bool
    ensures { result ≡ (leb n (length bounds.now.lows.now) && leb n (length bounds.now.highs.now)) }
{
    (n <= bounds.lows.len()) & (n <= bounds.highs.len())
}

// Check 1 of the reasons: room for one of each variable.
fn reasons_fit(n: usize, reasons: &[u8]) -> bool
    ensures { result ≡ leb n (length reasons.now) }
{
    n <= reasons.len()
}

// Check 1 of build.
// Stays: rows and no `Model`: an index of two written rows beside tables and bounds would be in a struct at lifetimes that the check does not cover.
pub fn build_fits(
    tables: &Tables,
    bounds: &Bounds,
    starts: &[i32],
    numbers: &[u16],
    order: &[u16],
    stored: &[i32],
    index: &Index,
    reasons: &[u8],
    log_sizes: &[u16],
) -> bool
    ensures { result ≡ build_fits (lent_to_build no_record tables.now (lent_bounds bounds.now) starts.now numbers.now order.now stored.now index.now.starts.now index.now.places.now reasons.now log_sizes.now) }
{
    sizes(tables, starts)
        & (tables.n <= numbers.len())
        & (tables.m <= order.len())
        & (tables.n <= stored.len())
        & index_fits(tables.n, tables.e, index)
        & (65 <= log_sizes.len())
        & bounds_fit(tables.n, bounds)
        & reasons_fit(tables.n, reasons)
}

// Check 1 of the model that trial, keep and taking back are lent.
pub fn model_fits(model: &Model) -> bool
    ensures { result ≡ model_fits (lent_model model.now) }
{
    let tables = &model.tables;
    sizes(tables, model.stored)
        & (tables.n <= model.numbers.len())
        & (tables.m <= model.order.len())
        & index_fits(tables.n, tables.e, &model.index)
        & bounds_fit(tables.n, &model.bounds)
        & reasons_fit(tables.n, model.reasons)
}

// Check 1 of what a trial is lent beside the model: its pairs, what is asked, and the rows to fill.
pub(crate) fn move_fits(
    n: usize,
    mv: &Move,
    asked: &Asked,
    results: &[i32],
    trial: &[i32],
    flags: &[u8],
    why: &[u8],
) -> bool
    ensures { result ≡ move_own_fits n (lent_to_try mv.now asked.now results.now trial.now flags.now why.now) }
{
    move_sizes(mv)
        & (asked.count <= 32)
        & (asked.count <= asked.vars.len())
        & (asked.count <= results.len())
        & (n <= trial.len())
        & (n <= flags.len())
        & (asked.count <= why.len())
}

// Check 1 of a log: room for 64 moves of 64 pairs.
fn log_fits(log: &Log) -> bool
    ensures { result ≡ log_fits (lent_log log.now) }
{
    (65 <= log.sizes.len()) & (4096 <= log.vars.len()) & (4096 <= log.values.len())
}

// Check 1 of keep.
pub(crate) fn keep_fits(model: &Model, mv: &Move, flags: &[u8], log: &Log) -> bool
    ensures { result ≡ keep_fits (lent_log log.now) (lent_model model.now) (lent_to_keep mv.now flags.now) }
{
    model_fits(model) & move_sizes(mv) & (model.tables.n <= flags.len()) & log_fits(log)
}

// Check 1 of taking back.
pub(crate) fn take_fits(model: &Model, flags: &[u8], log: &Log) -> bool
    ensures { result ≡ take_fits (lent_log log.now) (lent_model model.now) (to_take flags.now) }
{
    model_fits(model) & (model.tables.n <= flags.len()) & log_fits(log)
}
