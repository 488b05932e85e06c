// A batch: its moves one after another.
ghost use Rattle.std.specs.Prelude.{[], ◌≡◌, suc, ◌≤◌, ◌<◌, length, set};
ghost use Rattle.paper.specs.Lists.{nat, over};
ghost use Rattle.tables.specs.Lent.{lent_model};
ghost use Rattle.records.specs.Left.{record_in};
ghost use Rattle.trials.specs.Batch.{batch_lent};
ghost use Rattle.trials.specs.Once.{JudgedOnce};
ghost use Rattle.figures.specs.Figures.{outcomes, totals, tallies, figures as counted};
ghost use Rattle.figures.specs.Outcomes.{unreasoned};

use crate::Totals;
use crate::add::add;
use crate::outcomes::try_move;
use formulas::blanks::BLANK;
use integers::wide;
use records::Session;
use tables::lent::{Model, Move};
use tables::{Refusal, refused};
use trials::Batch;
use trials::once::Judged;
use trials::parts::part;
use verdicts::models::judge_model;

// The figures of no move.
fn none() -> Totals
    ensures { result ≡ totals [] }
{
    Totals {
        blank: 0,
        least: BLANK,
        greatest: BLANK,
        sum: 0,
        first: 0,
        second: 0,
        third: 0,
    }
}

// Puts 0 at the 22 places of a row of tallies.
fn clear(by_number: &mut [u32])
    requires { 22 ≤ length by_number.old }
    ensures { by_number.new ≡ over 22 (λ k. 0) by_number.old }
{
    by_number[..22].fill(0);
}

// Counts a move under its number.
fn count(by_number: &mut [u32], number: u32)
    requires number_in_bounds { number < length by_number.old }
    requires number_bound { nat by_number.old number < 1000 }
    ensures { by_number.new ≡ set by_number.old number (suc (nat by_number.old number)) }
{
    by_number[number as usize] += 1;
}

// Tries the moves one after another over a judged model, counts each under its number, and answers the figures of all.
fn try_each(
    judged: &Judged,
    session: Session,
    model: &Model,
    batch: &Batch,
    asked: u16,
    trial: &mut [i32],
    flags: &mut [u8],
    by_number: &mut [u32],
) -> Totals
    requires fits { (batch.now.moves ≤ 1000) × (batch.now.moves ≤ length batch.now.pairs.now) × (22 ≤ length by_number.old) }
    requires rows { (length trial.old ≡ 4096) × (length flags.old ≡ 4096) }
    requires judged { JudgedOnce (lent_model model.now) session.blanks judged.now }
    ensures totals { result ≡ totals (outcomes (record_in session) (lent_model model.now) asked (batch_lent batch.now)) }
    ensures tallies { by_number.new ≡ tallies (outcomes (record_in session) (lent_model model.now) asked (batch_lent batch.now)) by_number.old }
{
    let mut totals = none();
    let mut at: usize = 0;
    clear(by_number);
    for &lent in &batch.pairs[..batch.moves] {
        let pairs = wide(lent);
        let mv = Move {
            pairs,
            vars: part(at, pairs, batch.vars),
            values: part(at, pairs, batch.values),
        };
        let outcome = try_move(judged, session, model, &mv, asked, trial, flags);
        count(by_number, outcome.number);
        totals = add(totals, outcome);
        at += pairs;
    }
    totals
}

// Judges the model once, tries the moves over it, and answers the figures of all. No reason is read: a row of zeros stands for them.
fn try_all(
    session: Session,
    model: &Model,
    batch: &Batch,
    asked: u16,
    by_number: &mut [u32],
) -> Totals
    requires fits { (batch.now.moves ≤ 1000) × (batch.now.moves ≤ length batch.now.pairs.now) × (22 ≤ length by_number.old) }
    ensures totals { result ≡ totals (outcomes (record_in session) (unreasoned model.now) asked (batch_lent batch.now)) }
    ensures tallies { by_number.new ≡ tallies (outcomes (record_in session) (unreasoned model.now) asked (batch_lent batch.now)) by_number.old }
{
    // Stays: rows of a fixed length, since no call allocates.
    let mut by = [0u16; 4096];
    let mut trial = [0i32; 4096];
    let mut flags = [0u8; 4096];
    let model = Model {
        reasons: &[0u8; 4096],
        ..*model
    };
    let verdict = judge_model(session.blanks, &model, &mut by);
    let judged = Judged { verdict, by: &by };
    try_each(
        &judged, session, &model, batch, asked, &mut trial, &mut flags, by_number,
    )
}

// The figures of up to 1,000 moves, each tried on the stored values and a copy of the record with one variable asked. Move i has as many pairs as the batch's `pairs` says at
// place i; they stand behind those of the moves before it. Place 0 of `by_number` is left with the moves accepted, place k with those refused by number k. The model's reasons
// are not read.
pub fn figures(
    session: Session,
    model: &Model,
    batch: &Batch,
    asked: u16,
    by_number: &mut [u32],
) -> Result<Totals, Refusal>
    ensures { (result, by_number.new) ≡ counted (record_in session) (unreasoned model.now) asked (batch_lent batch.now) by_number.old }
{
    let fits = (batch.moves <= 1000) & (batch.moves <= batch.pairs.len()) & (22 <= by_number.len());
    if !fits {
        return Err(refused(1, 0));
    }
    Ok(try_all(session, model, batch, asked, by_number))
}
