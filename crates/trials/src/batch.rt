// Many moves, one after another, each tried on the same stored values.
ghost use Rattle.std.specs.Prelude.{true, map, ◌≡◌, ◌+◌, ◌≤◌, ◌<◌, length, set};
ghost use Rattle.paper.specs.Lists.{total};
ghost use Rattle.paper.specs.Calls.{number_of, place_of, evaluations_of};
ghost use Rattle.tables.specs.Lent.{lent_model, lent_move};
ghost use Rattle.records.specs.Left.{record_in, answer_in};
ghost use Rattle.trials.specs.Once.{JudgedOnce};
ghost use Rattle.trials.specs.Batch.{batch_lent, moves_of};
ghost use Rattle.trials.specs.Trials.{question_of, rows_in, GivenAt, tries, evaluations_given, filled, trials_fit, trials as allTried};

use crate::given::try_given;
use crate::once::Judged;
use crate::parts::part;
use integers::wide;
use records::Session;
use records::answers::Outcome;
use tables::lent::{Model, Move};
use tables::{Answer, refused};
use verdicts::asked::Asked;
use verdicts::models::judge_model;

// The moves of a batch as they are lent: how many, the number of pairs of each, and all pairs one move after another.
// Stays: how many beside the row: C lends them so, and check 1 answers a number past the row's length.
#[derive(Clone, Copy)]
pub struct Batch<'a> {
    pub moves: usize,
    pub pairs: &'a [u16],
    pub vars: &'a [u16],
    pub values: &'a [i32],
}

// Notes the answer of a move at its place in the three rows, and answers how many evaluations it tells.
fn note(
    i: usize,
    answer: Answer,
    move_numbers: &mut [u32],
    move_places: &mut [u32],
    move_evaluations: &mut [u32],
) -> u32
    requires { (i < length move_numbers.old) × (i < length move_places.old) × (i < length move_evaluations.old) }
    ensures { (result ≡ evaluations_of (answer_in answer)) × (move_numbers.new ≡ set move_numbers.old i (number_of (answer_in answer))) × (move_places.new ≡ set move_places.old i (place_of (answer_in answer))) × (move_evaluations.new ≡ set move_evaluations.old i (evaluations_of (answer_in answer))) }
{
    let told = Outcome::from(answer);
    move_numbers[i] = told.number;
    move_places[i] = told.place;
    move_evaluations[i] = told.evaluations;
    told.evaluations
}

// Tries a move whose results and reasons have their places from `at` on.
// Stays: rows that are written are parameters of their own, here and below: a struct of them would need a clause for each, that it is still the caller's.
fn try_at(
    at: usize,
    judged: &Judged,
    session: Session,
    model: &Model,
    mv: &Move,
    asked: &Asked,
    results: &mut [i32],
    trial: &mut [i32; 4096],
    flags: &mut [u8; 4096],
    why: &mut [u8],
) -> Answer
    requires judged { JudgedOnce (lent_model model.now) session.blanks judged.now }
    requires rows { (at + asked.now.count ≤ length results.old) × (at + asked.now.count ≤ length why.old) × (at + asked.now.count < 4294967296) }
    ensures { GivenAt (record_in session) (lent_model model.now) (question_of asked.now) (lent_move mv.now) at results.old why.old result results.new why.new }
{
    try_given(
        judged,
        session,
        model,
        mv,
        asked,
        &mut results[at..at + asked.count],
        trial,
        flags,
        &mut why[at..at + asked.count],
    )
}

// Tries the moves one after another, fills the rows, and answers the evaluations of all.
fn try_each(
    judged: &Judged,
    session: Session,
    model: &Model,
    batch: &Batch,
    asked: &Asked,
    trial: &mut [i32; 4096],
    flags: &mut [u8; 4096],
    move_numbers: &mut [u32],
    move_places: &mut [u32],
    move_evaluations: &mut [u32],
    results: &mut [i32],
    why: &mut [u8],
) -> u32
    requires judged { JudgedOnce (lent_model model.now) session.blanks judged.now }
    requires fit { trials_fit (batch_lent batch.now) (question_of asked.now) (rows_in move_numbers.old move_places.old move_evaluations.old results.old why.old) ≡ true }
    ensures told { result ≡ total (map evaluations_given (tries (record_in session) (lent_model model.now) (question_of asked.now) (moves_of (batch_lent batch.now)) results.old why.old)) }
    ensures filled { rows_in move_numbers.new move_places.new move_evaluations.new results.new why.new ≡ filled batch.now.moves asked.now.count (tries (record_in session) (lent_model model.now) (question_of asked.now) (moves_of (batch_lent batch.now)) results.old why.old) (rows_in move_numbers.old move_places.old move_evaluations.old results.old why.old) }
{
    let mut evaluations: u32 = 0;
    let mut first: usize = 0;
    let mut at: usize = 0;
    for i in 0..batch.moves {
        let pairs = wide(batch.pairs[i]);
        let mv = Move {
            pairs,
            vars: part(first, pairs, batch.vars),
            values: part(first, pairs, batch.values),
        };
        let answer = try_at(
            at, judged, session, model, &mv, asked, results, trial, flags, why,
        );
        evaluations += note(i, answer, move_numbers, move_places, move_evaluations);
        first += pairs;
        at += asked.count;
    }
    evaluations
}

// Whether there are at most 1,000 moves and 32 variables asked, and every row has the places that they take.
fn rows_fit(
    batch: &Batch,
    asked: &Asked,
    move_numbers: &[u32],
    move_places: &[u32],
    move_evaluations: &[u32],
    results: &[i32],
    why: &[u8],
) -> bool
    ensures { result ≡ trials_fit (batch_lent batch.now) (question_of asked.now) (rows_in move_numbers.now move_places.now move_evaluations.now results.now why.now) }
{
    let few = (batch.moves <= 1000)
        & (batch.moves <= batch.pairs.len())
        & (asked.count <= 32)
        & (asked.count <= asked.vars.len());
    if !few {
        return false;
    }
    let places = batch.moves * asked.count;
    (batch.moves <= move_numbers.len())
        & (batch.moves <= move_places.len())
        & (batch.moves <= move_evaluations.len())
        & (places <= results.len())
        & (places <= why.len())
}

// Tries up to 1,000 moves, each on the same stored values and a copy of the record, with up to 32 variables asked by one route. Move i has as many pairs as
// the batch's `pairs` says at place i; they stand behind those of the moves before it. It is given a number, a place and its evaluations at place i, and the values and
// reasons asked in as many places of `results` and `why` as are asked, behind those of the moves before it; a refused move leaves these as they were. The model is judged once.
pub fn trials(
    session: Session,
    model: &Model,
    batch: &Batch,
    asked: &Asked,
    move_numbers: &mut [u32],
    move_places: &mut [u32],
    move_evaluations: &mut [u32],
    results: &mut [i32],
    why: &mut [u8],
) -> Answer
    ensures { (answer_in result, rows_in move_numbers.new move_places.new move_evaluations.new results.new why.new) ≡ allTried (record_in session) (lent_model model.now) (batch_lent batch.now) (question_of asked.now) (rows_in move_numbers.old move_places.old move_evaluations.old results.old why.old) }
{
    if !rows_fit(
        batch,
        asked,
        move_numbers,
        move_places,
        move_evaluations,
        results,
        why,
    ) {
        return Err(refused(1, 0));
    }
    // Stays: rows of a fixed length, since no call allocates.
    let mut by = [0u16; 4096];
    let mut trial = [0i32; 4096];
    let mut flags = [0u8; 4096];
    let verdict = judge_model(session.blanks, model, &mut by);
    let judged = Judged { verdict, by: &by };
    Ok(try_each(
        &judged,
        session,
        model,
        batch,
        asked,
        &mut trial,
        &mut flags,
        move_numbers,
        move_places,
        move_evaluations,
        results,
        why,
    ))
}
