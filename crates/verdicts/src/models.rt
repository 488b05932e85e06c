// The checks of the model, the same for trial, keep and taking back.
ghost use Rattle.std.specs.Prelude.{true, ◌≡◌, ◌≤◌, length};
ghost use Rattle.paper.specs.Calls.{model_fits};
ghost use Rattle.tables.specs.Lent.{lent_model};
ghost use Rattle.verdicts.specs.ModelJudged.{ModelJudged, OnceJudged};

use crate::fits::model_fits;
use chains::permits::shared_right;
use checks::allowed::stored_checks;
use checks::sound::table_checks;
use index::readers::rows_right;
use tables::lent::Model;
use tables::{Refusal, refused};

// Checks 2 to 5, 8, 19 and then 7. If all are passed, `by` holds the makers, and the answer says whether some chain closes. `blanks` is the record's number of
// blanks.
pub fn model_checks(blanks: u32, model: &Model, by: &mut [u16]) -> Result<bool, Refusal>
    requires reasons_value { model_fits (lent_model model.now) ≡ true }
    requires n_in_bounds { model.now.tables.n ≤ length by.old }
    ensures { ModelJudged (lent_model model.now) blanks by.new result }
{
    let tables = &model.tables;
    table_checks(tables, &model.bounds, by)?;
    let Some(due) = rows_right(tables, model.numbers, &model.index) else {
        return Err(refused(8, 0));
    };
    let Some(closed) = shared_right(tables, by, model.numbers, model.order, due) else {
        return Err(refused(8, 0));
    };
    stored_checks(blanks, tables.n, by, &model.bounds, model.stored)?;
    Ok(closed)
}

// Check 1 of the model and then those. If all are passed, `by` holds the makers, and the answer says whether some chain closes.
pub fn judge_model(blanks: u32, model: &Model, by: &mut [u16]) -> Result<bool, Refusal>
    requires room { 4096 ≤ length by.old }
    ensures { OnceJudged (lent_model model.now) blanks by.new result }
{
    if !model_fits(model) {
        return Err(refused(1, 0));
    }
    model_checks(blanks, model, by)
}
