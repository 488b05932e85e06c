// The figures of two batches merged across the C boundary.
ghost use Rattle.std.specs.Prelude.{◌≡◌};
ghost use Rattle.capi.specs.Products.{totals_in, refused_figures, merged_out};

use crate::FiguresOutcome;
use figures::Totals;
use merging::merge;
use tables::Refusal;

// The figures in an outcome.
impl From<FiguresOutcome> for Totals {
    ghost from_gives = { λ told r. r ≡ totals_in told };

    fn from(told: FiguresOutcome) -> Totals {
        Totals {
            blank: told.blank,
            least: told.least,
            greatest: told.greatest,
            sum: told.sum,
            first: told.first,
            second: told.second,
            third: told.third,
        }
    }
}

// The outcome of a refusal.
fn refused_figures(number: u32, place: u32) -> FiguresOutcome
    ensures { result ≡ refused_figures number place }
{
    FiguresOutcome::from(Err(Refusal { number, place }))
}

// `merging::merge` for C. A refused outcome has no figures: the first of the two that is refused is the answer, and nothing is written.
pub fn lukhandro_merge(
    first: FiguresOutcome,
    second: FiguresOutcome,
    first_by_number: &[u32],
    second_by_number: &[u32],
    by_number: &mut [u32],
) -> FiguresOutcome
    ensures { (result, by_number.new) ≡ merged_out first second first_by_number.now second_by_number.now by_number.old }
{
    if first.number != 0 {
        return refused_figures(first.number, first.place);
    }
    if second.number != 0 {
        return refused_figures(second.number, second.place);
    }
    let told = merge(
        Totals::from(first),
        Totals::from(second),
        first_by_number,
        second_by_number,
        by_number,
    );
    FiguresOutcome::from(told)
}
