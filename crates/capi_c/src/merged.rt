// The figures of two batches merged across the C boundary.
ghost use Rattle.std.specs.Prelude.{◌≡◌};
ghost use Rattle.capi.specs.Products.{merged_out};

use capi::FiguresOutcome;

// `capi::lukhandro_merge` for C.
#[unsafe(no_mangle)]
pub extern "C" fn lukhandro_merge(
    first: FiguresOutcome,
    second: FiguresOutcome,
    first_by_number: &[u32],
    second_by_number: &[u32],
    by_number: &mut [u32],
) -> FiguresOutcome
    ensures { (result, by_number.new) ≡ merged_out first second first_by_number.now second_by_number.now by_number.old }
{
    capi::lukhandro_merge(first, second, first_by_number, second_by_number, by_number)
}
