// Salvage of a damaged file across the C boundary.
ghost use Rattle.std.specs.Prelude.{◌≡◌};
ghost use Rattle.salvage.specs.Salvage.{lends_to_salvage};
ghost use Rattle.salvage.specs.Salvage as Salvage;
ghost use Rattle.capi.specs.Outcomes.{salvage_in_numbers, salvaged_out};

use crate::SalvageOutcome;
use salvage::{Saved, salvage};
use tables::Refusal;

// What `salvage` answers, as five numbers.
impl From<Result<Saved, Refusal>> for SalvageOutcome {
    ghost from_gives = { λ told r. r ≡ salvage_in_numbers told };

    fn from(told: Result<Saved, Refusal>) -> SalvageOutcome {
        match told {
            Ok(saved) => SalvageOutcome {
                number: 0,
                place: 0,
                length: saved.length,
                rows: saved.rows,
                values: saved.values,
            },
            Err(refusal) => SalvageOutcome {
                number: refusal.number,
                place: refusal.place,
                length: 0,
                rows: 0,
                values: 0,
            },
        }
    }
}

// `salvage::salvage` for C.
pub fn lukhandro_salvage(bytes: &[u8], file: &mut [u8], list: &mut [u16]) -> SalvageOutcome
    ensures { (result, (file.new, list.new)) ≡ salvaged_out (Salvage.salvage (lends_to_salvage bytes.now file.old list.old)) }
{
    SalvageOutcome::from(salvage(bytes, file, list))
}
