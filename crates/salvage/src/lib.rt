// Salvage of a damaged model file: what is whole and good in it is written as a file that build accepts, with a list of what was not saved.
#![tactic(auto)]

pub mod packing;
mod save;
mod stand;
mod start;

ghost use Rattle.std.specs.Prelude.{◌≡◌};
ghost use Rattle.salvage.specs.Salvage.{lends_to_salvage, left_by_salvage};
ghost use Rattle.salvage.specs.Salvage as Salvage;

use crate::stand::salvage_given;
use files::counts;
use tables::Refusal;

// What was saved: how long the file is, and how many rows dropped and start values missing or reset the list has.
#[derive(Clone, Copy)]
pub struct Saved {
    pub length: usize,
    pub rows: usize,
    pub values: usize,
}

// Writes what is saved of the bytes of a damaged file, and the list.
pub fn salvage(bytes: &[u8], file: &mut [u8], list: &mut [u16]) -> Result<Saved, Refusal>
    ensures { left_by_salvage result file.new list.new ≡ Salvage.salvage (lends_to_salvage bytes.now file.old list.old) }
{
    let size = counts(bytes)?;
    salvage_given(bytes, size, file, list)
}
