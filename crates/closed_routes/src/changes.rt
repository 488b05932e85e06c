// Which variables route 1 evaluates: those with an input that has another value than the stored one.
ghost use Rattle.std.specs.Prelude.{cond, ◌≡◌, ◌≤◌, ◌<◌, length};
ghost use Rattle.paper.specs.Lists.{any, over};
ghost use Rattle.paper.specs.Net.{differs};
ghost use Rattle.routes.specs.Rows.{values_of};
ghost use Rattle.closed_routes.specs.Looking.{Parts};
ghost use Rattle.closed_routes.specs.Whole.{whole_lent};

use integers::wide;
use rows::steps::moved;
use tables::lent::Tables;

// Some input of v has another value than the stored one.
fn changed(v: usize, tables: &Tables, by: &[u16], stored: &[i32], values: &[i32]) -> bool
    requires parts { Parts tables.now.firsts.now tables.now.counts.now tables.now.vars.now by.now }
    requires there { (v < length by.now) × (length by.now ≤ length stored.now) × (length by.now ≤ length values.now) }
    ensures { result ≡ any (differs (values_of values.now) (values_of stored.now)) ((whole_lent tables.now by.now).ins v) }
{
    let maker = wide(by[v]);
    if maker == 0 {
        return false;
    }
    let r = maker - 1;
    let first = wide(tables.firsts[r]);
    let last = first + wide(tables.counts[r]);
    tables.vars[first..last]
        .iter()
        .any(|&u| moved(wide(u), stored, values))
}

// Flags every variable that has a changed input.
pub fn flag_changed(tables: &Tables, by: &[u16], stored: &[i32], values: &[i32], flags: &mut [u8])
    requires parts { Parts tables.now.firsts.now tables.now.counts.now tables.now.vars.now by.now }
    requires there { (length by.now ≤ length stored.now) × (length by.now ≤ length values.now) × (length by.now ≤ length flags.old) }
    ensures { flags.new ≡ over (length by.now) (λ v. cond (any (differs (values_of values.now) (values_of stored.now)) ((whole_lent tables.now by.now).ins v)) 1 0) flags.old }
{
    for v in 0..by.len() {
        flags[v] = u8::from(changed(v, tables, by, stored, values));
    }
}
