// Rows whose variable has no topological number among those of the rows kept.
ghost use Rattle.std.specs.Prelude.{true, false, ◌&&◌, ◌≡◌, ◌≤◌, length, get_or};
ghost use Rattle.paper.specs.Lists.{nat, over};
ghost use Rattle.paper.specs.Tables.{ends};
ghost use Rattle.tables.specs.Makers.{AllBelow};
ghost use Rattle.order.specs.Formed.{bare_lent, Formed};
ghost use Rattle.order.specs.Numbering.{Clean, ended};
ghost use Rattle.damage.specs.Flags.{flagged};
ghost use Rattle.salvage.specs.Packing.{shape_of, Packable, Known, Makes, CanBeNumbered};

use crate::packing::copy::pack_shape;
use damage::admissions::still;
use damage::flags::list_flagged;
use order::find_numbers;
use tables::lent::Tables;
use tables::makers;

// Finds which variables can have a number in these tables.
fn number_packed(tables: &Tables, state: &mut [u16; 4096])
    requires formed { Formed (bare_lent tables.now) }
    requires clean { Clean tables.now.n state.old }
    ensures { Known (bare_lent tables.now) state.new }
{
    // Stays: rows of a fixed length, since no call allocates.
    let mut by = [0u16; 4096];
    makers(tables.n, tables.m, tables.makes, &mut by);
    find_numbers(tables, &by, state);
}

// Finds which variables can have a number in the tables of these rows.
fn number_rows(tables: &Tables, rows: &[u16], state: &mut [u16; 4096])
    requires packable { Packable tables.now.firsts.now tables.now.counts.now (length tables.now.vars.now) rows.now }
    requires made { AllBelow (length rows.now) rows.now (length tables.now.makes.now) }
    requires formed { Formed (shape_of tables.now rows.now) }
    requires clean { Clean tables.now.n state.old }
    ensures { Known (shape_of tables.now rows.now) state.new }
{
    // Stays: rows of a fixed length, since no call allocates.
    let mut makes = [0u16; 4096];
    let mut firsts = [0u16; 4096];
    let mut counts = [0u16; 4096];
    let mut vars = [0u16; 16384];
    let m = rows.len();
    let e = pack_shape(
        rows,
        tables,
        &mut makes,
        &mut firsts,
        &mut counts,
        &mut vars,
    );
    let packed = Tables {
        n: tables.n,
        m,
        e,
        kinds: &[],
        makes: &makes[..m],
        params: &[],
        firsts: &firsts[..m],
        counts: &counts[..m],
        vars: &vars[..e],
        coefs: &[],
    };
    number_packed(&packed, state);
}

// Clears the flags of rows whose variable has no number.
// Stays: r picks from two rows.
fn clear_rows(m: usize, makes: &[u16], state: &[u16; 4096], row: &mut [bool])
    requires there { (m ≤ length makes.now) × (m ≤ length row.old) }
    requires made { Makes 4096 m makes.now row.old }
    ensures { row.new ≡ over m (λ r. get_or row.old r false && ended state.now (nat makes.now r)) row.old }
{
    for r in 0..m {
        row[r] = still(row[r], makes[r], state);
    }
}

// Clears the flags of rows whose variable has no topological number among those of the flagged rows.
pub fn drop_rows(tables: &Tables, row: &mut [bool])
    requires { CanBeNumbered tables.now row.old }
    ensures { row.new ≡ over tables.now.m (λ r. get_or row.old r false
        && ends (shape_of tables.now (flagged true row.old tables.now.m)) (nat tables.now.makes.now r))
        row.old }
{
    // Stays: rows of a fixed length, since no call allocates.
    let mut rows = [0u16; 4096];
    let mut state = [0u16; 4096];
    let k = list_flagged(tables.m, row, true, 0, &mut rows);
    number_rows(tables, &rows[..k], &mut state);
    clear_rows(tables.m, tables.makes, &state, row);
}
