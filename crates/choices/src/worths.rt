// Every value of tables whose chains of inputs may close, worked out from the search variables' values.
ghost use Rattle.std.specs.Prelude.{◌≡◌};
ghost use Rattle.paper.specs.Lists.{over};
ghost use Rattle.paper.specs.Tables.{values_in};
ghost use Rattle.paper.specs.Chains.{worth};
ghost use Rattle.tables.specs.Lent.{lent_tables};
ghost use Rattle.choices.specs.Workable.{Workable};

use crate::follow_choices;
use chains::closed::some_closes;
use routes::work_out;
use tables::lent::Tables;
use tables::makers;

// Works out every variable, along the order where no chain closes, and by following the choices where one does.
pub fn work_all(tables: &Tables, numbers: &[u16], order: &[u16], values: &mut [i32])
    requires { Workable (lent_tables tables.now) numbers.now order.now values.old }
    ensures { values.new ≡ over tables.now.n (worth (lent_tables tables.now) (values_in (lent_tables tables.now) values.old)) values.old }
{
    if some_closes(tables, numbers) {
        // Stays: rows of a fixed length, since no call allocates.
        let mut by = [0u16; 4096];
        makers(tables.n, tables.m, tables.makes, &mut by);
        let mut states = [0u8; 4096];
        follow_choices(tables, &by, values, &mut states);
        return;
    }
    work_out(tables, order, values);
}
