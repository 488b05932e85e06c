// Build's values: every row once, along the order.
ghost use Rattle.std.specs.Prelude.{◌≡◌, ◌≤◌, length};
ghost use Rattle.paper.specs.Lists.{over};
ghost use Rattle.paper.specs.Net.{afresh};
ghost use Rattle.paper.specs.Tables.{net, values_in};
ghost use Rattle.tables.specs.Lent.{lent_tables};
ghost use Rattle.routes.specs.Rows.{Along};

use crate::row::row_value;
use integers::wide;
use tables::lent::Tables;

// Works every made variable out, from the values that the search variables have.
pub fn work_out(tables: &Tables, order: &[u16], values: &mut [i32])
    requires along { Along (lent_tables tables.now) order.now }
    requires room { tables.now.n ≤ length values.old }
    ensures { values.new ≡ over tables.now.n (afresh (net (lent_tables tables.now)) (values_in (lent_tables tables.now) values.old) tables.now.n) values.old }
{
    for &row in &order[..tables.m] {
        let r = wide(row);
        let v = wide(tables.makes[r]);
        values[v] = row_value(r, tables, values);
    }
}
