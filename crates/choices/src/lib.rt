// Values worked out by following the choices: a formula is worked out once what it looks at is, and a variable that needs itself is left undetermined.
#![tactic(auto)]

pub mod afresh;
pub mod renewals;
pub mod visits;
pub mod worths;

ghost use Rattle.std.specs.Prelude.{◌≤◌, length};
ghost use Rattle.paper.specs.Checks.{Sound};
ghost use Rattle.tables.specs.Lent.{lent_tables};
ghost use Rattle.tables.specs.Makers.{Makers};
ghost use Rattle.order.specs.Numbering.{Clean};
ghost use Rattle.choices.specs.Choices.{Followed};

use crate::visits::visit;
use tables::lent::Tables;

// Works out every variable that is determined by the search variables' values, and says with a state of 2 which are.
// Stays: tables and `by` apart, here and in what is called, since docs/STATEMENTS names this function; `Makers` joins them in clauses.
pub fn follow_choices(tables: &Tables, by: &[u16], values: &mut [i32], states: &mut [u8; 4096])
    requires sound { Sound (lent_tables tables.now) }
    requires makers { Makers (lent_tables tables.now) by.now }
    requires room { tables.now.n ≤ length values.old }
    requires clean { Clean tables.now.n states.old }
    ensures { Followed (lent_tables tables.now) values.old values.new states.new }
{
    for v in 0..tables.n {
        visit(v, tables, &by[..tables.n], values, states);
    }
}
