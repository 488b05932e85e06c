// The links of each variable in two rows: its inputs, all of them or only those that no choice decides.
ghost use Rattle.std.specs.Prelude.{◌≡◌, ◌≤◌, length};
ghost use Rattle.tables.specs.Makers.{Makers};
ghost use Rattle.order.specs.Numbering.{Clean, Parted};
ghost use Rattle.chains.specs.Links.{kinded_lent, Kinded, by_element, every, link_count, Linked};

use integers::wide;
use order::of_maker;
use tables::lent::Tables;

// Which inputs are links: all of them, or the plain ones alone, those that no choice decides.
#[derive(Clone, Copy)]
pub enum Which {
    All,
    Plain,
}

// Whether an ELEMENT makes the variable.
// Stays: a kind is a number, as `tables::kind` says.
pub fn by_element(maker: usize, kinds: &[u16]) -> bool
    requires { maker ≤ length kinds.now }
    ensures { result ≡ by_element kinds.now maker }
{
    of_maker(maker, kinds) == 4
}

// How many links a variable has: its inputs, or, of the plain ones, none where an ELEMENT makes it.
fn link_count(which: Which, maker: usize, tables: &Tables) -> u16
    requires { (maker ≤ length tables.now.kinds.now) × (maker ≤ length tables.now.counts.now) }
    ensures { result ≡ link_count (every which) tables.now.kinds.now tables.now.counts.now maker }
{
    match which {
        Which::Plain if by_element(maker, tables.kinds) => 0,
        _ => of_maker(maker, tables.counts),
    }
}

// Writes where the links of each variable begin and where they stop.
pub fn set_links(
    which: Which,
    tables: &Tables,
    by: &[u16],
    begins: &mut [u16; 4096],
    stops: &mut [u16; 4096],
)
    requires kinded { Kinded (kinded_lent tables.now) }
    requires makers { Makers (kinded_lent tables.now) by.now }
    requires clean { Clean tables.now.n begins.old × Clean tables.now.n stops.old }
    ensures { Linked (every which) (kinded_lent tables.now) begins.new stops.new × Parted tables.now.n begins.new stops.new tables.now.vars.now }
{
    for v in 0..tables.n {
        let maker = wide(by[v]);
        let first = of_maker(maker, tables.firsts);
        begins[v] = first;
        stops[v] = first + link_count(which, maker, tables);
    }
}
