// What an accepted build writes.
ghost use Rattle.std.specs.Prelude.{◌++◌, ◌≡◌, drop, set};
ghost use Rattle.paper.specs.Lists.{over};
ghost use Rattle.paper.specs.Tables.{index_in, index, values_in};
ghost use Rattle.paper.specs.Chains.{group_number, group_order, worth};
ghost use Rattle.paper.specs.Reason.{reason_of};
ghost use Rattle.tables.specs.Lent.{lent_tables};
ghost use Rattle.build.specs.Buildable.{Buildable, to_fill};

use chains::numbering::copy_numbers;
use chains::ranks::write_shared_order;
use choices::worths::work_all;
use index::readers::write_readers;
use rows::copies::copy_values;
use tables::lent::Tables;
use whys::notes::first_reasons;

// Writes the numbers, the order, the index of readers, every value and its reason, and empties the log.
// Stays: rows that are written are parameters of their own, here and below: a struct of them would need a clause for each, that it is still the caller's.
pub fn fill_model(
    tables: &Tables,
    starts: &[i32],
    state: &[u16],
    numbers: &mut [u16],
    order: &mut [u16],
    stored: &mut [i32],
    reader_starts: &mut [u16],
    reader_places: &mut [u16],
    reasons: &mut [u8],
    log_sizes: &mut [u16],
)
    requires buildable { Buildable (to_fill tables.now starts.now numbers.old order.old stored.old reader_starts.old reader_places.old reasons.old log_sizes.old) state.now }
    ensures numbers_after { numbers.new ≡ over tables.now.n (group_number (lent_tables tables.now)) numbers.old }
    ensures order_after { order.new ≡ group_order (lent_tables tables.now) ++ drop tables.now.m order.old }
    ensures stored_after { stored.new ≡ over tables.now.n (worth (lent_tables tables.now) (values_in (lent_tables tables.now) starts.now)) stored.old }
    ensures reader_places_after { index_in reader_starts.new reader_places.new ≡ index (lent_tables tables.now) (index_in reader_starts.old reader_places.old) }
    ensures reasons_after { reasons.new ≡ over tables.now.n (λ u. reason_of (lent_tables tables.now) u (worth (lent_tables tables.now) (values_in (lent_tables tables.now) starts.now))) reasons.old }
    ensures log_sizes_after { log_sizes.new ≡ set log_sizes.old 0 0 }
{
    copy_numbers(tables.n, state, numbers);
    write_shared_order(tables, state, order);
    write_readers(tables, reader_starts, reader_places);
    copy_values(tables.n, starts, stored);
    work_all(tables, state, order, stored);
    first_reasons(tables, stored, reasons);
    log_sizes[0] = 0;
}
