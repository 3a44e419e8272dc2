// A tablet's list: opened in an order, asking and taking lines of that order's kinds.
ghost use Rattle.std.specs.Prelude.{◌≡◌, length};
ghost use Rattle.paper.specs.Lists.{held, opening_held, asking_held, taking_held};
ghost use Rattle.paper.specs.Codec.{lines};
ghost use Rattle.c_lists.specs.Values.{query_from, list_in, opened_out, TakesOut};
ghost use Rattle.c_values.specs.Values.{WritesOut};

use c_lists::{Listed, Listing, list_taken, order_in};
use c_values::Written;
use paper::lists::List;

// [9.11] Refusals 1, 5.
#[unsafe(no_mangle)]
pub extern "C" fn nearby_open_list(
    order: u8,
    table: u32,
    measure: u8,
    d: usize,
    probe: &[i32],
    reach: u64,
) -> Listed
    ensures { result ≡ opened_out (opening_held (query_from order table measure d probe.now reach)) }
{
    Listed::from(nearby::open_list(order_in(order), table, measure, d, probe, reach))
}

// [9.12] Refusals 2, 16, 6, 12.
#[unsafe(no_mangle)]
pub extern "C" fn nearby_write_ask(l: Listing, room: &[u64], size: usize, out: &mut [u8]) -> Written
    ensures { WritesOut (asking_held lines (held (list_in l) room.now) size (length out.old)) out.old result out.new }
{
    Written::from(nearby::write_ask(List::from(l), room, size, out))
}

// [9.13] Refusals 2, 9, 10, 16, 13, 14, 15.
#[unsafe(no_mangle)]
pub extern "C" fn nearby_take(l: Listing, room: &mut [u64], line: &[u8]) -> Listed
    ensures { TakesOut (list_in l) (taking_held lines (held (list_in l) room.old) line.now) room.old result room.new }
{
    let list = List::from(l);
    list_taken(list, nearby::take(list, room, line))
}
