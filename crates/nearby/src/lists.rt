// A tablet's list: opened in an order, asking and taking lines of that order's kinds.
ghost use Rattle.std.specs.Prelude.{◌≡◌, length};
ghost use Rattle.paper.specs.Outcomes.{told};
ghost use Rattle.paper.specs.Lists.{Takes, held, opening_held, asking_held, taking_held};
ghost use Rattle.paper.specs.Codec.{lines};
ghost use Rattle.paper.specs.Lines.{Writes};

use paper::lists::List;
use paper::orders::Order;
use paper::refusals::Refusal;

// [9.11] Refusals 1, 5.
pub fn open_list(
    order: Order,
    table: u32,
    measure: u8,
    d: usize,
    probe: &[i32],
    reach: u64,
) -> Result<List, Refusal>
    ensures { told result ≡ opening_held (record { order = order; table = table; measure = measure; d = d; probe = probe.now; reach = reach }) }
{
    end_tablet::open_list(order, table, measure, d, probe, reach)
}

// [9.12] Refusals 2, 16, 6, 12.
pub fn write_ask(l: List, room: &[u64], size: usize, out: &mut [u8]) -> Result<usize, Refusal>
    ensures { Writes (asking_held lines (held l room.now) size (length out.old)) out.old (told result) out.new }
{
    if !end_tablet::is_sound(l, room) {
        return Err(Refusal::Unsound);
    }
    end_tablet::write_ask(l, room, size, out)
}

// [9.13] Refusals 2, 9, 10, 16, 13, 14, 15.
pub fn take(l: List, room: &mut [u64], line: &[u8]) -> Result<List, Refusal>
    ensures { Takes l (taking_held lines (held l room.old) line.now) room.old (told result) room.new }
{
    if !end_tablet::is_sound(l, room) {
        return Err(Refusal::Unsound);
    }
    end_tablet::take_line(l, room, line)
}
