// [7.9] [7.10] [7.11] The soundness test of a list in lent memory, for any contents whatsoever.
ghost use Rattle.std.specs.Prelude.{◌≡◌, ◌-◌, ◌<◌, length};
ghost use Rattle.paper.specs.Lists.{held, sound_held};
ghost use Rattle.end_tablet.specs.Holding.{started_by, fields_hold};
ghost use Rattle.paper.specs.Limits.{most_coordinates};

use crate::items::items_hold;
use crate::probes::unused_zero;
use checks::in_range;
use paper::lists::List;
use paper::orders::Place;

fn started_well(started: bool, count: usize, snapshot: u64, complete: bool) -> bool
    ensures { result ≡ started_by started count snapshot complete }
{
    if started {
        if 1 <= count {
            return true;
        }
        return complete;
    }
    if count == 0 {
        if snapshot == 0 {
            return !complete;
        }
    }
    false
}

// What an array's type says of its length is told along, for whoever does not look into the probe.
fn fields_hold(l: List, room: usize) -> bool
    ensures { (result ≡ fields_hold l room) × (most_coordinates - 1 < length l.query.probe) }
{
    let q = l.query;
    let probe = q.probe;
    let d = q.d;
    if !in_range(q.measure, d) {
        return false;
    }
    if !unused_zero(d, &probe) {
        return false;
    }
    if List::MOST_SNAPSHOT < l.snapshot {
        return false;
    }
    if room / 3 < l.count {
        return false;
    }
    started_well(l.started, l.count, l.snapshot, l.complete)
}

pub fn is_sound(l: List, room: &[u64]) -> bool
    ensures { result ≡ sound_held (held l room.now) }
{
    if !fields_hold(l, room.len()) {
        return false;
    }
    let q = l.query;
    let order = q.order;
    items_hold(order, Place::Start, q.reach, l.snapshot, room, l.count)
}
