// [7.4] The present ask of a list: from the start, or after its last item.
ghost use Rattle.std.specs.Prelude.{◌≡◌, true, ◌≤◌, length};
ghost use Rattle.paper.specs.Orders.{snapshot_of};
ghost use Rattle.paper.specs.Ends.{present_place, present_ask};
ghost use Rattle.paper.specs.Lists.{held, listing, sound_held, asking_held};
ghost use Rattle.paper.specs.Outcomes.{gives, told};
ghost use Rattle.paper.specs.Lines.{Writes};
ghost use Rattle.paper.specs.Codec.{scope_of, ask_line, lines};
ghost use Rattle.end_tablet.specs.Holding.{AskReady};
ghost use Rattle.paper.specs.Limits.{longest_ask, most_page};

use checks::size_holds;
use paper::limits::LONGEST_ASK;
use paper::lines::Scope;
use paper::lists::List;
use paper::refusals::Refusal;

// [7.4] Where the next page starts, as lines write it.
pub fn present(l: List, room: &[u64]) -> Scope
    requires { AskReady l room.now }
    ensures { result ≡ scope_of (present_place (listing (held l room.now))) (snapshot_of (present_place (listing (held l room.now))) 0) }
{
    let n = l.count;
    if l.started {
        return Scope {
            from: 1,
            snapshot: l.snapshot as u16,
            distance: room[n * 3 - 1],
            number: room[n * 3 - 3] as u16,
        };
    }
    Scope::NONE
}

// [9.12] Writes the present ask of a sound list.
pub fn write_ask(l: List, room: &[u64], size: usize, out: &mut [u8]) -> Result<usize, Refusal>
    requires { sound_held (held l room.now) ≡ true }
    ensures { Writes (asking_held lines (held l room.now) size (length out.old)) out.old (told result) out.new }
{
    if l.complete {
        return Err(Refusal::Complete);
    }
    if !size_holds(size) {
        return Err(Refusal::PageSize);
    }
    if out.len() < LONGEST_ASK {
        return Err(Refusal::RoomTooShort);
    }
    put_ask(l, room, size, out)
}

fn put_ask(l: List, room: &[u64], size: usize, out: &mut [u8]) -> Result<usize, Refusal>
    requires { AskReady l room.now × ((1 ≤ size) × ((size ≤ most_page) × (longest_ask ≤ length out.old))) }
    ensures { Writes (gives (ask_line (present_ask (listing (held l room.now)) size))) out.old (told result) out.new }
{
    lines::write_ask(l.query, present(l, room), size as u8, out)
}
