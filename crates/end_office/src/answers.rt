// The answer to an ask, as fields or as a line.
ghost use Rattle.std.specs.Prelude.{length};
ghost use Rattle.paper.specs.Ends.{table_of, line_answered};
ghost use Rattle.paper.specs.Codec.{ask_meant};
ghost use Rattle.paper.specs.Codec.{lines as Codec·lines};
ghost use Rattle.paper.specs.Program.{reply_to};
ghost use Rattle.paper.specs.Outcomes.{told};
ghost use Rattle.paper.specs.Lines.{Writes};
ghost use Rattle.end_office.specs.Desk.{Open, Answering, AskOurs, ask_in, page_reply};

use super::pages::write_page;
use checks::{is_ours, place_of, snapshot_holds};
use paper::lent::LentTable;
use paper::lines::{Ask, Scope};
use paper::queries::Query;
use paper::refusals::Refusal;

// [8.7] [8.8] The answer to an ask that is for this table.
fn answer_here(
    table: &LentTable<'_>,
    q: Query,
    p: Scope,
    size: u8,
    out: &mut [u8],
) -> Result<usize, Refusal>
    requires { AskOurs table.now q p size (length out.old) }
    ensures { Writes (page_reply (table_of table.now) (ask_in q p size)) out.old (told result) out.new }
{
    let place = place_of(p);
    if !snapshot_holds(place, table.header.count) {
        return Err(Refusal::Snapshot);
    }
    let probe = q.probe;
    if !walk::questions::mark_holds(table, &probe[..q.d], q.reach, place) {
        return Err(Refusal::Mark);
    }
    write_page(table, q, p, size, out)
}

// [6.2] [8.11] Answers an ask that a reader gave.
pub fn answer_ask(table: &LentTable<'_>, ask: Ask, out: &mut [u8]) -> Result<usize, Refusal>
    requires { Answering table.now ask (length out.old) }
    ensures { Writes (reply_to (table_of table.now) (ask_meant ask)) out.old (told result) out.new }
{
    let q = ask.query;
    if !is_ours(table.header, q.table, q.measure, q.d) {
        return Err(Refusal::OtherTable);
    }
    answer_here(table, q, ask.scope, ask.size, out)
}

// [6.1] [9.10] Answers an ask line.
pub fn answer_line(table: &LentTable<'_>, line: &[u8], out: &mut [u8]) -> Result<usize, Refusal>
    requires { Open table.now (length out.old) }
    ensures { Writes (line_answered Codec·lines (table_of table.now) line.now) out.old (told result) out.new }
{
    let ask = lines::read_ask(line)?;
    answer_ask(table, ask, out)
}
