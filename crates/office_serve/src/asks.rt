// [10.4] [10.7] An ask line: its answer line, or a refusal.
ghost use Rattle.std.specs.Prelude.{length};
ghost use Rattle.paper.specs.Codec.{ask_meant};
ghost use Rattle.paper.specs.Program.{reply, ask_turn};
ghost use Rattle.office_serve.specs.Serving.{Put, books_of, AskServing};

use super::refusing::refuse;
use paper::lent::LentTable;
use paper::lines::Ask;
use paper::refusals::Refusal;

pub fn take_ask(table: &LentTable<'_>, ask: Ask, out: &mut [u8], at: usize) -> usize
    requires { AskServing table.now ask (length out.old) at }
    ensures { Put (ask_turn (books_of table.now) (reply (books_of table.now) (ask_meant ask))).printed out.old at out.new result }
{
    if table.header.count == 0 {
        return refuse(out, at, Refusal::OtherTable);
    }
    match end_office::answer_ask(table, ask, &mut out[at..]) {
        Ok(n) => at + n,
        Err(why) => refuse(out, at, why),
    }
}
