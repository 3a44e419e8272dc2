// One line served: a sound one, any one, and the room that it was cut into.
ghost use Rattle.std.specs.Prelude.{◌≡◌, true, length};
ghost use Rattle.paper.specs.Tree.{lent_mut};
ghost use Rattle.paper.specs.Program.{line_turn};
ghost use Rattle.paper.specs.Frames.{is_line};
ghost use Rattle.office_serve.specs.Serving.{books_of, Serving, Served, ServedCut};
ghost use Rattle.paper.specs.Limits.{longest_answer};

use super::asks::take_ask;
use super::claims::take_claim;
use super::refusing::refuse;
use paper::lent::LentTable;
use paper::refusals::Refusal;
use paper::tables::Table;

// [10.6] Serves a sound line, a claim, an ask, or neither, and gives where what was said ends.
fn serve_sound(
    t: &mut Table,
    references: &mut [u32],
    coordinates: &mut [i32],
    nodes: &mut [u64],
    line: &[u8],
    out: &mut [u8],
    at: usize,
) -> usize
    requires { Serving (lent_mut t.old references coordinates nodes) (length out.old) at × (is_line line.now ≡ true) }
    ensures { Served (line_turn (books_of (lent_mut t.old references.entry coordinates.entry nodes.entry)) line.now) (lent_mut t.new references.exit coordinates.exit nodes.exit) out.old at out.new result }
{
    match lines::claim_in(line) {
        Ok(claim) => take_claim(t, references, coordinates, nodes, claim, out, at),
        Err(_) => match lines::ask_in(line) {
            Ok(ask) => take_ask(
                &LentTable::new(*t, references, coordinates, nodes),
                ask,
                out,
                at,
            ),
            Err(_) => refuse(out, at, Refusal::Fields),
        },
    }
}

// Serves a line, which is found sound once.
fn serve_line(
    t: &mut Table,
    references: &mut [u32],
    coordinates: &mut [i32],
    nodes: &mut [u64],
    line: &[u8],
    out: &mut [u8],
    at: usize,
) -> usize
    requires { Serving (lent_mut t.old references coordinates nodes) (length out.old) at }
    ensures { Served (line_turn (books_of (lent_mut t.old references.entry coordinates.entry nodes.entry)) line.now) (lent_mut t.new references.exit coordinates.exit nodes.exit) out.old at out.new result }
{
    if line_digits::is_sound(line) {
        serve_sound(t, references, coordinates, nodes, line, out, at)
    } else {
        refuse(out, at, Refusal::NoLine)
    }
}

// [10.8] Serves the line that was cut: a size over the room's length stands for any longer line.
pub fn serve_cut(
    t: &mut Table,
    references: &mut [u32],
    coordinates: &mut [i32],
    nodes: &mut [u64],
    line: &[u8],
    size: usize,
    out: &mut [u8],
    at: usize,
) -> usize
    requires { Serving (lent_mut t.old references coordinates nodes) (length out.old) at × (length line.now ≡ longest_answer) }
    ensures { ServedCut line.now size (books_of (lent_mut t.old references.entry coordinates.entry nodes.entry)) (lent_mut t.new references.exit coordinates.exit nodes.exit) out.old at out.new result }
{
    if size <= line.len() {
        serve_line(t, references, coordinates, nodes, &line[..size], out, at)
    } else {
        refuse(out, at, Refusal::NoLine)
    }
}
