// The office over chunks of its input. Header and slices are parameters in this crate, as wherever a call writes to a table (tree::runs).
ghost use Rattle.std.specs.Prelude.{◌+◌, ◌<◌, ◌≤◌, ◌↔◌, IsTrue, length};
ghost use Rattle.paper.specs.Tree.{lent_mut};
ghost use Rattle.paper.specs.Program.{OfficeState};
ghost use Rattle.office_serve.specs.Feeding.{Stands, Set, Turning, Moved, Ended};
ghost use Rattle.paper.specs.Limits.{longest_answer};

use super::one_line::serve_cut;
use paper::limits::LONGEST_ANSWER;
use paper::tables::Table;

// The office between two lines or within one: its table, the size of the line so far, how many lines it still reads,
// where it is in the chunk, and how much of the output room is written.
#[derive(Clone, Copy)]
pub struct Sitting {
    pub table: Table,
    pub size: usize,
    pub left: u64,
    pub at: usize,
    pub written: usize,
}

impl Sitting {
    // [10.10] Whether there is a byte to read, a line left and room to write.
    fn goes_on(self, chunk: &[u8], out: &[u8]) -> bool
        requires { self.written ≤ length out.now }
        ensures { IsTrue result ↔ Turning self (length chunk.now) (length out.now) }
    {
        self.at < chunk.len() && self.left > 0 && self.written + LONGEST_ANSWER <= out.len()
    }
}

// Reads on to the end of a line, which is served, or of the chunk.
fn turn(
    sit: Sitting,
    references: &mut [u32],
    coordinates: &mut [i32],
    nodes: &mut [u64],
    line: &mut [u8],
    chunk: &[u8],
    out: &mut [u8],
) -> Sitting
    requires { Set (lent_mut sit.table references coordinates nodes) line.old × Turning sit (length chunk.now) (length out.old) }
    ensures moved { (o : OfficeState) → Stands (lent_mut sit.table references.entry coordinates.entry nodes.entry) line.old sit o
        → Moved o chunk.now sit out.old (lent_mut result.table references.exit coordinates.exit nodes.exit) line.new result out.new }
    ensures ready { Set (lent_mut result.table references.exit coordinates.exit nodes.exit) line.new }
    ensures on { sit.at < result.at }
    ensures short { result.written ≤ length out.old }
{
    let c = office_cut::cut(line, sit.size, chunk, sit.at);
    if !c.whole {
        return Sitting {
            size: c.size,
            at: c.at,
            ..sit
        };
    }
    let mut table = sit.table;
    let written = serve_cut(
        &mut table,
        references,
        coordinates,
        nodes,
        line,
        c.size,
        out,
        sit.written,
    );
    Sitting {
        table,
        size: 0,
        left: sit.left - 1,
        at: c.at,
        written,
    }
}

// [10.11] Reads on while there is room to write: to the end of the chunk, or of what may be read.
pub fn feed(
    sit: Sitting,
    references: &mut [u32],
    coordinates: &mut [i32],
    nodes: &mut [u64],
    line: &mut [u8],
    chunk: &[u8],
    out: &mut [u8],
) -> Sitting
    requires { Set (lent_mut sit.table references coordinates nodes) line.old × (sit.written ≤ length out.old) }
    ensures moved { (o : OfficeState) → Stands (lent_mut sit.table references.entry coordinates.entry nodes.entry) line.old sit o
        → Moved o chunk.now sit out.old (lent_mut result.table references.exit coordinates.exit nodes.exit) line.new result out.new }
    ensures ready { Set (lent_mut result.table references.exit coordinates.exit nodes.exit) line.new }
    ensures on { Turning sit (length chunk.now) (length out.old) → sit.at < result.at }
    ensures short { result.written ≤ length out.old }
    ensures stops { Turning result (length chunk.now) (length out.old) → ⊥ }
{
    let mut n = sit;
    // No index is counted: where a line ends is known when it is served.
    while n.goes_on(chunk, out) {
        n = turn(n, references, coordinates, nodes, line, chunk, out);
    }
    n
}

// [10.9] The input is over: serves the line that has no end, if there is one, and gives how much of the room is then written.
pub fn finish(
    sit: Sitting,
    references: &mut [u32],
    coordinates: &mut [i32],
    nodes: &mut [u64],
    line: &[u8],
    out: &mut [u8],
) -> usize
    requires { Set (lent_mut sit.table references coordinates nodes) line.now × (sit.written + longest_answer ≤ length out.old) }
    ensures done { (o : OfficeState) → Stands (lent_mut sit.table references.entry coordinates.entry nodes.entry) line.now sit o → Ended o out.old sit.written out.new result }
    ensures short { result ≤ length out.old }
{
    if sit.left == 0 || sit.size == 0 {
        return sit.written;
    }
    let mut table = sit.table;
    serve_cut(
        &mut table,
        references,
        coordinates,
        nodes,
        line,
        sit.size,
        out,
        sit.written,
    )
}
