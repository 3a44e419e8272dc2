// The office on a reader and a writer, which the program's `main` lends as its standard input and output. What it says to its lines is
// proved in `office_serve`; [10.12] here they are read in large chunks, and whatever was said is written before the next read, so that
// the office can be talked to through a pipe.
#![tactic(auto)]

ghost use Rattle.std.specs.Prelude.{◌≡◌, ℕ, ◌≤◌, List, ◌++◌, length, take};
ghost use Rattle.paper.specs.Program.{program};
ghost use Rattle.office_session.specs.Sittings.{anew_of, emptied_of, sitting_start};
ghost use Rattle.office_session.specs.Session.{RanWhole};
ghost use Rattle.office_stream.specs.Memory.{IsReady, HasAnswered};

use office_serve::feeding::{Sitting, feed, finish};
use paper::limits::{LONGEST_ANSWER, OFFICE_CLAIMS, OFFICE_COORDINATES, OFFICE_NODES};
use paper::tables::Table;
use std::io::{Read, Write};

// [10.12] Bytes of a chunk, and of the room that what is said to it is written into.
const CHUNK: usize = 65536;

// The office, and the memory that it works in.
#[derive(Drop)]
struct Program {
    sitting: Sitting,
    references: [u32; OFFICE_CLAIMS],
    coordinates: [i32; OFFICE_COORDINATES],
    nodes: [u64; OFFICE_NODES],
    line: [u8; LONGEST_ANSWER],
    out: [u8; CHUNK],
}

// How a sitting stands at the start of a chunk.
fn anew(sit: Sitting) -> Sitting
    ensures { result ≡ anew_of sit }
{
    Sitting {
        at: 0,
        written: 0,
        ..sit
    }
}

// [10.11] [10.13] Hands the front of the room to the writer, and gives back what it handed over; a write that fails is passed over.
fn hand_over<'a, W: Write>(output: &mut W, out: &'a [u8], w: usize) -> &'a [u8]
    requires { w ≤ length out.now }
    ensures { result.now ≡ take w out.now }
{
    let printed = &out[..w];
    let _ = output.write_all(printed);
    printed
}

// The same place in the chunk, with what was said handed over: only that goes off what is written.
fn emptied<W: Write>(output: &mut W, sit: Sitting, out: &[u8]) -> Sitting
    requires { sit.written ≤ length out.now }
    ensures { result ≡ emptied_of sit }
{
    let printed = hand_over(output, out, sit.written);
    Sitting {
        written: sit.written - printed.len(),
        ..sit
    }
}

impl Program {
    // [10.1] [10.10] Before the first byte. The table's number, measure and d are those of the first claim, once there is one.
    fn new() -> Self
        ensures { result.sitting ≡ sitting_start }
    {
        Self {
            sitting: Sitting {
                table: Table {
                    number: 0,
                    measure: 1,
                    d: 1,
                    capacity: OFFICE_CLAIMS,
                    count: 0,
                    used: 0,
                },
                size: 0,
                left: 4_294_967_295,
                at: 0,
                written: 0,
            },
            references: [0; OFFICE_CLAIMS],
            coordinates: [0; OFFICE_COORDINATES],
            nodes: [0; OFFICE_NODES],
            line: [0; LONGEST_ANSWER],
            out: [0; CHUNK],
        }
    }

    // [10.11] [10.12] Takes a chunk of the input, and writes what the office says to it.
    fn pump<W: Write>(&mut self, output: &mut W, chunk: &[u8])
        requires { IsReady self.old }
        ensures ready { IsReady self.new }
        ensures answered { (xs : List ℕ) → HasAnswered xs self.old → HasAnswered (xs ++ chunk.now) self.new }
    {
        self.sitting = anew(self.sitting);
        // No index is counted: how far the chunk is read is known when it was fed.
        while self.sitting.at < chunk.len() && self.sitting.left > 0 {
            self.sitting = feed(
                self.sitting,
                &mut self.references,
                &mut self.coordinates,
                &mut self.nodes,
                &mut self.line,
                chunk,
                &mut self.out,
            );
            self.sitting = emptied(output, self.sitting, &self.out);
        }
    }

    // [10.12] [10.13] Reads once, takes what it got, and gives how many bytes that was; a read that fails gets nothing.
    fn once<R: Read, W: Write>(&mut self, input: &mut R, output: &mut W, chunk: &mut [u8]) -> usize
        requires { IsReady self.old }
        ensures ready { IsReady self.new }
        ensures answered { (xs : List ℕ) → HasAnswered xs self.old → HasAnswered (xs ++ take result chunk.new) self.new }
    {
        let got = input.read(chunk).unwrap_or(0);
        self.pump(output, &chunk[..got]);
        got
    }

    // [10.9] [10.11] The input is over: hands over what the office then says, and gives how much that was.
    fn end_input<W: Write>(&mut self, output: &mut W) -> usize
        requires { IsReady self.old }
        ensures { (xs : List ℕ) → (a : HasAnswered xs self.old) → a.within.handed_over ++ take result self.new.out ≡ program xs }
    {
        let written = finish(
            anew(self.sitting),
            &mut self.references,
            &mut self.coordinates,
            &mut self.nodes,
            &self.line,
            &mut self.out,
        );
        hand_over(output, &self.out, written).len()
    }

    // Reads to the end of the input. A proved loop has to end, and nothing says that an input does: a line of it may have
    // no end. So the loop counts its reads, to a number that no run uses up.
    fn run<R: Read, W: Write>(&mut self, input: &mut R, output: &mut W)
        requires { self.old.sitting ≡ sitting_start }
        ensures { RanWhole self.new.out }
    {
        let mut chunk = [0u8; CHUNK];
        for _ in 0..u64::MAX {
            let got = self.once(input, output, &mut chunk);
            // [10.10] [10.13] There was nothing to read, or no line is left.
            if got == 0 || self.sitting.left == 0 {
                break;
            }
        }
        self.end_input(output);
    }
}

// The program `office`, with memory of its own.
pub fn office<R: Read, W: Write>(input: &mut R, output: &mut W) {
    Program::new().run(input, output);
}
