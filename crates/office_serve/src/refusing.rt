// What the office prints for a refused line.
ghost use Rattle.std.specs.Prelude.{◌+◌, ◌≤◌, length};
ghost use Rattle.paper.specs.Outcomes.{number_of};
ghost use Rattle.paper.specs.Program.{refusal};
ghost use Rattle.office_serve.specs.Serving.{Put};

use paper::refusals::Refusal;

// [10.5] Writes `refused N` and 0A from `at` on, and gives where they end.
pub fn refuse(out: &mut [u8], at: usize, why: Refusal) -> usize
    requires { at + 11 ≤ length out.old }
    ensures { Put (refusal (number_of why)) out.old at out.new result }
{
    let n = why.number();
    if n < 10 {
        let printed = [b'r', b'e', b'f', b'u', b's', b'e', b'd', b' ', 48 + n, 10];
        out[at..at + 10].copy_from_slice(&printed);
        return at + 10;
    }
    let printed = [
        b'r',
        b'e',
        b'f',
        b'u',
        b's',
        b'e',
        b'd',
        b' ',
        48 + n / 10,
        48 + n % 10,
        10,
    ];
    out[at..at + 11].copy_from_slice(&printed);
    at + 11
}
