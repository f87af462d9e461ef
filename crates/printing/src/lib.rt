// The text that the printing programs print of a recording.
#![tactic(auto)]

ghost use Rattle.std.specs.Prelude.{◌+◌, ◌≤◌, ◌≡◌, ◌++◌, length, take};
ghost use Rattle.meaning.specs.Printed.{printed, heading_of};
ghost use Rattle.laying.specs.Lays.{Lays};
ghost use Rattle.printing.specs.Prints.{Prints};

use lines::{LONGEST_TEXT, lay_heading, lay_refusal, lay_report, lay_word};
use recording::{LONGEST_RECORDING, LONGEST_REPORT};

// One byte more than the longest, so that a longer one shows.
pub const MOST_TAKEN_IN: usize = LONGEST_RECORDING + 1;

fn taken_in(rec: &[u8]) -> &[u8]
    ensures { result.now ≡ take 65537 rec.now }
{
    &rec[..rec.len().min(MOST_TAKEN_IN)]
}

// The text of a recording at the front of a buffer that has room for every text, and how many bytes it has.
pub fn print(rec: &[u8], out: &mut [u8; LONGEST_TEXT]) -> usize
    ensures { Prints rec.now out.old out.new result }
{
    let mut report = [0u8; LONGEST_REPORT];
    match entries::report(taken_in(rec), &mut report) {
        Ok(()) => lay_report(out, &report),
        Err(r) => lay_refusal(out, r.refusal.number(), r.place as u32),
    }
}

// The heading and the text of a recording of a drawer at a place of out, each by way of text; the place after them. The other bytes of out are promised too,
// and its six parameters are together in no other function.
pub fn print_in_drawer(
    rec: &[u8],
    number: u32,
    place: u32,
    text: &mut [u8; LONGEST_TEXT],
    out: &mut [u8],
    at: usize,
) -> usize
    requires { at + 84048 ≤ length out.old }
    ensures lays { Lays out.old at (heading_of number place ++ printed rec.now) out.new result }
    ensures upper_bound { result ≤ at + 84048 }
{
    let n = lay_heading(text, number, place);
    let next = lay_word(out, at, &text[..n]);
    let m = print(rec, text);
    lay_word(out, next, &text[..m])
}
