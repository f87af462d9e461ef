// Reads a recording from standard input and prints its report, or its refusal.
#![tactic(auto)]

use filling::read_full;
use lines::LONGEST_TEXT;
use printing::MOST_TAKEN_IN;

fn main(rt: HostRuntime) {
    let mut recording = [0u8; MOST_TAKEN_IN];
    let n = read_full(&mut rt.stdin(), &mut recording);
    let mut text = [0u8; LONGEST_TEXT];
    let m = printing::print(&recording[..n], &mut text);
    let _ = rt.write_all(&text[..m]);
}
