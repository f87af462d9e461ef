// The rules of a recording: its header, and each record by what the run keeps.
#![tactic(auto)]

ghost use Rattle.std.specs.Prelude.{◌^◌, ◌≤◌, ◌≡◌, length};
ghost use Rattle.refusals.specs.Table.{number_told};
ghost use Rattle.meaning.specs.Shape.{formed, highest_shape};
ghost use Rattle.meaning.specs.Layout.{highest_tree, told, head_refusal, first_record};
ghost use Rattle.meaning.specs.Run.{process_of, is_start, refusal_by};

use recording::{
    Event, FIRST_RECORD, Form, HIGHEST_TREE, LONGEST_RECORDING, MOST_OPERATIONS, number_at,
};
use refusals::Refusal;

// Refusals 1, 2, 4, 3 and 5, tried in that order.
pub fn header(s: &[u8]) -> Result<(), Refusal>
    ensures { number_told result ≡ head_refusal highest_shape s.now }
{
    if s.len() < FIRST_RECORD {
        return Err(Refusal::TooShort);
    }
    if s[0] != 1 {
        return Err(Refusal::OtherVersion);
    }
    if LONGEST_RECORDING < s.len() {
        return Err(Refusal::TooLong);
    }
    let follows = number_at(s, 1);
    if follows as usize != s.len() - 5 {
        return Err(Refusal::FalseLength);
    }
    if s[5] == 0 {
        return Err(Refusal::NoHeight);
    }
    if HIGHEST_TREE < s[5] {
        return Err(Refusal::NoHeight);
    }
    Ok(())
}

// The form that the header tells: version 1 is shape 0.
pub fn form_of(s: &[u8]) -> Form
    requires { first_record ≤ length s.now }
    ensures { result ≡ told s.now }
{
    Form {
        height: s[5] as u32,
        shape: 0,
    }
}

pub fn process_of(e: Event) -> usize
    ensures { result ≡ process_of e }
{
    match e {
        Event::Step(p) => usize::from(p),
        Event::Read(p) => usize::from(p),
        Event::Add(p, _) => usize::from(p),
    }
}

pub fn is_start(e: Event) -> bool
    ensures { result ≡ is_start e }
{
    match e {
        Event::Step(_) => false,
        Event::Read(_) => true,
        Event::Add(_, _) => true,
    }
}

// How many processes there are.
fn processes(h: u32) -> usize
    requires { h ≤ highest_tree }
    ensures { result ≡ 2 ^ h }
{
    1usize << h
}

// Refusals 7 to 10 of a record, by whether its process is busy and how many operations have started.
pub fn refusal(f: Form, e: Event, busy: bool, m: u32) -> Result<(), Refusal>
    requires { f.height ≤ highest_tree }
    ensures { number_told result ≡ refusal_by (formed f) e busy m }
{
    if processes(f.height) <= process_of(e) {
        return Err(Refusal::NoProcess);
    }
    let full = MOST_OPERATIONS <= m;
    match (is_start(e), busy, full) {
        (true, true, _) => Err(Refusal::Busy),
        (true, _, true) => Err(Refusal::Full),
        (false, false, _) => Err(Refusal::Idle),
        _ => Ok(()),
    }
}
