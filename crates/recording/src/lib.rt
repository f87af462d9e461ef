// One record of a recording, read at a place and written at the front of a buffer.
#![tactic(auto)]

ghost use Rattle.std.specs.Prelude.{◌+◌, ◌*◌, ◌^◌, ◌≤◌, [], ◌∷◌, ◌≡◌, length};
ghost use Rattle.recording.specs.Numbers.{number_at};
ghost use Rattle.recording.specs.Record.{Cuts, bytes_of};
ghost use Rattle.recording.specs.Written.{Writes};

use refusals::{Refusal, Refused};

// The longest recording that is taken, the highest tree, where the first record stands, and the most operations.
pub const LONGEST_RECORDING: usize = 65536;

pub const HIGHEST_TREE: u8 = 6;

pub const FIRST_RECORD: usize = 6;

pub const MOST_OPERATIONS: u32 = 1024;

// The bytes of a report's row, and of the longest report.
pub const ROW_LENGTH: usize = 20;

pub const LONGEST_REPORT: usize = 9 + ROW_LENGTH * MOST_OPERATIONS as usize;

// What a process does next, by its process number; an addition with its delta.
#[derive(Clone, Copy)]
pub enum Event {
    Step(u8),
    Read(u8),
    Add(u8, u32),
}

// The tree that a recording is of: its height, and its shape by number, since `rules::refusal` answers for every number.
#[derive(Clone, Copy)]
pub struct Form {
    pub height: u32,
    pub shape: u8,
}

// A whole record: its event, and the place behind it.
#[derive(Clone, Copy)]
pub struct Found {
    pub event: Event,
    pub next: usize,
}

// The number in four bytes, highest first.
pub fn number(a: u8, b: u8, c: u8, d: u8) -> u32
    ensures { result ≡ a * 2 ^ 24 + b * 2 ^ 16 + c * 2 ^ 8 + d }
{
    u32::from_be_bytes([a, b, c, d])
}

// The number in the four bytes from a place on.
pub fn number_at(s: &[u8], at: usize) -> u32
    requires { at + 4 ≤ length s.now }
    ensures { result ≡ number_at s.now at }
{
    number(s[at], s[at + 1], s[at + 2], s[at + 3])
}

// What stands at a place of a recording: a whole record, no more bytes, or a record that rule 6 refuses.
pub fn cut_at(s: &[u8], at: usize) -> Result<Option<Found>, Refused>
    ensures { Cuts s.now at result }
{
    if s.len() <= at {
        return Ok(None);
    }
    let broken = Refused {
        refusal: Refusal::BrokenRecord,
        place: at,
    };
    let left = s.len() - at;
    if left < 3 {
        return Err(broken);
    }
    let p = s[at + 2];
    let (event, next) = match (s[at], s[at + 1]) {
        (2, 1) => (Event::Step(p), at + 3),
        (2, 2) => (Event::Read(p), at + 3),
        (6, 3) if 7 <= left => (Event::Add(p, number_at(s, at + 3)), at + 7),
        _ => return Err(broken),
    };
    Ok(Some(Found { event, next }))
}

// Any event with these bytes.
fn lay(buf: &mut [u8], bytes: &[u8]) -> Result<usize, Refused>
    ensures { (e : Event) → bytes_of e ≡ bytes.now → Writes e buf.old buf.new result }
{
    let needed = bytes.len();
    if buf.len() < needed {
        return Err(Refused {
            refusal: Refusal::NoRoom,
            place: needed,
        });
    }
    buf[..needed].copy_from_slice(bytes);
    Ok(needed)
}

// The event at the front of the buffer, and how many bytes that took; or how many it needs.
pub fn write(buf: &mut [u8], e: Event) -> Result<usize, Refused>
    ensures { Writes e buf.old buf.new result }
{
    match e {
        Event::Step(p) => lay(buf, &[2, 1, p]),
        Event::Read(p) => lay(buf, &[2, 2, p]),
        Event::Add(p, d) => {
            let [a, b, c, d] = d.to_be_bytes();
            lay(buf, &[6, 3, p, a, b, c, d])
        }
    }
}
