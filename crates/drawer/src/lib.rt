// A drawer of recordings, end to end: the cut, the bytes needed, and the reports and marks laid.
#![tactic(auto)]

ghost use Rattle.std.specs.Prelude.{◌+◌, ◌^◌, ◌≤◌, ◌<◌, ◌≡◌, ◌⊎◌, cond, [], ◌∷◌, length, ltb, IfErr, MatchOption};
ghost use Rattle.meaning.specs.Drawer.{size_at, report_of};
ghost use Rattle.laying.specs.Lays.{Lays};
ghost use Rattle.placing.specs.Placing.{Same};
ghost use Rattle.keeping.specs.Keeping.{lent_to};
ghost use Rattle.engine.specs.Ends.{RoomForAny};
ghost use Rattle.entries.specs.Promises.{answer_of};
ghost use Rattle.drawer.specs.Cuts.{SizeAt, IsFirst, most_of, CutInto, Cuts, Measures, bytes_by};
ghost use Rattle.drawer.specs.Lending.{mark_by, LaysReport, RoomForAll, LaysAll};
ghost use Rattle.drawer.specs.Draws.{Draws};

use arrays::NO_ROW;
use counts::Counts;
use engine::Accepted;
use listing::NO_WAITER;
use placing::{Ledger, NONE_LISTED};
use recording::{FIRST_RECORD, LONGEST_RECORDING, MOST_OPERATIONS, ROW_LENGTH, number_at};
use refusals::{Refusal, Refused};

// How many pieces a drawer is cut into, and how many bytes their reports have at most.
#[derive(Clone, Copy)]
struct Pieces {
    number: usize,
    most: usize,
}

// The size of a piece by its L, of the bytes that are left at its cut; none where L passes the end.
pub fn size_within(left: usize, follows: u32) -> Option<usize>
    ensures { result ≡ cond (ltb left (5 + follows)) None (Some (5 + follows)) }
{
    // `as`, here and wherever a u32 becomes a usize: there is no `From`, and it is proved to lose nothing.
    let size = 5 + follows as usize;
    if left < size { None } else { Some(size) }
}

// The size of the piece whose first five bytes are at the front of s, of the bytes that are left at its cut; none where L passes the end.
pub fn size_of_piece(s: &[u8], left: usize) -> Option<usize>
    requires { 5 ≤ length s.now }
    ensures { result ≡ cond (ltb left (size_at s.now 0)) None (Some (size_at s.now 0)) }
{
    size_within(left, number_at(s, 1))
}

// The first piece of what is left of a drawer, and what is left behind it; none where none can be cut.
fn first_piece(rest: &[u8]) -> Option<(&[u8], &[u8])>
    ensures { MatchOption result (rest.now ≡ [] ⊎ SizeAt rest.now 0 None) (λ p. IsFirst rest.now p.0.now p.1.now) }
{
    if rest.len() < 5 {
        return None;
    }
    let size = size_of_piece(rest, rest.len())?;
    rest.split_at_checked(size)
}

// The bytes of a report at most, by the bytes of its piece: 0 is a number of bytes here, where no report comes.
fn most_of(size: usize) -> usize
    ensures { result ≡ most_of size }
{
    if !(FIRST_RECORD..=LONGEST_RECORDING).contains(&size) {
        return 0;
    }
    let starts = (size - FIRST_RECORD) / 3;
    9 + ROW_LENGTH * starts.min(MOST_OPERATIONS as usize)
}

fn cut_all(s: &[u8]) -> Result<Pieces, Refused>
    requires { length s.now ≤ 16777216 }
    ensures { Cuts s.now result }
{
    let mut pieces = Pieces { number: 0, most: 0 };
    let mut rest = s;
    'pieces: while let Some((piece, after)) = first_piece(rest) {
        pieces.number += 1;
        pieces.most += most_of(piece.len());
        rest = after;
    }
    if rest.is_empty() {
        return Ok(pieces);
    }
    let at = s.len() - rest.len();
    Err(Refused {
        refusal: Refusal::NoCut,
        place: at,
    })
}

// The bytes of a report, by how its run ended.
fn bytes_of(e: Result<Accepted, Refused>) -> usize
    ensures { result ≡ bytes_by e }
{
    match e {
        Ok(a) => 9 + ROW_LENGTH * a.operations as usize,
        Err(_) => 0,
    }
}

// The bytes of a piece's report, by a run that keeps no rows.
fn needed(s: &[u8]) -> usize
    ensures { result ≡ length (report_of s.now) }
{
    bytes_of(engine::ends(s))
}

// The bytes that the reports need, as far as room hangs on them: pieces are run, from the first on, until what is known of them fits.
fn measure(s: &[u8], pieces: Pieces, room: usize) -> usize
    requires { (length s.now ≤ 16777216) × CutInto s.now pieces.number pieces.most }
    ensures { Measures s.now room result }
{
    let mut need = pieces.most;
    let mut rest = s;
    'pieces: while let Some((piece, after)) = first_piece(rest) {
        if need <= room {
            return need;
        }
        need = need - most_of(piece.len()) + needed(piece);
        rest = after;
    }
    need
}

// A piece's report laid from a place of out on; how its run ended.
fn lay_piece(s: &[u8], out: &mut [u8], at: usize, ledger: &mut Ledger) -> Result<Accepted, Refused>
    requires { RoomForAny (lent_to ledger.old) × (at + length (report_of s.now) ≤ length out.old) }
    ensures lays { LaysReport s.now out.old at out.new result }
    ensures same { Same ledger.old ledger.new }
{
    let a = engine::alone(s, ledger)?;
    let m = a.operations as usize;
    rows::lay_report(&mut out[at..], a.counter, &ledger.rows[..m]);
    Ok(a)
}

// A piece's mark, by how its run ended.
fn lay_mark(marks: &mut [u8], at: usize, e: Result<Accepted, Refused>)
    requires { IfErr e (λ r. r.place < 2 ^ 32) × (at + 5 ≤ length marks.old) }
    ensures { Lays marks.old at (mark_by e) marks.new (at + 5) }
{
    let (number, place) = match e {
        Ok(_) => (0, 0),
        Err(r) => (r.refusal.number(), r.place as u32),
    };
    marks[at] = number as u8;
    rows::lay_number(marks, at + 1, place);
}

// Every piece's report and mark, each run with the same ledger.
fn lay_all(s: &[u8], out: &mut [u8], marks: &mut [u8])
    requires { RoomForAll s.now out.old marks.old }
    ensures { LaysAll s.now out.old marks.old out.new marks.new }
{
    // Written out: a constructor would take the arrays that are made here, with a clause for each on whose it is.
    let mut ledger = Ledger {
        counts: Counts {
            in_nodes: [[0; 64]; 6],
            written: [0; 64],
            read: &mut [[0u16; 64]; 64],
        },
        waiters: &mut [NO_WAITER; MOST_OPERATIONS as usize],
        listed: NONE_LISTED,
        rows: &mut [NO_ROW; MOST_OPERATIONS as usize],
        greatest: &mut [0u8; 64],
    };
    let mut laid: usize = 0;
    let mut marked: usize = 0;
    let mut rest = s;
    'pieces: while let Some((piece, after)) = first_piece(rest) {
        let e = lay_piece(piece, out, laid, &mut ledger);
        lay_mark(marks, marked, e);
        laid += bytes_of(e);
        marked += 5;
        rest = after;
    }
}

// The answer for the whole drawer; on acceptance the reports of the accepted pieces at the front of out, and every piece's mark at that of marks.
pub fn drawer(s: &[u8], out: &mut [u8], marks: &mut [u8]) -> Result<(), Refused>
    ensures draws { Draws s.now out.old marks.old out.new marks.new (answer_of result) }
    ensures within { IfErr result (λ r. r.place < 2 ^ 32) }
{
    if 16777216 < s.len() {
        return Err(Refused::from(Refusal::DrawerTooLong));
    }
    let pieces = cut_all(s)?;
    let need = measure(s, pieces, out.len());
    if out.len() < need {
        return Err(Refused {
            refusal: Refusal::NoRoom,
            place: need,
        });
    }
    if marks.len() < 5 * pieces.number {
        return Err(Refused {
            refusal: Refusal::NoRoom,
            place: 5 * pieces.number,
        });
    }
    lay_all(s, out, marks);
    Ok(())
}
