// Check and report, proved equal to the definitions for every byte string.
#![tactic(auto)]

ghost use Rattle.std.specs.Prelude.{◌^◌, ◌≤◌, ◌<◌, ◌≡◌, length, IfErr};
ghost use Rattle.meaning.specs.Shape.{highest_shape};
ghost use Rattle.meaning.specs.Layout.{head_refusal, height};
ghost use Rattle.meaning.specs.Report.{check_answer};
ghost use Rattle.engine.specs.Ends.{RoomFor};
ghost use Rattle.entries.specs.Promises.{answer_of, Reports};

use arrays::{NO_ROW, Row};
use counts::Counts;
use listing::{NO_WAITER, Waiter};
use placing::{Ledger, NONE_LISTED};
use recording::{MOST_OPERATIONS, ROW_LENGTH};
use refusals::{Refusal, Refused};

// What report would answer with room enough. `within` is a clause and no invariant of `Refused`: `recording::cut_at` answers for every place.
pub fn check(s: &[u8]) -> Result<(), Refused>
    ensures answer { answer_of result ≡ check_answer s.now }
    ensures within { IfErr result (λ r. r.place < 2 ^ 32) }
{
    // No `?` here: with it `check` of a recording refused at its header took 13 ns in place of 5, 2.2 times the second program.
    match engine::ends(s) {
        Ok(_) => Ok(()),
        Err(refused) => Err(refused),
    }
}

// The report of a recording whose header has passed, with the arrays that it keeps.
fn report_in(
    s: &[u8],
    out: &mut [u8],
    read: &mut [[u16; 64]],
    waiters: &mut [Waiter],
    rows: &mut [Row],
) -> Result<(), Refused>
    requires { (head_refusal highest_shape s.now ≡ 0) × RoomFor s.now (height s.now) (record { readers = length read.old; waiters = length waiters.old; rows = length rows.old; processes = 64 }) }
    ensures reports { Reports s.now out.old out.new (answer_of result) }
    ensures within { IfErr result (λ r. r.place < 2 ^ 32) }
{
    let mut greatest = [0u8; 64];
    // Written out, as in `drawer`, whose arrays are made in the literal.
    let mut ledger = Ledger {
        counts: Counts {
            in_nodes: [[0; 64]; 6],
            written: [0; 64],
            read,
        },
        waiters,
        listed: NONE_LISTED,
        rows,
        greatest: &mut greatest,
    };
    let e = engine::run(s, rules::form_of(s), &mut ledger)?;
    let m = e.operations as usize;
    let needed = 9 + ROW_LENGTH * m;
    if out.len() < needed {
        return Err(Refused {
            refusal: Refusal::NoRoom,
            place: needed,
        });
    }
    rows::lay_report(out, e.counter, &ledger.rows[..m]);
    Ok(())
}

// The same with read counts for so many processes, and waiters and rows for as many operations as the recording has bytes for: 20 at most, or 1,024.
// Not inlined, for the same reason as `engine::run`.
#[inline(never)]
fn report_with<const PROCESSES: usize>(s: &[u8], out: &mut [u8]) -> Result<(), Refused>
    requires { (head_refusal highest_shape s.now ≡ 0) × (2 ^ height s.now ≤ PROCESSES) × (PROCESSES ≤ 64) }
    ensures reports { Reports s.now out.old out.new (answer_of result) }
    ensures within { IfErr result (λ r. r.place < 2 ^ 32) }
{
    let mut read = [[0u16; 64]; PROCESSES];
    if s.len() <= 68 {
        let mut waiters = [NO_WAITER; 20];
        let mut rows = [NO_ROW; 20];
        return report_in(s, out, &mut read, &mut waiters, &mut rows);
    }
    let mut waiters = [NO_WAITER; MOST_OPERATIONS as usize];
    let mut rows = [NO_ROW; MOST_OPERATIONS as usize];
    report_in(s, out, &mut read, &mut waiters, &mut rows)
}

// The answer, and on acceptance the report at the front of out.
pub fn report(s: &[u8], out: &mut [u8]) -> Result<(), Refused>
    ensures reports { Reports s.now out.old out.new (answer_of result) }
    ensures within { IfErr result (λ r. r.place < 2 ^ 32) }
{
    rules::header(s)?;
    if s[5] <= 3 {
        report_with::<8>(s, out)
    } else if s[5] <= 5 {
        report_with::<32>(s, out)
    } else {
        report_with::<64>(s, out)
    }
}
