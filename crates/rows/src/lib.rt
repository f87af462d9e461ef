// The report's rows as numbers, and their bytes.
#![tactic(auto)]

ghost use Rattle.std.specs.Prelude.{◌+◌, ◌*◌, ◌≤◌, ◌<◌, ◌≡◌, length};
ghost use Rattle.recording.specs.Numbers.{four_bytes};
ghost use Rattle.meaning.specs.Run.{most_operations};
ghost use Rattle.meaning.specs.Report.{row_length};
ghost use Rattle.arrays.specs.Arrays.{as_fun};
ghost use Rattle.arrays.specs.Numbers.{row_from, numbers_in_row, numbers_in, numbers_of};
ghost use Rattle.rows.specs.Rows.{fresh_numbers, stepped_numbers, with_row, RoomToStep, RoomToClose, closed, numbers_bytes, laid_at, laid_report};

use arrays::{NO_ROW, Row};
use recording::ROW_LENGTH;

// Row i right after its start record. The kind is a byte: it is promised for every one (`fresh_numbers`).
pub fn start_row(rows: &mut [Row], i: usize, p: u8, kind: u8)
    requires { i < length rows.old }
    ensures { numbers_of rows.new ≡ with_row (numbers_of rows.old) i (fresh_numbers p kind) }
{
    rows[i] = Row {
        head: u32::from_be_bytes([p, kind, 0, 0]),
        ..NO_ROW
    };
}

// Row i after one more step; the last one puts the contention in. What it takes is together in no other
// function; the contention is told also where it is not finished, since `stepped_numbers` is promised of both.
pub fn step_row(
    rows: &mut [Row],
    i: usize,
    finished: bool,
    contention: u8,
    answer: u32,
    second: bool,
)
    requires { RoomToStep (numbers_of rows.old) i × (i < length rows.old) }
    ensures { numbers_of rows.new ≡ with_row (numbers_of rows.old) i (stepped_numbers (numbers_of rows.old) i finished contention answer second) }
{
    let row = &mut rows[i];
    row.steps = row.steps + 1;
    row.answer = answer;
    row.seconds = row.seconds + u32::from(second);
    if finished {
        row.head = row.head + 256 + contention as u32;
    }
}

// These rows at the end: an unfinished one gets the contention kept for its process.
pub fn close(rows: &mut [Row], greatest: &[u8])
    requires { RoomToClose (numbers_of rows.old) (length rows.old) (length greatest.now) }
    ensures { numbers_of rows.new ≡ closed (as_fun greatest.now) (length rows.old) (numbers_of rows.old) }
{
    for row in &mut *rows {
        let [process, _, finished, _] = row.head.to_be_bytes();
        if finished == 0 {
            row.head = row.head + greatest[process as usize] as u32;
        }
    }
}

// Four bytes of x, the highest first, from place at on; the buffer is lent whole, since its other bytes are promised too (`laid_at`).
// `lines::lay_word` does as much, promised by `Lays`; neither crate stands on the other.
pub fn lay_number(out: &mut [u8], at: usize, x: u32)
    requires { at + 4 ≤ length out.old }
    ensures { out.new ≡ laid_at out.old at 4 (four_bytes x) }
{
    let bytes = x.to_be_bytes();
    out[at..at + 4].copy_from_slice(&bytes);
}

// A row's numbers from place at on.
fn lay_row(out: &mut [u8], at: usize, row: Row)
    requires { at + row_length ≤ length out.old }
    ensures { out.new ≡ laid_at out.old at row_length (numbers_bytes (as_fun (numbers_in row)) numbers_in_row) }
{
    lay_number(out, at, row.head);
    lay_number(out, at + 4, row.steps);
    lay_number(out, at + 8, row.answer);
    lay_number(out, at + 12, row.rank);
    lay_number(out, at + 16, row.seconds);
}

// The bytes of these rows, from place 9 on.
fn lay_rows(out: &mut [u8], rows: &[Row])
    requires { (length rows.now ≤ most_operations) × (9 + row_length * length rows.now ≤ length out.old) }
    ensures { out.new ≡ laid_at out.old 9 (row_length * length rows.now) (numbers_bytes (numbers_of rows.now) (row_from (length rows.now))) }
{
    for (i, row) in rows.iter().enumerate() {
        lay_row(out, 9 + ROW_LENGTH * i, *row);
    }
}

// The report of these rows at the front of a buffer that has room for it.
pub fn lay_report(out: &mut [u8], counter: u32, rows: &[Row])
    requires { (length rows.now ≤ most_operations) × (9 + row_length * length rows.now ≤ length out.old) }
    ensures { out.new ≡ laid_report (length rows.now) counter (numbers_of rows.now) out.old }
{
    out[0] = 1;
    lay_number(out, 1, (4 + ROW_LENGTH * rows.len()) as u32);
    lay_number(out, 5, counter);
    lay_rows(out, rows);
}
