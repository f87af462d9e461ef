// The text of a report, and of a refusal, laid at the front of a buffer.
#![tactic(auto)]

ghost use Rattle.std.specs.Prelude.{◌+◌, ◌*◌, ◌/◌, ◌≤◌, ◌≡◌, [], ◌∷◌, ◌++◌, length};
ghost use Rattle.recording.specs.Numbers.{number_at};
ghost use Rattle.meaning.specs.Run.{most_operations};
ghost use Rattle.meaning.specs.Report.{row_length, longest_report};
ghost use Rattle.meaning.specs.Printed.{text, decimal, line, heading_of};
ghost use Rattle.lines.specs.Text.{kind_text, field, bytes_text, numbers_text, row_text, row_texts, report_text, refusal_text};
ghost use Rattle.laying.specs.Lays.{Lays};
ghost use Rattle.lines.specs.Room.{Room, longest_text};
ghost use Rattle.lines.specs.Cursor.{RoomFor, Adds};

use recording::{LONGEST_REPORT, MOST_OPERATIONS, ROW_LENGTH, number_at};

// The bytes of the longest text: the first line has 41 at most, each other one 82.
pub const LONGEST_TEXT: usize = 41 + 82 * MOST_OPERATIONS as usize;

// These bytes at a place of any buffer, whose other bytes are promised too; the place after them.
pub fn lay_word(out: &mut [u8], at: usize, word: &[u8]) -> usize
    requires { at + length word.now ≤ length out.old }
    ensures { Lays out.old at word.now out.new result }
{
    out[at..at + word.len()].copy_from_slice(word);
    at + word.len()
}

// The digits of a number at a place; the place after them. By hand: they are promised (`decimal`) in a buffer that is lent, whose other bytes are
// promised too. By a place in and out: a `Cursor` would be written back to memory at each digit, a third more time for a drawer of many rows.
fn lay_digits(out: &mut [u8; LONGEST_TEXT], at: usize, n: u32) -> usize
    requires { Room out.old at (length (decimal n)) }
    ensures lays { Lays out.old at (decimal n) out.new result }
    ensures upper_bound { result ≤ at + 10 }
{
    if n < 10 {
        out[at] = b'0' + n as u8;
        return at + 1;
    }
    let last = lay_digits(out, at, n / 10);
    out[last] = b'0' + (n % 10) as u8;
    last + 1
}

// A buffer, and the place of the next byte.
#[derive(Drop)]
struct Cursor<'a> {
    out: &'a mut [u8; LONGEST_TEXT],
    at: usize,
}

impl<'a> Cursor<'a> {
    fn lay_byte(&mut self, x: u8)
        requires { RoomFor self.old 1 }
        ensures same_buffer { self.new.out.ghost_name ≡ self.old.out.ghost_name }
        ensures lays { Adds self.old (x ∷ []) self.new }
    {
        self.out[self.at] = x;
        self.at += 1;
    }

    fn lay_word(&mut self, word: &[u8])
        requires { RoomFor self.old (length word.now) }
        ensures same_buffer { self.new.out.ghost_name ≡ self.old.out.ghost_name }
        ensures lays { Adds self.old word.now self.new }
    {
        let at = self.at;
        self.at = lay_word(self.out, at, word);
    }

    fn lay_decimal(&mut self, n: u32)
        requires { RoomFor self.old (length (decimal n)) }
        ensures same_buffer { self.new.out.ghost_name ≡ self.old.out.ghost_name }
        ensures lays { Adds self.old (decimal n) self.new }
        ensures upper_bound { self.new.at ≤ self.old.at + 10 }
    {
        let at = self.at;
        self.at = lay_digits(self.out, at, n);
    }

    fn end_line(&mut self)
        requires { RoomFor self.old 1 }
        ensures same_buffer { self.new.out.ghost_name ≡ self.old.out.ghost_name }
        ensures lays { Adds self.old (text "\n") self.new }
        ensures upper_bound { self.new.at ≤ self.old.at + 1 }
    {
        self.lay_byte(b'\n');
    }

    // A space and a number.
    fn lay_field(&mut self, n: u32)
        requires { RoomFor self.old 11 }
        ensures same_buffer { self.new.out.ghost_name ≡ self.old.out.ghost_name }
        ensures lays { Adds self.old (field n) self.new }
        ensures upper_bound { self.new.at ≤ self.old.at + 11 }
    {
        self.lay_byte(b' ');
        self.lay_decimal(n);
    }

    // A space and the kind's word; the kind is a byte of the report.
    fn lay_kind(&mut self, kind: u8)
        requires { RoomFor self.old 5 }
        ensures same_buffer { self.new.out.ghost_name ≡ self.old.out.ghost_name }
        ensures lays { Adds self.old (text " " ++ kind_text kind) self.new }
        ensures upper_bound { self.new.at ≤ self.old.at + 5 }
    {
        if kind == 2 {
            self.lay_word(b" read");
        } else {
            self.lay_word(b" add");
        }
    }

    // The first four columns of the row that begins at a place of the report: a byte each.
    fn lay_bytes(&mut self, report: &[u8; LONGEST_REPORT], row: usize)
        requires room { RoomFor self.old 37 }
        requires row_bound { row + 4 ≤ longest_report }
        ensures same_buffer { self.new.out.ghost_name ≡ self.old.out.ghost_name }
        ensures lays { Adds self.old (bytes_text report.now row) self.new }
        ensures upper_bound { self.new.at ≤ self.old.at + 37 }
    {
        self.lay_decimal(u32::from(report[row]));
        self.lay_kind(report[row + 1]);
        self.lay_field(u32::from(report[row + 2]));
        self.lay_field(u32::from(report[row + 3]));
    }

    // Its other four columns, numbers, and the end of its line.
    fn lay_numbers(&mut self, report: &[u8; LONGEST_REPORT], row: usize)
        requires room { RoomFor self.old 45 }
        requires row_length_bound { row + row_length ≤ longest_report }
        ensures same_buffer { self.new.out.ghost_name ≡ self.old.out.ghost_name }
        ensures lays { Adds self.old (numbers_text report.now row) self.new }
        ensures upper_bound { self.new.at ≤ self.old.at + 45 }
    {
        self.lay_field(number_at(report, row + 4));
        self.lay_field(number_at(report, row + 8));
        self.lay_field(number_at(report, row + 12));
        self.lay_field(number_at(report, row + 16));
        self.end_line();
    }

    // The line of the row that begins at a place of the report.
    fn lay_row(&mut self, report: &[u8; LONGEST_REPORT], row: usize)
        requires room { RoomFor self.old 82 }
        requires row_length_bound { row + row_length ≤ longest_report }
        ensures same_buffer { self.new.out.ghost_name ≡ self.old.out.ghost_name }
        ensures lays { Adds self.old (row_text report.now row) self.new }
        ensures upper_bound { self.new.at ≤ self.old.at + 82 }
    {
        self.lay_bytes(report, row);
        self.lay_numbers(report, row);
    }

    // The lines of the first m rows of the report. By the index: a row is told by its place there, and so is its text defined.
    fn lay_rows(&mut self, report: &[u8; LONGEST_REPORT], m: usize)
        requires room { RoomFor self.old (82 * m) }
        requires m_le_most_operations { m ≤ most_operations }
        ensures same_buffer { self.new.out.ghost_name ≡ self.old.out.ghost_name }
        ensures lays { Adds self.old (row_texts report.now m) self.new }
        ensures upper_bound { self.new.at ≤ self.old.at + 82 * m }
    {
        for i in 0..m {
            self.lay_row(report, 9 + ROW_LENGTH * i);
        }
    }

    // A line of a word, a number, another word and another number.
    fn lay_line(&mut self, word: &[u8], a: u32, other: &[u8], b: u32)
        requires { RoomFor self.old (length word.now + length other.now + 24) }
        ensures same_buffer { self.new.out.ghost_name ≡ self.old.out.ghost_name }
        ensures lays { Adds self.old (line (word.now ∷ decimal a ∷ other.now ∷ decimal b ∷ [])) self.new }
        ensures upper_bound { self.new.at ≤ self.old.at + length word.now + length other.now + 24 }
    {
        self.lay_word(word);
        self.lay_field(a);
        self.lay_byte(b' ');
        self.lay_word(other);
        self.lay_field(b);
        self.end_line();
    }
}

// The text of a report: its first line, and one for each row.
pub fn lay_report(out: &mut [u8; LONGEST_TEXT], report: &[u8; LONGEST_REPORT]) -> usize
    requires room { Room out.old 0 longest_text }
    requires row_length_bound { number_at report.now 1 / row_length ≤ most_operations }
    ensures lays { Lays out.old 0 (report_text report.now) out.new result }
    ensures upper_bound { result ≤ longest_text }
{
    let m = number_at(report, 1) as usize / ROW_LENGTH;
    let counter = number_at(report, 5);
    let mut cursor = Cursor { out, at: 0 };
    cursor.lay_line(b"operations", m as u32, b"counter", counter);
    cursor.lay_rows(report, m);
    cursor.at
}

// The text of a refusal, by its number: it is promised for every number.
pub fn lay_refusal(out: &mut [u8; LONGEST_TEXT], number: u32, place: u32) -> usize
    requires { Room out.old 0 30 }
    ensures lays { Lays out.old 0 (refusal_text number place) out.new result }
    ensures upper_bound { result ≤ 30 }
{
    let mut cursor = Cursor { out, at: 0 };
    cursor.lay_word(b"refused");
    cursor.lay_field(number);
    cursor.lay_field(place);
    cursor.end_line();
    cursor.at
}

// The line before a recording of a drawer; its number is a count of recordings, no refusal's.
pub fn lay_heading(out: &mut [u8; LONGEST_TEXT], number: u32, place: u32) -> usize
    requires { Room out.old 0 39 }
    ensures lays { Lays out.old 0 (heading_of number place) out.new result }
    ensures upper_bound { result ≤ 39 }
{
    let mut cursor = Cursor { out, at: 0 };
    cursor.lay_line(b"recording", number, b"offset", place);
    cursor.at
}
