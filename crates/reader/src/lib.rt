// The reader: it keeps the recording it was lent and its place in it, and hands out one event after another. The work is in `reading_at`, which
// takes the slice and the place.
#![tactic(auto)]

ghost use Rattle.std.specs.Prelude.{◌≡◌};
ghost use Rattle.reader.specs.Reads.{Reads, ReadsAt, reader_of};

use recording::{FIRST_RECORD, Found};
use refusals::Refused;

#[derive(Clone, Copy)]
pub struct Reader<'a> {
    pub rec: &'a [u8],
    pub place: usize,
}

// What is handed out at a place, and the place afterwards, which a caller with no `Reader` has nowhere else.
#[derive(Clone, Copy)]
pub struct Reading {
    pub cut: Result<Option<Found>, Refused>,
    pub place: usize,
}

pub fn reading_at(rec: &[u8], place: usize) -> Reading
    ensures { ReadsAt rec.now place result }
{
    let cut = recording::cut_at(rec, place);
    match cut {
        Ok(Some(found)) => Reading {
            cut,
            place: found.next,
        },
        Ok(None) => Reading { cut, place },
        Err(_) => Reading { cut, place },
    }
}

impl<'a> Reader<'a> {
    pub fn new(rec: &'a [u8]) -> Reader<'a>
        ensures { result ≡ reader_of rec.entry }
    {
        Reader {
            rec,
            place: FIRST_RECORD,
        }
    }

    // Hands out what stands at the place, also beyond the bytes. The place moves past an event, and not at a refusal or at the end.
    pub fn next(&mut self) -> Result<Option<Found>, Refused>
        ensures { Reads self.old self.new result }
    {
        let reading = reading_at(self.rec, self.place);
        self.place = reading.place;
        reading.cut
    }
}
