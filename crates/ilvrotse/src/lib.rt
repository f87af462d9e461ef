// The entries for host programs in C: include/ilvrotse.h declares them.
#![tactic(auto)]

ghost use Rattle.std.specs.Prelude.{◌^◌, ◌<◌, ◌≡◌, IfErr};
ghost use Rattle.meaning.specs.Report.{check_answer};
ghost use Rattle.entries.specs.Promises.{answer_of, Reports};
ghost use Rattle.drawer.specs.Draws.{Draws};
ghost use Rattle.ilvrotse.specs.Replies.{told};

use refusals::Refused;

// A refusal number, or 0, and a place: C has no Result.
#[repr(C)]
#[derive(Clone, Copy)]
pub struct Reply {
    pub number: u32,
    pub place: u32,
}

fn reply_of(r: Result<(), Refused>) -> Reply
    requires { IfErr r (λ e. e.place < 2 ^ 32) }
    ensures { told result ≡ answer_of r }
{
    match r {
        Ok(()) => Reply {
            number: 0,
            place: 0,
        },
        Err(e) => Reply {
            number: e.refusal.number(),
            place: e.place as u32,
        },
    }
}

// What report would answer with room enough.
#[unsafe(no_mangle)]
pub extern "C" fn ilvrotse_check(rec: &[u8]) -> Reply
    ensures { told result ≡ check_answer rec.now }
{
    reply_of(entries::check(rec))
}

// The answer, and on acceptance the report at the front of out.
#[unsafe(no_mangle)]
pub extern "C" fn ilvrotse_report(rec: &[u8], out: &mut [u8]) -> Reply
    ensures { Reports rec.now out.old out.new (told result) }
{
    reply_of(entries::report(rec, out))
}

// The answer for a whole drawer; on acceptance the reports at the front of out, and five bytes for each recording at that of marks.
#[unsafe(no_mangle)]
pub extern "C" fn ilvrotse_drawer(drawer: &[u8], out: &mut [u8], marks: &mut [u8]) -> Reply
    ensures { Draws drawer.now out.old marks.old out.new marks.new (told result) }
{
    reply_of(drawer::drawer(drawer, out, marks))
}
