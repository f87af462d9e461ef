// The run over a recording's records, proved equal to the definition's.
#![tactic(auto)]

ghost use Rattle.std.specs.Prelude.{◌+◌, ◌*◌, ◌^◌, ◌≤◌, ◌<◌, eqb, ◌≡◌, true, length};
ghost use Rattle.sets.specs.Processes.{is_in};
ghost use Rattle.meaning.specs.Shape.{formed};
ghost use Rattle.meaning.specs.Layout.{longest_recording, highest_tree, form_of, first_record, records_of};
ghost use Rattle.meaning.specs.Run.{initial, outcome, run as run_of};
ghost use Rattle.climb.specs.Climb.{Known};
ghost use Rattle.engine.specs.Ends.{Ends, EndsAlone, RoomFor, RoomForAny};
ghost use Rattle.engine.specs.Tries.{Tries, busy_then};

use keeping::{Keeper, Nothing};
use machine::{Memory, Process};
use recording::{Event, FIRST_RECORD, Form};
use refusals::Refused;

// A record that no rule refuses: a step or a start of a process, with an addition's delta, and the next place.
#[derive(Clone, Copy)]
pub enum Passed {
    Step(usize, usize),
    Start(usize, Option<u32>, usize),
}

// What is told of an accepted recording beside its rows.
#[derive(Clone, Copy)]
pub struct Accepted {
    pub operations: u32,
    pub counter: u32,
}

// The record at a place, if there are more.
fn try_at(s: &[u8], f: Form, busy: u64, m: u32, at: usize) -> Result<Option<Passed>, Refused>
    requires { f.height ≤ highest_tree }
    ensures { Tries s.now f busy m at result }
{
    let Some(found) = recording::cut_at(s, at)? else {
        return Ok(None);
    };
    let p = rules::process_of(found.event);
    // By hand: as `map_err` this would be a closure that carries the place.
    if let Err(refusal) = rules::refusal(f, found.event, sets::has(busy, p), m) {
        return Err(Refused { refusal, place: at });
    }
    let passed = match found.event {
        Event::Step(_) => Passed::Step(p, found.next),
        Event::Read(_) => Passed::Start(p, None, found.next),
        Event::Add(_, delta) => Passed::Start(p, Some(delta), found.next),
    };
    Ok(Some(passed))
}

// Who is busy after a step of p, by its step number then.
fn busy_after(busy: u64, p: usize, step: u32) -> u64
    ensures { is_in result ≡ busy_then (eqb step 0) p (is_in busy) }
{
    if step == 0 { sets::cut(busy, p) } else { busy }
}

// The run over the records of a recording whose header has passed. Beside what acceptance hangs on, it keeps what its keeper does.
// Inlined, its arrays would be made room for before the header is looked at.
#[inline(never)]
pub fn run<K: Keeper>(s: &[u8], f: Form, kept: &mut K) -> Result<Accepted, Refused>
    requires { Known f × (first_record ≤ length s.now) × (length s.now ≤ longest_recording) × (K.asked ≡ true → RoomFor s.now f.height (K.lent kept.old) × (64 ≤ (K.lent kept.old).processes)) }
    ensures ends { Ends K.asked (formed f) (length s.now) (K.kept kept.new).rows result (run_of (formed f) (initial (formed f)) (records_of s.now)) }
    ensures same { K.same kept.old kept.new }
{
    let mut memory = Memory::new();
    let idle = Process::idle();
    let mut procs = [idle; 64];
    let mut busy = sets::empty();
    let mut m: u32 = 0;
    let mut at = FIRST_RECORD;
    kept.begin();
    while let Some(passed) = try_at(s, f, busy, m, at)? {
        match passed {
            Passed::Start(p, delta, next) => {
                let adds = delta.is_some();
                procs[p] = Process::started(m as u16, adds, delta.unwrap_or(0));
                busy = sets::put(busy, p);
                kept.start(m, p, adds, busy);
                m = m + 1;
                at = next;
            }
            Passed::Step(p, next) => {
                let r = procs[p];
                let after = r.next(f, p, &mut memory);
                kept.step(f, p, r, after);
                procs[p] = after;
                busy = busy_after(busy, p, after.step);
                at = next;
            }
        }
    }
    kept.close(m);
    Ok(Accepted {
        operations: m,
        counter: memory.values[1],
    })
}

// A recording alone: its header, then its records. A recording of six bytes has none, and nothing is set up for it.
pub fn alone<K: Keeper>(s: &[u8], kept: &mut K) -> Result<Accepted, Refused>
    requires { K.asked ≡ true → RoomForAny (K.lent kept.old) }
    ensures ends { Ends K.asked (form_of s.now) (length s.now) (K.kept kept.new).rows result (outcome s.now) }
    ensures same { K.same kept.old kept.new }
{
    rules::header(s)?;
    if s.len() == FIRST_RECORD {
        return Ok(Accepted {
            operations: 0,
            counter: 0,
        });
    }
    run(s, rules::form_of(s), kept)
}

// How a recording ends alone, where no report is asked for.
pub fn ends(s: &[u8]) -> Result<Accepted, Refused>
    ensures { EndsAlone s.now result }
{
    alone(s, &mut Nothing)
}
