// What the replay keeps beside the memory; what a step takes in, and whom it places in the list: a read at its one step, additions at the store
// at node 1 that took them in.
#![tactic(auto)]

ghost use Rattle.std.specs.Prelude.{◌+◌, ◌^◌, ◌<◌, ◌≡◌, length};
ghost use Rattle.meaning.specs.Shape.{formed};
ghost use Rattle.machine.specs.Arrays.{process_of};
ghost use Rattle.placing.specs.Placing.{kept_of, Same, CanPlace, addition_placed, read_placed};

use arrays::Row;
use counts::Counts;
use listing::{Listed, Waiter};
use machine::Process;
use recording::Form;

// Before the first record: nobody waits, and none is listed.
pub const NONE_LISTED: Listed = Listed {
    waiting: 0,
    rank: 0,
};

// What the replay keeps beside the memory, in arrays that it is lent (no heap): the counts, the queue of additions that wait to be listed, the rows, and the
// greatest counts of busy processes.
#[derive(Drop)]
pub struct Ledger<'a> {
    pub counts: Counts<'a>,
    pub waiters: &'a mut [Waiter],
    pub listed: Listed,
    pub rows: &'a mut [Row],
    pub greatest: &'a mut [u8],
}

impl Ledger<'_> {
    // A read's rank, at its one step.
    pub fn place_read(&mut self, i: usize)
        requires { (i < length self.old.rows.now) × (self.old.listed.rank + 1 < 2 ^ 32) }
        ensures kept { kept_of self.new ≡ read_placed i (kept_of self.old) }
        ensures waiters { self.new.waiters.now ≡ self.old.waiters.now }
        ensures greatest { self.new.greatest.now ≡ self.old.greatest.now }
        ensures same { Same self.old self.new }
    {
        let rank = self.listed.rank + 1;
        self.rows[i].rank = rank;
        self.listed.rank = rank;
    }

    // The counts and the queue after the step of an addition whose record was r; a store at node 1 lists those that it has taken in.
    pub fn place_addition(&mut self, f: Form, p: usize, r: Process, stored: bool)
        requires { CanPlace f p r stored self.old }
        ensures kept { kept_of self.new ≡ addition_placed (formed f) p (process_of r) stored (kept_of self.old) }
        ensures greatest { self.new.greatest.now ≡ self.old.greatest.now }
        ensures same { Same self.old self.new }
    {
        let s = r.step;
        let turn = self.counts.written[p];
        let spot = climb::spot_of(f, s);
        self.counts.take_in(f, p, s, spot, stored);
        if s == 2 {
            listing::wait(self.waiters, self.listed.waiting, r.operation, p, turn);
            self.listed.waiting += 1;
        } else if stored && spot.level + 1 == f.height {
            let root = self.counts.row_of((f.height - 1) as usize);
            self.listed = listing::list_in(self.waiters, self.rows, self.listed, root);
        }
    }
}
