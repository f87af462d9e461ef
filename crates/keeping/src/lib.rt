// What a run keeps beside the memory: for a report a ledger of the counts, the queue of additions that wait to be listed, the ranks and the rows;
// for a check nothing.
#![tactic(auto)]

ghost use Rattle.std.specs.Prelude.{ℕ, ◌≤◌, ◌<◌, ◌≡◌, Bool, true, false, ⊤, refl, length, List, []};
ghost use Rattle.std.proofs.Common.{◌∙◌};
ghost use Rattle.sets.specs.Processes.{count_below, is_in};
ghost use Rattle.meaning.specs.Shape.{formed, highest_shape};
ghost use Rattle.meaning.specs.Run.{kind_of, most_operations};
ghost use Rattle.spots.specs.Spot.{spot_of, last_step};
ghost use Rattle.arrays.specs.Arrays.{as_fun};
ghost use Rattle.arrays.specs.Numbers.{numbers_of};
ghost use Rattle.machine.specs.Arrays.{process_of};
ghost use Rattle.listing.specs.declared.Waiter.{Waiter};
ghost use Rattle.rows.specs.Rows.{RoomToClose, closed};
ghost use Rattle.contention.specs.Greatest.{raised};
ghost use Rattle.ledger.specs.Kept.{Kept, kept_start, kept_step, second_link};
ghost use Rattle.placing.specs.Placing.{kept_of, Same};
ghost use Rattle.keeping.specs.Keeping.{Lent, lent_to, nothing, Begun, CanStart, CanKeep, same_itself, same_through, same_lent};

use arrays::Row;
use machine::Process;
use placing::{Ledger, NONE_LISTED};
use recording::Form;

// What a run tells of each record that it takes, and of its end, to whoever keeps what a report asks for.
pub trait Keeper {
    // Whether a report is asked for.
    ghost asked: { Bool };

    // How much room the arrays that it is lent have.
    ghost lent: { Self → Lent };

    ghost kept: { Self → Kept };

    // The whole array of waiters, with what stands behind those that wait.
    ghost waiters: { Self → List Waiter };

    // By process: the greatest count of busy processes since its start.
    ghost greatest: { Self → ℕ → ℕ };

    // Whether the arrays that two of them are lent are the same ones, and as long.
    ghost same: { Self → Self → Type 0 };

    // Before the first record: nothing is counted, nobody waits, none is listed.
    fn begin(&mut self)
        ensures begun { asked ≡ true → Begun (kept self.new) }
        ensures others { asked ≡ true → ((kept self.new).rows ≡ (kept self.old).rows) × ((kept self.new).counts.read ≡ (kept self.old).counts.read) × (greatest self.new ≡ greatest self.old) × (waiters self.new ≡ waiters self.old) }
        ensures same { same self.old self.new };

    // The start of operation m by process p, with those who are busy then.
    fn start(&mut self, m: u32, p: usize, adds: bool, busy: u64)
        requires { CanStart asked m p (lent self.old) }
        ensures kept { asked ≡ true → kept self.new ≡ kept_start m p (kind_of adds) (kept self.old) }
        ensures greatest { asked ≡ true → greatest self.new ≡ raised p (count_below 64 (is_in busy)) (greatest self.old) }
        ensures waiters { asked ≡ true → waiters self.new ≡ waiters self.old }
        ensures same { same self.old self.new };

    // One step of process p, whose record was r and is next. A last step puts p's greatest count into the row.
    fn step(&mut self, f: Form, p: usize, r: Process, next: Process)
        requires { asked ≡ true → CanKeep f p r next.stored (lent self.old) (kept self.old) }
        ensures kept { asked ≡ true → kept self.new ≡ kept_step (formed f) p (process_of r) (process_of next) next.stored (greatest self.old p) (kept self.old) }
        ensures greatest { asked ≡ true → greatest self.new ≡ greatest self.old }
        ensures same { same self.old self.new };

    // The end, after the start of m operations: the rows of those that are unfinished.
    fn close(&mut self, m: u32)
        requires { asked ≡ true → (m ≤ most_operations) × (m ≤ (lent self.old).rows) × RoomToClose (kept self.old).rows m (lent self.old).processes }
        ensures rows { asked ≡ true → (kept self.new).rows ≡ closed (greatest self.old) m (kept self.old).rows }
        ensures others { asked ≡ true → ((kept self.new).counts ≡ (kept self.old).counts) × ((kept self.new).queue ≡ (kept self.old).queue) × ((kept self.new).listed ≡ (kept self.old).listed) × (greatest self.new ≡ greatest self.old) × (waiters self.new ≡ waiters self.old) }
        ensures same { same self.old self.new };

    ghost itself: { (x : Self) → same x x };

    ghost through: { (x y z : Self) → same x y → same y z → same x z };

    ghost lends: { (x y : Self) → same x y → lent y ≡ lent x };
}

// A check keeps nothing.
#[derive(Drop)]
pub struct Nothing;

impl Keeper for Nothing {
    ghost asked = { false };

    ghost lent = { λ x. record { readers = 0; waiters = 0; rows = 0; processes = 0 } };

    ghost kept = { λ x. nothing };

    ghost waiters = { λ x. [] };

    ghost greatest = { λ x p. 0 };

    ghost same = { λ x y. ⊤ };

    ghost itself = { λ x. tt };

    ghost through = { λ x y z a b. tt };

    ghost lends = { λ x y a. refl };

    fn begin(&mut self) {}

    fn start(&mut self, m: u32, p: usize, adds: bool, busy: u64) {}

    fn step(&mut self, f: Form, p: usize, r: Process, next: Process) {}

    fn close(&mut self, m: u32) {}
}

// Whether the step s of an addition is the LL of a second attempt.
fn second_link(f: Form, s: u32) -> bool
    requires { f.shape ≤ highest_shape }
    ensures { (p : ℕ) (adds : Bool) → 1 ≤ f.height → s ≤ last_step (formed f) p adds → result ≡ second_link (spot_of (formed f) p s) }
{
    let spot = climb::spot_of(f, s);
    spot.second && spot.position == 0
}

// The rows of the operations that are unfinished at the end. Both by `&mut`: a field lent as `&mut` has no rule for another lent as `&` beside it.
fn close_rows(rows: &mut [Row], m: u32, greatest: &mut [u8])
    requires { (m ≤ length rows.old) × RoomToClose (numbers_of rows.old) m (length greatest.old) }
    ensures rows { numbers_of rows.new ≡ closed (as_fun greatest.old) m (numbers_of rows.old) }
    ensures greatest { greatest.new ≡ greatest.old }
{
    rows::close(&mut rows[..m as usize], greatest);
}

impl Keeper for Ledger<'_> {
    ghost asked = { true };

    ghost lent = { lent_to };

    ghost kept = { kept_of };

    ghost waiters = { λ l. l.waiters.now };

    ghost greatest = { λ l. as_fun l.greatest.now };

    ghost same = { Same };

    ghost itself = { same_itself };

    ghost through = { same_through };

    ghost lends = { same_lent };

    fn begin(&mut self) {
        self.counts.in_nodes = [[0; 64]; 6];
        self.counts.written = [0; 64];
        self.listed = NONE_LISTED;
    }

    fn start(&mut self, m: u32, p: usize, adds: bool, busy: u64) {
        // the byte that its row has
        let kind: u8 = if adds { 3 } else { 2 };
        rows::start_row(self.rows, m as usize, p as u8, kind);
        contention::raise(self.greatest, p, sets::count(busy) as u8);
    }

    fn step(&mut self, f: Form, p: usize, r: Process, next: Process) {
        let i = r.operation as usize;
        let done = next.step == 0;
        let most = self.greatest[p];
        if r.adds {
            self.place_addition(f, p, r, next.stored);
            rows::step_row(self.rows, i, done, most, 0, second_link(f, r.step));
        } else {
            self.place_read(i);
            rows::step_row(self.rows, i, done, most, next.seen, false);
        }
    }

    fn close(&mut self, m: u32) {
        close_rows(self.rows, m, self.greatest);
    }
}
