// The queue of additions that are in their leaves and not yet in node 1, and their listing.
#![tactic(auto)]

ghost use Rattle.std.specs.Prelude.{◌+◌, ◌*◌, ◌^◌, ◌<◌, ◌≡◌, length};
ghost use Rattle.meaning.specs.Steps.{upd};
ghost use Rattle.taken.specs.CountIn.{is_counted};
ghost use Rattle.arrays.specs.Arrays.{as_fun};
ghost use Rattle.arrays.specs.Numbers.{numbers_of};
ghost use Rattle.listing.specs.Queue.{waiter_of, waiters_of, queue_of, Lists, CanList};

use arrays::Row;

// An addition that waits to be listed: its leaf write, with its turn at its component.
#[derive(Clone, Copy)]
pub struct Waiter {
    pub operation: u16,
    pub component: u16,
    pub turn: u16,
}

// What an array of waiters begins with.
pub const NO_WAITER: Waiter = Waiter {
    operation: 0,
    component: 0,
    turn: 0,
};

// How many wait, and how many are listed.
#[derive(Clone, Copy)]
pub struct Listed {
    pub waiting: usize,
    pub rank: u32,
}

// One more at the end of the queue.
pub fn wait(queue: &mut [Waiter], waiting: usize, operation: u16, component: usize, turn: u16)
    requires { (waiting < length queue.old) × (component < 2 ^ 16) }
    ensures { waiters_of queue.new ≡ upd (waiters_of queue.old) waiting (record { operation = operation; component = component; turn = turn }) }
{
    let component = component as u16;
    queue[waiting] = Waiter {
        operation,
        component,
        turn,
    };
}

// Whether a waiter is in node 1 by these counts.
fn is_counted(w: Waiter, counts: &[u16]) -> bool
    ensures { result ≡ is_counted (as_fun counts.now) (waiter_of w) }
{
    w.turn < counts.get(w.component as usize).copied().unwrap_or(0)
}

// Lists those of the queue that are in node 1 by these counts, in order, and keeps the others.
pub fn list_in(queue: &mut [Waiter], rows: &mut [Row], listed: Listed, counts: [u16; 64]) -> Listed
    requires { CanList queue.old rows.old listed.waiting listed.rank }
    ensures { Lists (queue_of (waiters_of queue.old) listed.waiting) (as_fun counts) listed.rank (numbers_of rows.old) (numbers_of rows.new) (waiters_of queue.new) result }
{
    let waiting = listed.waiting;
    let mut rank = listed.rank;
    let mut kept: usize = 0;
    // By the index, since those kept move to the front of the same queue.
    for j in 0..waiting {
        let w = queue[j];
        if is_counted(w, &counts) {
            rank = rank + 1;
            rows[w.operation as usize].rank = rank;
        } else {
            queue[kept] = w;
            kept = kept + 1;
        }
    }
    Listed {
        waiting: kept,
        rank,
    }
}
