// How many of each component's additions are in the node at each level, and in what a process has read but not yet stored. Component q is
// the leaf that process q writes.
#![tactic(auto)]

ghost use Rattle.std.specs.Prelude.{ℕ, suc, ◌+◌, ◌*◌, ◌^◌, ◌≤◌, ◌<◌, max, List, [], ◌≡◌, length, get_or};
ghost use Rattle.meaning.specs.Shape.{formed, highest_shape};
ghost use Rattle.meaning.specs.Steps.{upd};
ghost use Rattle.spots.specs.Got.{groups_at};
ghost use Rattle.arrays.specs.Arrays.{as_fun, as_rows, between};
ghost use Rattle.climb.specs.Climb.{spot_is};
ghost use Rattle.counts.specs.Counts.{counts_of, SameRead, first_under, read_over, stored_over, attempted, counts_after, CanCount};

use climb::Spot;
use recording::Form;

// The counts in the six levels of nodes above the leaves, in the leaves, and in what each reader has read, which is lent.
#[derive(Drop)]
pub struct Counts<'a> {
    pub in_nodes: [[u16; 64]; 6],
    pub written: [u16; 64],
    pub read: &'a mut [[u16; 64]],
}

impl Counts<'_> {
    // The row of counts at a level above the leaves.
    pub fn row_of(&self, level: usize) -> [u16; 64]
        requires { level < 6 }
        ensures { result ≡ get_or self.now.in_nodes level [] }
    {
        self.in_nodes[level]
    }

    // `attempt` computes lo and hi; their bounds stand in three private clauses, of which a type would take nothing away.
    // The read of children at level l by process p, for the components lo to hi - 1.
    fn read_child(&mut self, p: usize, l: usize, lo: usize, hi: usize)
        requires p_bound { (p < 64) × (p < length self.old.read.now) }
        requires l_bound { l ≤ 6 }
        requires lo_bound { lo ≤ hi }
        requires hi_bound { hi ≤ 64 }
        ensures counts { counts_of self.new ≡ read_over p l lo hi (counts_of self.old) }
        ensures same { SameRead self.old self.new }
    {
        let Counts {
            in_nodes,
            written,
            read,
        } = self;
        if l == 0 {
            read_row(read, p, lo, hi, written);
        } else {
            // Of an element lent straight from the `&mut` array a proof knows nothing.
            let nodes: &[[u16; 64]; 6] = in_nodes;
            read_row(read, p, lo, hi, &nodes[l - 1]);
        }
    }

    // The counts after the access at a spot of process p's climb: its LL takes nothing in, the groups' reads follow, the SC is the last.
    fn attempt(&mut self, f: Form, p: usize, spot: Spot, stored: bool)
        requires p_bound { (p < 64) × (p < length self.old.read.now) }
        requires shape_le_highest_shape { (f.shape ≤ highest_shape) × (spot.level < 6) }
        ensures counts { counts_of self.new ≡ attempted (groups_at (formed f) p (spot_is spot)) p (spot_is spot) stored (counts_of self.old) }
        ensures same { SameRead self.old self.new }
    {
        let i = spot.position;
        if i == 0 {
            return;
        }
        let l = spot.level as usize;
        let lo = first_under(l + 1, p);
        if i <= climb::groups(f) {
            let g = climb::group_at(f, i - 1);
            let from = lo + leaves_under(g.from, l);
            let to = lo + leaves_under(g.from + g.count, l);
            self.read_child(p, l, from, to);
            return;
        }
        if stored {
            let hi = lo + leaves_under(2, l);
            // Of the field itself, lent as a `&`, a proof would know nothing afterwards.
            let read = &mut *self.read;
            self.in_nodes = store(self.in_nodes, read, p, l, lo, hi);
        }
    }

    // The counts after the step s of an addition of process p, at that spot of its climb.
    pub fn take_in(&mut self, f: Form, p: usize, s: u32, spot: Spot, stored: bool)
        requires { CanCount f p spot self.old }
        ensures counts { counts_of self.new ≡ counts_after (formed f) p s (spot_is spot) stored (counts_of self.old) }
        ensures same { SameRead self.old self.new }
    {
        match s {
            0 | 1 => {}
            2 => self.written[p] += 1,
            _ => self.attempt(f, p, spot, stored),
        }
    }
}

// What process p has read is, for the components lo to hi - 1, this row.
fn read_row(read: &mut [[u16; 64]], p: usize, lo: usize, hi: usize, row: &[u16; 64])
    requires p_bound { p < length read.old }
    requires lo_bound { lo ≤ hi }
    requires hi_bound { hi ≤ 64 }
    ensures read { as_rows read.new ≡ upd (as_rows read.old) p (between lo hi (as_fun row.now) (as_rows read.old p)) }
    ensures same { length read.new ≡ length read.old }
{
    let row = &row[lo..hi];
    // No `copy_from_slice`: it is `memmove`, which the library would then need of the program that links it.
    for (i, x) in read[p][lo..hi].iter_mut().enumerate() {
        *x = row[i];
    }
}

// The successful SC of process p at a node at level l + 1, for the components lo to hi - 1: the six arrays by value, in and out,
// a form that docs/ARCHITECTURE.md lists.
fn store(
    counts: [[u16; 64]; 6],
    read: &[[u16; 64]],
    p: usize,
    l: usize,
    lo: usize,
    hi: usize,
) -> [[u16; 64]; 6]
    requires p_bound { (p < 64) × (p < length read.now) }
    requires l_bound { l < 6 }
    requires lo_bound { lo ≤ hi }
    requires hi_bound { hi ≤ 64 }
    ensures { as_rows result ≡ upd (as_rows counts) l (between lo hi (λ q. max (as_rows counts l q) (as_rows read.now p q)) (as_rows counts l)) }
{
    let mut after = counts;
    let row = &read[p][lo..hi];
    // With a `zip` of the two, a proof knows nothing of what is written.
    for (i, x) in after[l][lo..hi].iter_mut().enumerate() {
        *x = (*x).max(row[i]);
    }
    after
}

// How many leaves lie under n nodes at level l.
fn leaves_under(n: usize, l: usize) -> usize
    requires n_bound { n ≤ 2 }
    requires l_bound { l < 6 }
    ensures { result ≡ n * 2 ^ l }
{
    n << l
}

// The first component whose leaf lies under the node l levels above that of p.
fn first_under(l: usize, p: usize) -> usize
    requires l_bound { l ≤ 6 }
    requires p_bound { p < 64 }
    ensures { (result ≡ first_under l p) × (result + 2 ^ l ≤ 64) }
{
    (p >> l) << l
}
