// A process's record, and its next step on the nodes' values and link sets.
#![tactic(auto)]

ghost use Rattle.std.specs.Prelude.{◌≡◌, ℕ, ◌+◌, ◌<◌, ◌≤◌, true};
ghost use Rattle.recording.specs.declared.Form.{Form as Told};
ghost use Rattle.cell.specs.Cell.{state_of};
ghost use Rattle.meaning.specs.Tree.{child};
ghost use Rattle.meaning.specs.Shape.{highest_shape, formed};
ghost use Rattle.meaning.specs.Steps.{cell_at, with_cell, with_value};
ghost use Rattle.meaning.specs.Run.{initial};
ghost use Rattle.climb.specs.Climb.{Known};
ghost use Rattle.climb.specs.declared.Spot.{Spot as At};
ghost use Rattle.machine.specs.Arrays.{memory_of, seen_by, idle_record, started_record};
ghost use Rattle.machine.specs.Nexts.{highest_step, CanStep, Nexts};
ghost use Rattle.machine.specs.Tries.{There, Stores, leads, copied};

use cell::Cell;
use climb::{Group, Spot, group_at, groups, leaf_of, node_of, spot_of};
use recording::Form;

// The last step of an addition in the highest tree.
const HIGHEST_STEP: u32 = 50;

// The values of all nodes, in one array, so that a child's is read at one place whether it is a leaf or not; and the inner nodes' link sets.
#[derive(Clone, Copy)]
pub struct Memory {
    pub values: [u32; 128],
    pub links: [u64; 64],
}

// That x is an inner node stands in the clauses here and of `Process`: `next` computes it, and a type of its own would be no plainer.
impl Memory {
    // What every run begins with.
    pub fn new() -> Memory
        ensures { (f : Told) → f.shape ≤ highest_shape → memory_of result ≡ (initial (formed f)).memory }
    {
        Memory {
            values: [0; 128],
            links: [0; 64],
        }
    }

    fn put_value(&mut self, x: usize, v: u32)
        requires { x < 128 }
        ensures { memory_of self.new ≡ with_value (memory_of self.old) x v }
    {
        arrays::sized(&self.values);
        self.values[x] = v;
    }

    fn cell(&self, x: usize) -> Cell
        requires { x < 64 }
        ensures { state_of result ≡ cell_at (memory_of self.now) x }
    {
        Cell {
            value: self.values[x],
            links: self.links[x],
        }
    }

    fn put_cell(&mut self, x: usize, c: Cell)
        requires { x < 64 }
        ensures { memory_of self.new ≡ with_cell (memory_of self.old) x (state_of c) }
    {
        arrays::sized(&self.values);
        arrays::sized(&self.links);
        self.values[x] = c.value;
        self.links[x] = c.links;
    }
}

// What has been seen of a node's two children.
#[derive(Clone, Copy)]
pub struct Children {
    pub left: u32,
    pub right: u32,
}

impl Children {
    // A read of one of the children of the node x, or of both.
    fn read_group(self, x: usize, g: Group, memory: &Memory) -> Children
        requires x_bound { x < 64 }
        requires le_count { 1 ≤ g.count }
        requires count_bound { g.from + g.count ≤ 2 }
        ensures { seen_by result ≡ copied g.from g.count (λ (c : ℕ). (memory_of memory.now).value (child x c)) (seen_by self) }
    {
        // Both are loaded and one or both kept: which of them is hard to foresee, and a jump costs more than a load.
        let near = memory.values[2 * x];
        let far = memory.values[2 * x + 1];
        let left = if g.from == 0 { near } else { self.left };
        let right = if g.from + g.count == 2 {
            far
        } else {
            self.right
        };
        Children { left, right }
    }
}

// A step number of 0 is idle. It stays a number: `next` is a match over step numbers, a form that docs/ARCHITECTURE.md lists.
// `stored` tells whether the latest access was an SC that succeeded.
// `adds` stays beside `delta`: `started` and `next` answer for a read with any delta, which an Option excludes.
#[derive(Clone, Copy)]
pub struct Process {
    pub step: u32,
    pub delta: u32,
    pub seen: u32,
    pub children: Children,
    pub operation: u16,
    pub adds: bool,
    pub stored: bool,
}

// The step number after the SC of step s: "If SC failed and this was the first attempt at this node, one more attempt. Otherwise go up."
fn after(f: Form, spot: Spot, s: u32, ok: bool) -> u32
    requires shape_le_highest_shape { f.shape ≤ highest_shape }
    requires s_le_highest_step { s ≤ highest_step }
    requires level_lt_height { spot.level < f.height }
    ensures { (p x : ℕ) → There f p s x spot → Stores f x spot → result ≡ leads f p s x spot ok }
{
    let next = if spot.second {
        s + 1
    } else {
        s + groups(f) + 3
    };
    let up = if spot.level + 1 == f.height { 0 } else { next };
    let failed = if spot.second { up } else { s + 1 };
    if ok { up } else { failed }
}

impl Process {
    pub fn idle() -> Process
        ensures { result ≡ idle_record }
    {
        Process {
            step: 0,
            delta: 0,
            seen: 0,
            children: Children { left: 0, right: 0 },
            operation: 0,
            adds: false,
            stored: false,
        }
    }

    // The record right after a start record.
    pub fn started(operation: u16, adds: bool, delta: u32) -> Process
        ensures { result ≡ started_record operation adds delta }
    {
        Process {
            step: 1,
            operation,
            adds,
            delta,
            ..Process::idle()
        }
    }

    // Step 1: an addition reads its leaf; a read reads the root, and ends.
    fn read(self, f: Form, p: usize, memory: &Memory) -> Process
        requires can_step { CanStep f p self }
        requires step_value { self.step ≡ 1 }
        ensures { Nexts f p self memory.now memory.now result }
    {
        let mut next = self;
        next.stored = false;
        if self.adds {
            next.seen = memory.values[leaf_of(f.height, p)];
            next.step = 2;
        } else {
            next.seen = memory.values[1];
            next.step = 0;
        }
        next
    }

    // The LL of an attempt at the node x.
    fn link(self, p: usize, x: usize, memory: &mut Memory) -> Process
        requires x_bound { x < 64 }
        requires step_le_highest_step { self.step ≤ highest_step }
        ensures { (f : Told) (σ : At) → self.adds ≡ true → There f p self.step x σ → σ.position ≡ 0 → Nexts f p self memory.old memory.new result }
    {
        let mut next = self;
        let mut cell = memory.cell(x);
        cell.ll(p);
        memory.put_cell(x, cell);
        next.step = self.step + 1;
        next.stored = false;
        next
    }

    // The SC of an attempt at the node x.
    fn store(self, f: Form, spot: Spot, p: usize, x: usize, memory: &mut Memory) -> Process
        requires known { Known f }
        requires adds_value { self.adds ≡ true }
        requires there { There f p self.step x spot }
        requires stores { Stores f x spot }
        requires x_bound { x < 64 }
        requires step_le_highest_step { self.step ≤ highest_step }
        ensures { Nexts f p self memory.old memory.new result }
    {
        let mut next = self;
        let sum = self.children.left.wrapping_add(self.children.right);
        let mut cell = memory.cell(x);
        let ok = cell.sc(p, sum);
        memory.put_cell(x, cell);
        next.step = after(f, spot, self.step, ok);
        next.stored = ok;
        next
    }

    // One access, decided by the step number. Two loops call it, a check's and a report's: as a call it would slow both.
    #[inline(always)]
    pub fn next(self, f: Form, p: usize, memory: &mut Memory) -> Process
        requires { CanStep f p self }
        ensures { Nexts f p self memory.old memory.new result }
    {
        let mut next = self;
        next.stored = false;
        let s = self.step;
        // A match over step numbers with a range: a form that docs/ARCHITECTURE.md lists.
        match s {
            1 => self.read(f, p, memory),
            2 => {
                let sum = self.seen.wrapping_add(self.delta);
                memory.put_value(leaf_of(f.height, p), sum);
                next.step = 3;
                next
            }
            3..=HIGHEST_STEP => {
                let spot = spot_of(f, s);
                let x = node_of(f.height, p, spot.level);
                let i = spot.position;
                if i == 0 {
                    return self.link(p, x, memory);
                }
                if i <= groups(f) {
                    next.children = self.children.read_group(x, group_at(f, i - 1), memory);
                    next.step = s + 1;
                    return next;
                }
                self.store(f, spot, p, x, memory)
            }
            _ => next,
        }
    }
}
