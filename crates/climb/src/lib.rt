// The numbers of a climb: a process's leaf, the node of a spot, and what an attempt reads.
#![tactic(auto)]

ghost use Rattle.std.specs.Prelude.{ℕ, ◌^◌, ◌≤◌, ◌<◌, ◌≡◌, Bool};
ghost use Rattle.meaning.specs.Shape.{highest_shape, formed};
ghost use Rattle.spots.specs.Spot.{last_step};
ghost use Rattle.climb.specs.Climb.{CanClimb, LeafOf, NodeOf, GroupsOf, GroupOf, SpotAt, nowhere};

use recording::Form;

// Where in its climb an addition is: how many levels above the first node, the place in the attempt, and which attempt.
#[derive(Clone, Copy)]
pub struct Spot {
    pub level: u32,
    pub position: u32,
    pub second: bool,
}

// Some children of a node that one access reads: from that number on, so many.
#[derive(Clone, Copy)]
pub struct Group {
    pub from: usize,
    pub count: usize,
}

// Where a climb begins.
pub fn start() -> Spot
    ensures { result ≡ nowhere }
{
    Spot {
        level: 0,
        position: 0,
        second: false,
    }
}

pub fn leaf_of(h: u32, p: usize) -> usize
    requires h_bound { h ≤ 6 }
    requires p_bound { p < 2 ^ h }
    ensures { LeafOf h p result }
{
    (1usize << h) + p
}

// The node so many levels above the first one that process p climbs.
pub fn node_of(h: u32, p: usize, level: u32) -> usize
    requires { CanClimb h p level }
    ensures { NodeOf h p level result }
{
    leaf_of(h, p) >> (level + 1)
}

// How many groups of children an attempt reads. A new shape answers here, in `group_at` and in `spot_of`. That the shape is taken stands in clauses: a
// type that says it would ask more of those who have a `Form`.
pub fn groups(f: Form) -> u32
    requires { f.shape ≤ highest_shape }
    ensures { GroupsOf f result }
{
    2
}

// The group that an attempt reads as its access i, from 0.
pub fn group_at(f: Form, i: u32) -> Group
    requires shape_le_highest_shape { f.shape ≤ highest_shape }
    requires i_bound { i < 2 }
    ensures { GroupOf f i result }
{
    Group {
        from: i as usize,
        count: 1,
    }
}

// The one decoder of step numbers: where in its climb an addition is at step s. Before the climb it is where the climb begins.
pub fn spot_of(f: Form, s: u32) -> Spot
    requires { f.shape ≤ highest_shape }
    ensures { (p : ℕ) (adds : Bool) → 1 ≤ f.height → s ≤ last_step (formed f) p adds → SpotAt f p s result }
{
    if s < 3 {
        return start();
    }
    let n = s - 3;
    Spot {
        level: n / 8,
        position: n % 4,
        second: n % 8 >= 4,
    }
}
