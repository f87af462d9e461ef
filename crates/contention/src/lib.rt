// The contention of the operations under way: for each process the greatest count of busy processes since its start.
#![tactic(auto)]

ghost use Rattle.std.specs.Prelude.{◌≤◌, ◌<◌, max, ◌≡◌, length};
ghost use Rattle.arrays.specs.Arrays.{as_fun};
ghost use Rattle.contention.specs.Greatest.{raised};

// A start of process p, after which count processes are busy. All 64 are raised, busy or not: an idle one's is set anew at its start.
pub fn raise(greatest: &mut [u8], p: usize, count: u8)
    requires { (p < 64) × (64 ≤ length greatest.old) }
    ensures { as_fun greatest.new ≡ raised p count (as_fun greatest.old) }
{
    for g in greatest[..64].iter_mut() {
        *g = (*g).max(count);
    }
    greatest[p] = count;
}
