// A set of processes 0 to 63, kept as the ones of a u64.
#![tactic(auto)]

ghost use Rattle.std.specs.Prelude.{◌≡◌};
ghost use Rattle.sets.specs.Processes.{nobody, with, without, count_below, is_in};

pub fn empty() -> u64
    ensures { is_in result ≡ nobody }
{
    0u64
}

pub fn has(set: u64, p: usize) -> bool
    ensures { result ≡ is_in set p }
{
    p < 64 && (set >> p) & 1 == 1
}

// A number that names no process changes nothing.
pub fn put(set: u64, p: usize) -> u64
    ensures { is_in result ≡ with p (is_in set) }
{
    if p < 64 { set | 1 << p } else { set }
}

pub fn cut(set: u64, p: usize) -> u64
    ensures { is_in result ≡ without p (is_in set) }
{
    if p < 64 { set & !(1 << p) } else { set }
}

pub fn count(set: u64) -> u32
    ensures { result ≡ count_below 64 (is_in set) }
{
    set.count_ones()
}
