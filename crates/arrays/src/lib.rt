// The laws by which an array of numbers is a function of its index, and a row as five numbers.
#![tactic(auto)]

ghost use Rattle.std.specs.Prelude.{◌≡◌, length};

// That an array is as long as its type says: through a reference a proof learns it by this contract, and nothing is left of a call at run time.
pub fn sized<T: Copy, const N: usize>(a: &[T; N])
    ensures { length a.now ≡ N }
{}

// A report's row as five numbers. Its first four bytes, process, kind, finished and contention, are one number: `stepped_numbers` and
// `closed_number`, which `rows` promises, are sums of it that may carry.
#[derive(Clone, Copy)]
pub struct Row {
    pub head: u32,
    pub steps: u32,
    pub answer: u32,
    pub rank: u32,
    pub seconds: u32,
}

// What an array of rows begins with.
pub const NO_ROW: Row = Row {
    head: 0,
    steps: 0,
    answer: 0,
    rank: 0,
    seconds: 0,
};
