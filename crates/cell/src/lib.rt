// The LL/SC cell of an inner node: a value and the set of processes that are linked to it.
#![tactic(auto)]

ghost use Rattle.std.specs.Prelude.{◌≡◌};
ghost use Rattle.cell.specs.Cell.{read_of, state_of, initial};
ghost use Rattle.cell.specs.Done.{Links, Stores};

#[derive(Clone, Copy)]
pub struct Cell {
    pub value: u32,
    pub links: u64,
}

impl Cell {
    pub fn new() -> Cell
        ensures { state_of result ≡ initial }
    {
        let links = sets::empty();
        Cell { value: 0, links }
    }

    pub fn read(self) -> u32
        ensures { result ≡ read_of (state_of self) }
    {
        self.value
    }

    pub fn ll(&mut self, p: usize) -> u32
        ensures { Links p self.old result self.new }
    {
        self.links = sets::put(self.links, p);
        self.read()
    }

    pub fn sc(&mut self, p: usize, u: u32) -> bool
        ensures { Stores u p self.old result self.new }
    {
        let ok = sets::has(self.links, p);
        if ok {
            let none = sets::empty();
            *self = Cell {
                value: u,
                links: none,
            };
        }
        ok
    }
}
