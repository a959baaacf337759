// The ready set by value: the values that a graph's indices have, in order, the input's 1 first.
ghost use Rattle.std.specs.Prelude.{◌≡◌};
ghost use Rattle.meaning.specs.Basics.{index_from};
ghost use Rattle.search.specs.Held.{listed, Started, Added};

use meaning::MOST_READY;

// As many values as a full graph has indices; the places from `count` on hold no value of the set. By value, an array with a
// count: the form that the project names for a set (docs/DECISIONS.md, 56).
#[derive(Clone, Copy)]
pub struct Ready {
    pub values: [u32; MOST_READY],
    pub count: usize,
}

impl Ready {
    // Only the input's value.
    pub fn start() -> Ready
        ensures { Started result }
    {
        let mut values = [0u32; MOST_READY];
        values[0] = 1;
        Ready { values, count: 1 }
    }

    // One value more, at the end; a full set comes back unchanged.
    #[tactic(auto, using(crate::proofs::ReadyLaws::added_full))]
    pub fn with(mut self, v: u32) -> Ready
        ensures { Added self v result }
    {
        let at = self.count;
        if MOST_READY <= at {
            return self;
        }
        self.values[at] = v;
        self.count = at + 1;
        self
    }

    // The lowest index of v, 0 where none has it.
    pub fn index_of(self, v: u32) -> u32
        ensures { result ≡ index_from 0 (listed self) v }
    {
        arith::index_from(0, &self.values, self.count, v) as u32
    }
}
