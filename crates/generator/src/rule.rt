// One turn of the generator's rule: a row by step A, two by step B, or the prefixes' rows by step C.
ghost use Rattle.std.specs.Prelude.{◌≡◌, find};
ghost use Rattle.meaning.specs.Graph.{ready};
ghost use Rattle.meaning.specs.Generator.{added};
ghost use Rattle.search.specs.Held.{listed};
ghost use Rattle.search.specs.Marks.{marked};
ghost use Rattle.generator.specs.Growth.{drawn_rows, Grown};
ghost use Rattle.generator.specs.Rule.{Pickable, Picked, Turning};

use crate::draft::Draft;

// A constant and the smallest value that serves it.
#[derive(Clone, Copy)]
pub struct Chosen {
    pub c: u32,
    pub s: u32,
}

// As many trials as there are candidates under any limit.
const ALL_TRIALS: u32 = 65535;

impl Draft<'_> {
    // Step A's constant, the smallest that one operation reaches.
    fn nearest(&self, wanted: &[u32]) -> Option<u32>
        ensures { result ≡ find (marked self.now.map.now) wanted.now }
    {
        wanted
            .iter()
            .copied()
            .find(|c| search::reached(self.map, *c))
    }

    // Step B's constant and value.
    fn pick(&self, wanted: &[u32]) -> Option<Chosen>
        requires { Pickable self.now wanted.now }
        ensures { (before : _) → ready before ≡ listed self.now.set → Picked self.now.limit before wanted.now result }
    {
        for c in wanted {
            let trials = search::serving::choose(
                self.map,
                self.limit,
                &self.set.values,
                self.set.count,
                *c,
                ALL_TRIALS,
            );
            if let Some(s) = trials.value {
                return Some(Chosen { c: *c, s });
            }
        }
        None
    }

    // One turn, for the constants that remain.
    pub fn turn(&mut self, wanted: &[u32])
        requires { Turning self.old wanted.now }
        ensures { Grown self.old (added self.old.limit (drawn_rows self.old) wanted.now) self.new }
    {
        if wanted.is_empty() {
            return;
        }
        if let Some(c) = self.nearest(wanted) {
            self.add_first(c);
            return;
        }
        if let Some(x) = self.pick(wanted) {
            self.add_first(x.s);
            self.add_first(x.c);
            return;
        }
        self.add_prefixes(wanted[0]);
    }
}
