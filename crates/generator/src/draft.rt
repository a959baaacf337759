// A graph being drawn: each step adds rows to the lent words, to the ready set and to the map of what one operation reaches.
ghost use Rattle.std.specs.Prelude.{◌≡◌, [], ◌∷◌, ◌≤◌, length, option_to_list};
ghost use Rattle.meaning.specs.Digits.{prefixes};
ghost use Rattle.meaning.specs.Generator.{row_of, row_for, rule_c};
ghost use Rattle.meaning.specs.Operation.{Odd};
ghost use Rattle.search.specs.Marks.{State};
ghost use Rattle.generator.specs.Growth.{drawn_rows, Begun, Open, Grown, prefix_rows, Servable};

use meaning::{Choice, Prefix, Row};
use search::ready::Ready;

// The words and the map are lent; the set's values are the input's and, in order, those of the rows at the front of the words.
#[derive(Drop)]
pub struct Draft<'a> {
    pub map: &'a mut [u8],
    pub limit: u32,
    pub set: Ready,
    pub out: &'a mut [u32],
}

// The row of a choice that gives c.
fn row_of(c: u32, x: Choice) -> Row
    ensures { result ≡ row_of c x }
{
    Row {
        u: x.u,
        v: x.v,
        l1: x.l1,
        l2: x.l2,
        s: x.s,
        r: x.r,
        value: c,
    }
}

impl<'a> Draft<'a> {
    // The input alone, by a map of zeros.
    pub fn start(map: &'a mut [u8], limit: u32, out: &'a mut [u32]) -> Draft<'a>
        requires { (1 ≤ limit) × State limit map.old [] 0 }
        ensures map { result.map.ghost_name ≡ map.entry.ghost_name }
        ensures out { result.out.ghost_name ≡ out.entry.ghost_name }
        ensures begun { Begun limit out.old result }
    {
        let set = Ready::start();
        search::add(map, limit, &set.values, 0, 1);
        Draft {
            map,
            limit,
            set,
            out,
        }
    }

    // One row more.
    fn add_row(&mut self, x: Row)
        requires { Open self.old 1 × Odd self.old.limit x.value }
        ensures { Grown self.old (x ∷ []) self.new }
    {
        rows::put_row(self.out, self.set.count - 1, x);
        search::add(
            self.map,
            self.limit,
            &self.set.values,
            self.set.count,
            x.value,
        );
        self.set = self.set.with(x.value);
    }

    // The first row that makes c, where there is one.
    pub fn add_first(&mut self, c: u32)
        requires { Open self.old 1 × Odd self.old.limit c }
        ensures { Grown self.old (option_to_list (row_for self.old.limit (drawn_rows self.old) c)) self.new }
    {
        let ready = &self.set.values[..self.set.count];
        let Some(x) = crate::first_choice::choice_for(self.limit, ready, c) else {
            return;
        };
        self.add_row(row_of(c, x));
    }

    // The row of a prefix that is not yet ready, from the prefix before it.
    fn add_prefix(&mut self, p: Prefix)
        requires { Open self.old (length (prefix_rows (drawn_rows self.old) p)) × Odd self.old.limit p.value }
        ensures { Grown self.old (prefix_rows (drawn_rows self.old) p) self.new }
    {
        if arith::has(&self.set.values, self.set.count, p.value) {
            return;
        }
        self.add_row(Row {
            u: self.set.index_of(p.before),
            v: 0,
            l1: p.gap,
            l2: 0,
            s: p.s,
            r: 0,
            value: p.value,
        });
    }

    // Step C for the constant c: its prefixes, shortest first.
    pub fn add_prefixes(&mut self, c: u32)
        requires { Open self.old (length (rule_c (drawn_rows self.old) (prefixes c))) × Servable self.old.limit c }
        ensures { Grown self.old (rule_c (drawn_rows self.old) (prefixes c)) self.new }
    {
        let prefixes = digits::prefixes_of(c);
        for p in prefixes.iter() {
            self.add_prefix(*p);
        }
    }
}
