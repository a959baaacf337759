// The smallest value that serves a constant: among the values with which one operation gives it, the smallest that the map of
// what one operation reaches has. Each is looked up as it comes, and the least so far is kept.
ghost use Rattle.std.specs.Prelude.{◌≡◌, false, ◌||◌, ◌∷◌, ◌+◌, ◌-◌, ◌*◌, ◌%◌, ◌^◌, ◌≤◌, ◌<◌, min, eqb, take, All};
ghost use Rattle.meaning.specs.Limits.{most_limit};
ghost use Rattle.meaning.specs.Basics.{any};
ghost use Rattle.meaning.specs.Distance.{is_one_op, does_reach, does_serve, candidates};
ghost use Rattle.search.specs.Sides.{does_hit, is_side_to, is_with, is_twice};
ghost use Rattle.meaning.specs.Operation.{Odd};
ghost use Rattle.search.specs.Marks.{State};
ghost use Rattle.search.specs.Choices.{chosen_in};
ghost use Rattle.search.specs.Least.{Lowers};

use crate::results::Results;

// The smallest value that serves, if one does, and how many candidates were tried.
#[derive(Clone, Copy)]
pub struct Trials {
    pub value: Option<u32>,
    pub tried: u32,
}

// A map that is looked at up to a limit, from some number on. Each method keeps the least of what it finds and the best so far.
#[derive(Clone, Copy)]
struct Reach<'a> {
    map: &'a [u8],
    limit: u32,
    low: u32,
    ghost small: { limit ≤ most_limit },
}

impl<'a> Reach<'a> {
    // m, if it is marked, not below low and below best; otherwise best.
    fn lower(self, m: u64, best: u32) -> u32
        requires { m % 2 ≡ 1 }
        ensures { Lowers self.entry.map.now self.entry.low (λ s. eqb s m) best result }
    {
        if !(u64::from(self.low)..u64::from(best)).contains(&m) {
            return best;
        }
        let s = m as u32;
        if crate::reached(self.map, s) {
            return s;
        }
        best
    }

    // The same for n without its trailing zeros.
    fn look(self, n: u64, best: u32) -> u32
        requires { best ≤ 2 ^ self.limit }
        ensures { Lowers self.entry.map.now self.entry.low (λ s. does_hit self.entry.limit n s) best result }
    {
        if n == 0 {
            return best;
        }
        self.lower(arith::odd_part(n), best)
    }

    // The same for all results of operations on u as it is and v shifted.
    fn look_side(self, u: u32, v: u32, best: u32) -> u32
        requires { Odd self.limit u × Odd self.limit v × (best ≤ 2 ^ self.limit) }
        ensures { Lowers self.entry.map.now self.entry.low (λ s. is_side_to self.entry.limit u v (self.entry.limit + 1) s) best result }
    {
        let mut least = best;
        for (sum, difference) in Results::new(self.limit, u, v) {
            least = self.look(sum, least);
            least = self.look(difference, least);
        }
        least
    }

    // The same for all results of operations on u and v: one of the two shifts is 0. Its twin `pair`
    // marks each result and keeps nothing (docs/DECISIONS.md, 36).
    fn look_pair(self, u: u32, v: u32, best: u32) -> u32
        requires { Odd self.limit u × Odd self.limit v × (best ≤ 2 ^ self.limit) }
        ensures { Lowers self.entry.map.now self.entry.low (λ s. is_one_op self.entry.limit u v s) best result }
    {
        let least = self.look_side(u, v, best);
        self.look_side(v, u, least)
    }

    // The same for all results of operations on c and each ready value. Its twin `with_each` marks them instead.
    fn look_each(self, ready: &[u32], c: u32, best: u32) -> u32
        requires { All (Odd self.limit) ready.now × Odd self.limit c × (best ≤ 2 ^ self.limit) }
        ensures { Lowers self.entry.map.now self.entry.low (λ s. is_with self.entry.limit c ready.now s) best result }
    {
        let mut least = best;
        for u in ready {
            least = self.look_pair(c, *u, least);
        }
        least
    }

    // The same for c / f, if f divides c.
    #[tactic(auto, using(crate::proofs::Least::factor_odd, crate::proofs::Least::factor_one))]
    fn look_factor(self, c: u64, f: u64, best: u32) -> u32
        requires { (c % 2 ≡ 1) × (0 < f) }
        ensures { Lowers self.entry.map.now self.entry.low (λ s. eqb (s * f) c) best result }
    {
        if c % f != 0 {
            return best;
        }
        self.lower(c / f, best)
    }

    // The same for all values from which, taken twice, one operation gives c.
    fn look_twice(self, c: u32, best: u32) -> u32
        requires { c % 2 ≡ 1 }
        ensures { Lowers self.entry.map.now self.entry.low (λ s. is_twice self.entry.limit c s) best result }
    {
        let d = u64::from(c);
        let mut least = best;
        for l in 0..self.limit {
            let p = arith::power(l + 1);
            least = self.look_factor(d, p - 1, least);
            least = self.look_factor(d, p + 1, least);
        }
        least
    }

    // The same for all values with which, added to the ready ones, one operation gives c: the operation is symmetric, so they are
    // what one operation on c and a ready value gives.
    fn least_partner(self, ready: &[u32], c: u32, best: u32) -> u32
        requires { All (Odd self.limit) ready.now × Odd self.limit c × (best ≤ 2 ^ self.limit) }
        ensures { Lowers self.entry.map.now self.entry.low (λ s. is_with self.entry.limit c ready.now s || is_twice self.entry.limit c s) best result }
    {
        let least = self.look_each(ready, c, best);
        self.look_twice(c, least)
    }
}

// As many as there are candidates, and one: all odd numbers from 3 on below 2^limit, or `ceiling` of them.
fn last(limit: u32, ceiling: u32) -> u32
    requires { (1 ≤ limit) × (limit ≤ most_limit) }
    ensures { result ≡ min (2 ^ (limit - 1)) (ceiling + 1) }
{
    let whole = arith::power(limit - 1);
    whole.min(u64::from(ceiling) + 1) as u32
}

// The smallest s that one operation on the ready values reaches and with which one operation gives c, within `ceiling` trials,
// and the trials used. It may be greater than c. As in `add`, the contract speaks of the first n of the lent values.
#[tactic(auto, using(crate::proofs::Serves::some_bits, crate::proofs::Choosing::bound_most, crate::proofs::Choosing::bound_some, crate::proofs::Choosing::choice_at, crate::proofs::Choosing::choice_nothing))]
pub fn choose(map: &[u8], limit: u32, ready: &[u32], n: usize, c: u32, ceiling: u32) -> Trials
    requires { State limit map.now ready.now n × Odd limit c × (does_reach limit (take n ready.now) c ≡ false) }
    ensures { result ≡ chosen_in limit (take n ready.now) c ceiling }
{
    let end = last(limit, ceiling);
    let bound = 2 * end;
    let reach = Reach { map, limit, low: 3 };
    let s = reach.least_partner(&ready[..n], c, bound);
    if s < bound {
        return Trials {
            value: Some(s),
            tried: s / 2,
        };
    }
    Trials {
        value: None,
        tried: end - 1,
    }
}

// Some s that one operation on the ready values reaches is such that with it one operation gives c. A ready list need not
// hold 1, so s may be 1 too. The contract speaks of the first n of the lent values here as well.
#[tactic(auto, using(crate::proofs::Choosing::odds_taken, crate::proofs::Choosing::served_is))]
pub fn served(map: &[u8], limit: u32, ready: &[u32], n: usize, c: u32) -> bool
    requires { State limit map.now ready.now n × Odd limit c × (does_reach limit (take n ready.now) c ≡ false) }
    ensures { result ≡ any (does_serve limit (take n ready.now) c) (1 ∷ candidates limit) }
{
    let bound = arith::power(limit) as u32;
    let reach = Reach { map, limit, low: 1 };
    reach.least_partner(&ready[..n], c, bound) < bound
}
