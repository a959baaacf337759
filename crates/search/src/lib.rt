// What one operation reaches, kept as a map of bytes, one for each odd number.
#![tactic(auto)]

pub mod ready;
mod results;
pub mod serving;

use crate::results::Results;

// The bytes of both maps, and up to which limit the short one serves: 2^13 is 2 × 4096.
pub const SHORT_MAP: usize = 4096;

pub const LONG_MAP: usize = 65536;

const SHORT_LIMIT: u32 = 13;

ghost use Rattle.std.specs.Prelude.{◌≡◌, [], ◌∷◌, ◌++◌, ◌+◌, leb, length, take, All};
ghost use Rattle.meaning.specs.Distance.{is_one_op, does_reach};
ghost use Rattle.search.specs.Sides.{does_hit, is_side_to, is_with};
ghost use Rattle.meaning.specs.Operation.{Odd};
ghost use Rattle.search.specs.Marks.{Holds, Adds, marked, short_limit, Wide, State};

// Here the map and its limit stay two parameters: a struct that lends the map on would promise in each method, besides what is
// marked, that it holds the same reference and the same limit. `serving`, which only reads, has them as one value.

// n without its trailing zeros is marked, if that is below 2^limit.
fn mark(map: &mut [u8], limit: u32, n: u64)
    requires { Wide limit map.old }
    ensures { Adds map.old map.new (λ c. does_hit limit n c) }
{
    if n == 0 {
        return;
    }
    let m = arith::odd_part(n);
    if m < arith::power(limit) {
        let at = (m / 2) as usize;
        map[at] = 1;
    }
}

// All results of operations on u as it is and v shifted are marked.
fn side(map: &mut [u8], limit: u32, u: u32, v: u32)
    requires { Wide limit map.old × Odd limit u × Odd limit v }
    ensures { Adds map.old map.new (λ c. is_side_to limit u v (limit + 1) c) }
{
    for (sum, difference) in Results::new(limit, u, v) {
        mark(map, limit, sum);
        mark(map, limit, difference);
    }
}

// All results of operations on u and v are marked: one of the two shifts is 0. The twin `look_pair` goes over the same results, but
// looks each up and keeps the least (docs/DECISIONS.md, 36).
fn pair(map: &mut [u8], limit: u32, u: u32, v: u32)
    requires { Wide limit map.old × Odd limit u × Odd limit v }
    ensures { Adds map.old map.new (λ c. is_one_op limit u v c) }
{
    side(map, limit, u, v);
    side(map, limit, v, u);
}

// All results of operations on v and each ready value are marked. The twin `look_each` keeps the least of them instead.
fn with_each(map: &mut [u8], limit: u32, ready: &[u32], v: u32)
    requires { Wide limit map.old × All (Odd limit) ready.now × Odd limit v }
    ensures { Adds map.old map.new (λ c. is_with limit v ready.now c) }
{
    for u in ready {
        pair(map, limit, v, *u);
    }
}

// The map of what one operation on the first n ready values reaches becomes that with one value more. n stands beside the slice,
// since the contract (docs/CONTRACTS.md) speaks of the first n of what is lent.
pub fn add(map: &mut [u8], limit: u32, ready: &[u32], n: usize, v: u32)
    requires { State limit map.old ready.now n × Odd limit v }
    ensures map_len_unchanged { length map.new ≡ length map.old }
    ensures holds { Holds map.new (λ c. does_reach limit (take n ready.now ++ (v ∷ [])) c) }
{
    with_each(map, limit, &ready[..n], v);
    side(map, limit, v, v);
}

// The odd number c is marked.
#[tactic(auto, unfolding(crate::specs::Marks::marked))]
pub fn reached(map: &[u8], c: u32) -> bool
    ensures { result ≡ marked map.now c }
{
    let at = (c / 2) as usize;
    map.get(at) == Some(&1)
}

// A short map has a byte for each odd number below 2^limit. Clearing the long one, which always has, takes longer than drawing a
// small list.
pub fn short_serves(limit: u32) -> bool
    ensures { result ≡ leb limit short_limit }
{
    limit <= SHORT_LIMIT
}
