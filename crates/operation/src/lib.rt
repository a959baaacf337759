// The operation: n, r and value of one choice of operands, shifts and sign.
#![tactic(auto)]

ghost use Rattle.std.specs.Prelude.{◌≡◌, [], ◌∷◌, ◌+◌, ◌<◌, ◌≤◌, min, leb, eqb};
ghost use Rattle.meaning.specs.Basics.{all};
ghost use Rattle.meaning.specs.Limits.{most_limit};
ghost use Rattle.meaning.specs.Operation.{whole, operated};
ghost use Rattle.meaning.specs.Calls.{Operates};
ghost use Rattle.operation.specs.Code.{outcome_of};

use meaning::{LEAST_BITS, MOST_BITS, Made};

// Both shifts are at most the limit, s is 0 or 1, and at least one shift is 0.
fn shifts_fit(limit: u32, l1: u32, l2: u32, s: u32) -> bool
    ensures { result ≡ all (leb l1 limit ∷ leb l2 limit ∷ leb s 1 ∷ eqb (min l1 l2) 0 ∷ []) }
{
    l1 <= limit && l2 <= limit && s <= 1 && l1.min(l2) == 0
}

// n = 2^l1 × u + (-1)^s × 2^l2 × v
fn whole_of(u: u32, v: u32, l1: u32, l2: u32, s: u32) -> i64
    requires { (l1 ≤ most_limit) × (l2 ≤ most_limit) }
    ensures { result ≡ whole u v l1 l2 s }
{
    let a = arith::shifted(u, l1) as i64;
    let b = arith::shifted(v, l2) as i64;
    if s == 0 {
        return a + b;
    }
    a - b
}

// What n comes to: r is all the trailing zeros of |n|, and the value is what is left, if that is below 2^limit.
fn outcome_of(limit: u32, n: i64) -> Option<Made>
    requires { limit ≤ most_limit }
    ensures { result ≡ outcome_of limit n }
{
    let m = arith::magnitude64(n);
    if m == 0 {
        return None;
    }
    let r = m.trailing_zeros();
    let value = m >> r;
    if 1u64 << limit <= value {
        return None;
    }
    Some(Made {
        n,
        r,
        value: value as u32,
    })
}

// The operation under any limit that the product knows.
fn made(limit: u32, u: u32, v: u32, l1: u32, l2: u32, s: u32) -> Option<Made>
    requires { limit ≤ most_limit }
    ensures { result ≡ operated limit u v l1 l2 s }
{
    if !shifts_fit(limit, l1, l2, s) {
        return None;
    }
    let n = whole_of(u, v, l1, l2, s);
    outcome_of(limit, n)
}

// Under the bit limit b.
pub fn operate(b: u32, u: u32, v: u32, l1: u32, l2: u32, s: u32) -> Option<Made>
    ensures { Operates b u v l1 l2 s result }
{
    if !arith::within(b as usize, LEAST_BITS, MOST_BITS) {
        return None;
    }
    let limit = arith::limit(b);
    made(limit, u, v, l1, l2, s)
}
