// A row's product from its operands' values and products, as its words say, in 64 bits.
ghost use Rattle.std.specs.Prelude.{◌≡◌, ◌*◌, ◌^◌, ◌≤◌, pos, nat_abs, ◌*ℤ◌};
ghost use Rattle.std.specs.Int.Signed.{quot_z};
ghost use Rattle.meaning.specs.Products.{is_negative, joined, negated_if};
ghost use Rattle.products.specs.RowProductWorked.{worked, Narrow};

use meaning::Row;

// 2^l × p
pub fn shifted(p: i64, l: u32) -> i64
    requires { (l ≤ 31) × (2 ^ l * nat_abs p ≤ 2 ^ 62) }
    ensures { result ≡ pos (2 ^ l) *ℤ p }
{
    (arith::power(l) as i64) * p
}

// 2^l1 × p + (-1)^s × 2^l2 × q
fn join(p: i64, q: i64, x: Row) -> i64
    requires { Narrow p q x }
    ensures { result ≡ joined p q x.l1 x.l2 x.s }
{
    let a = shifted(p, x.l1);
    let b = shifted(q, x.l2);
    if x.s == 0 {
        return a + b;
    }
    a - b
}

// n is negative: n is the row's own, and the data's sign has no part in it.
fn is_negative(u: u32, v: u32, x: Row) -> bool
    requires { (x.l1 ≤ 30) × (x.l2 ≤ 30) }
    ensures { result ≡ is_negative u v x.l1 x.l2 x.s }
{
    if x.s == 0 {
        return false;
    }
    arith::shifted(u, x.l1) < arith::shifted(v, x.l2)
}

// The difference negated where n is negative.
fn negate(negative: bool, z: i64) -> i64
    requires { nat_abs z ≤ 2 ^ 62 }
    ensures { result ≡ negated_if negative z }
{
    if negative {
        return -z;
    }
    z
}

// z / 2^r, rounded towards 0; a row's is exact.
fn divided(z: i64, r: u32) -> i64
    requires { (r ≤ 31) × (nat_abs z ≤ 2 ^ 62) }
    ensures { result ≡ quot_z z (pos (2 ^ r)) }
{
    z / (arith::power(r) as i64)
}

// A row's product, from its operands' values and products.
pub fn row_product(u: u32, v: u32, p: i64, q: i64, x: Row) -> i64
    requires { Narrow p q x }
    ensures { result ≡ worked u v p q x }
{
    let n = join(p, q, x);
    let negative = is_negative(u, v, x);
    let signed = negate(negative, n);
    divided(signed, x.r)
}
