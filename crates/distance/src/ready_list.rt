// The refusals of the distance call: the bit limit, the ready list and the target.
ghost use Rattle.std.specs.Prelude.{◌≡◌, ◌&&◌, ◌%◌, ◌^◌, ◌≤◌, eqb, ltb, length};
ghost use Rattle.meaning.specs.Limits.{most_ready};
ghost use Rattle.meaning.specs.Refusals.{ready_values, distance_order, first_of};

use meaning::{LEAST_BITS, MOST_BITS, MOST_READY, Refusal};

// v is odd and below 2^l.
fn odd_below(v: u32, l: u32) -> bool
    requires { l ≤ 31 }
    ensures { result ≡ (eqb (v % 2) 1 && ltb v (2 ^ l)) }
{
    v % 2 == 1 && v < 1u32 << l
}

// Refusal 10 with the first value that is not odd in 1..G-1.
fn ready_values(b: u32, vals: &[u32]) -> Result<(), Refusal>
    requires { (b ≤ 16) × (length vals.now ≤ most_ready) }
    ensures { result ≡ ready_values b vals.now }
{
    let limit = arith::limit(b);
    for (i, v) in vals.iter().enumerate() {
        if !odd_below(*v, limit) {
            return Err(Refusal::Ready((i + 1) as u32));
        }
    }
    Ok(())
}

// Refusals 1, 10 (length before values) and 11.
pub fn admit(b: u32, vals: &[u32], c: u32) -> Result<(), Refusal>
    ensures { result ≡ first_of (distance_order b vals.now c) }
{
    if !arith::within(b as usize, LEAST_BITS, MOST_BITS) {
        return Err(Refusal::Bits);
    }
    if !arith::within(vals.len(), 1, MOST_READY) {
        return Err(Refusal::Ready(0));
    }
    ready_values(b, vals)?;
    if !odd_below(c, b) {
        return Err(Refusal::Target);
    }
    Ok(())
}
