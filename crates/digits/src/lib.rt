// The canonic form of a number: how many of its digits are nonzero, its prefixes, and the places of its digits.
#![tactic(auto)]

ghost use Rattle.std.specs.Prelude.{◌≡◌, ◌<◌, ◌≤◌, length};
ghost use Rattle.meaning.specs.Digits.{above as digits_above, canonic, nonzeros, prefixes as digits_prefixes, form_of, minus_places};
ghost use Rattle.meaning.specs.Calls.{WritesForm};
ghost use Rattle.few.specs.Places.{in_places};
ghost use Rattle.digits.specs.Held.{near as held_near, nothing, end_sign, last_prefix, places_held};

use arrayvec::ArrayVec;
use few::Few;
use meaning::{Prefix, Refusal};

// A form as two words, the places of its digits 1 and of its digits -1, and how many digits are nonzero.
#[derive(Clone, Copy)]
pub struct Places {
    pub plus: u32,
    pub minus: u32,
    pub count: u32,
}

// What stands above the lowest digit.
fn above(n: u32) -> u32
    ensures { result ≡ digits_above n }
{
    if n % 4 == 3 { n / 2 + 1 } else { n / 2 }
}

// How many digits of its canonic form are nonzero. A `while`, as below: no index is counted, the number shrinks.
#[tactic(auto, using(laws::proofs::Digits::Canonic::above_less, laws::proofs::Digits::Count::nonzeros_zero, laws::proofs::Digits::Count::nonzeros_step, laws::proofs::Digits::Count::few_seventeen))]
pub fn nonzero_digits(n: u32) -> u32
    ensures { result ≡ nonzeros (canonic n) }
{
    let mut count: u32 = 0;
    let mut left = n;
    while left > 0 {
        count += left % 2;
        left = above(left);
    }
    count
}

// An odd number less its lowest digit; of 4294967295 that is 2^32.
fn near(n: u32) -> u64
    requires { 0 < n }
    ensures { result ≡ held_near n }
{
    let wide = u64::from(n);
    if n % 4 == 3 { wide + 1 } else { wide - 1 }
}

// 1 where the lowest digit of an odd number is -1.
fn sign(n: u32) -> u32
    ensures { result ≡ end_sign n }
{
    u32::from(n % 4 == 3)
}

// The last prefix of an odd number above 1.
#[tactic(auto, using(laws::proofs::Whole::Zeros::machine_is, crate::proofs::Laws::odd_word), unfolding(crate::specs::Held::last_prefix))]
fn last_prefix(n: u32) -> Prefix
    requires { 1 < n }
    ensures { result ≡ last_prefix n }
{
    let m = near(n);
    Prefix {
        before: arith::odd_part(m) as u32,
        gap: m.trailing_zeros(),
        s: sign(n),
        value: n,
    }
}

// A place that holds no prefix.
const NOTHING: Prefix = Prefix {
    before: 0,
    gap: 0,
    s: 0,
    value: 0,
};

// The prefixes of a number, shortest first, each found from the one that it leaves. A number of 32 bits has sixteen at most.
#[tactic(auto, using(crate::proofs::Laws::peel_start, crate::proofs::Laws::peel_room, crate::proofs::Laws::peel_falls, crate::proofs::Laws::peel_step, crate::proofs::Laws::peel_end))]
pub fn prefixes_of(n: u32) -> Few<Prefix, 16>
    ensures value { result ≡ in_places nothing 16 (digits_prefixes n) }
    ensures fits { result.count ≤ 16 }
{
    let mut prefixes = ArrayVec::new();
    let mut left = arith::odd_part(u64::from(n)) as u32;
    while left > 1 {
        let last = last_prefix(left);
        prefixes.push(last);
        left = last.before;
    }
    prefixes.reverse();
    Few::of(&prefixes, NOTHING)
}

// The places of the digits -1: a word of at most half of n.
#[tactic(auto, using(crate::proofs::FormWords::add_low, crate::proofs::FormWords::add_end, laws::proofs::Digits::Canonic::above_less, laws::proofs::Digits::Places::minus_half))]
fn minus_places(n: u32) -> u32
    ensures { result ≡ minus_places (canonic n) }
{
    let mut minus: u64 = 0;
    let mut power: u64 = 1;
    let mut rest = n;
    while rest > 0 {
        minus += u64::from(sign(rest)) * power;
        power *= 2;
        rest = above(rest);
    }
    minus as u32
}

// The form of a constant: of a negative one, that of its magnitude with the words exchanged.
pub fn places_of(t: i32) -> Places
    ensures { result ≡ places_held (form_of t) }
{
    let n = arith::magnitude(t);
    let count = nonzero_digits(n);
    let low = minus_places(n);
    // n is the one word less the other
    let high = n + low;
    let (plus, minus) = if t < 0 { (low, high) } else { (high, low) };
    Places { plus, minus, count }
}

// The two words of a constant's form over the front of `out`. Refusal 4.
pub fn canonic_to(t: i32, out: &mut [u32]) -> Result<u32, Refusal>
    ensures { WritesForm t result out.old out.new }
{
    if out.len() < 2 {
        return Err(Refusal::Buffer);
    }
    let places = places_of(t);
    out[0] = places.plus;
    out[1] = places.minus;
    Ok(places.count)
}
