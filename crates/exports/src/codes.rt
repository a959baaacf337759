// An answer as one signed number, for callers in other languages: what was asked for, or minus (1000 × number + place).
ghost use Rattle.std.specs.Prelude.{◌≡◌, ℕ, ◌^◌, ◌<◌, Ok};
ghost use Rattle.exports.specs.Codes.{minus, refusal_code, code, operations};

use meaning::{Far, Refusal};

// -k
fn negative(k: u64) -> i64
    requires { k < 2 ^ 63 }
    ensures { result ≡ minus k }
{
    -(k as i64)
}

// A refusal's code: never 0 or more.
fn refused(why: Refusal) -> i64
    ensures { result ≡ refusal_code why }
{
    let number = u64::from(why.number());
    let place = u64::from(why.place());
    negative(1000 * number + place)
}

// The code of an answer that tells a number.
pub fn of(answer: Result<u64, Refusal>) -> i64
    requires { (n : ℕ) → answer ≡ Ok n → n < 2 ^ 63 }
    ensures { result ≡ code (λ n. n) answer }
{
    match answer {
        Ok(n) => n as i64,
        Err(why) => refused(why),
    }
}

// A length as a number of 64 bits, for which there is no From.
pub fn wide(n: usize) -> u64
    ensures { result ≡ n }
{
    n as u64
}

// 0, 1 or 2 operations, and 3 for beyond.
pub fn operations(far: Far) -> u64
    ensures { result ≡ operations far }
{
    match far {
        Far::Zero => 0,
        Far::One => 1,
        Far::Two => 2,
        Far::Beyond => 3,
    }
}
