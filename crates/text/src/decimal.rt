// A decimal number in a slice of bytes: signed 32 bits, no leading zeros, no minus before 0.
ghost use Rattle.std.specs.Prelude.{◌≡◌, ◌≤◌, length, get_or};
ghost use Rattle.meaning.specs.Text.{span as text_span, value_of, is_plain, ranged as text_ranged, unsigned_at, number_at};

// How many digits a text begins with.
fn span(s: &[u8]) -> usize
    ensures { result ≡ text_span s.now }
{
    s.iter().take_while(|c| c.is_ascii_digit()).count()
}

// There is a digit, and no zero leads others.
fn plain(digits: &[u8]) -> bool
    ensures { result ≡ is_plain (length digits.now) (get_or digits.now 0 0) }
{
    match digits {
        [] => false,
        [_] => true,
        [first, ..] => *first != b'0',
    }
}

// The value of at most 10 digits; more are out of range.
fn value_of(digits: &[u8]) -> u64
    requires all { text_span digits.now ≡ length digits.now }
    requires few { length digits.now ≤ 10 }
    ensures { result ≡ value_of 0 digits.now }
{
    let mut v = 0;
    for c in digits {
        v = v * 10 + u64::from(c - b'0');
    }
    v
}

// A value with its sign, if it is in range.
fn ranged(v: u64, next: usize, negative: bool) -> Option<(i32, usize)>
    ensures { result ≡ text_ranged negative v next }
{
    if negative && v == 0 {
        return None;
    }
    let magnitude = i64::try_from(v).ok()?;
    let z = i32::try_from(if negative { -magnitude } else { magnitude });
    Some((z.ok()?, next))
}

#[tactic(auto, using(crate::proofs::Digits::run_within, crate::proofs::Digits::run_digits, crate::proofs::Digits::run_bad, crate::proofs::Digits::run_long, crate::proofs::Digits::run_good))]
fn unsigned(s: &[u8], p: usize, negative: bool) -> Option<(i32, usize)>
    requires { p ≤ length s.now }
    ensures { result ≡ unsigned_at negative s.now p }
{
    let rest = &s[p..];
    let count = span(rest);
    let digits = &rest[..count];
    if !plain(digits) {
        return None;
    }
    // More digits are out of range.
    if count > 10 {
        return None;
    }
    ranged(value_of(digits), p + count, negative)
}

// The number at a place, and the place behind it.
#[tactic(auto, using(laws::proofs::Text::Numerals::number_minus, laws::proofs::Text::Numerals::number_plain, laws::proofs::Text::Numerals::number_none))]
pub fn number(s: &[u8], at: usize) -> Option<(i32, usize)>
    ensures { result ≡ number_at s.now at }
{
    match s.get(at)? {
        b'-' => unsigned(s, at + 1, true),
        _ => unsigned(s, at, false),
    }
}
