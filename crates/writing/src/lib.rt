// Texts, and lines by their forms, written at a place of a lent buffer that has room for them; each function hands back the place behind its text.
// Buffer and place are two parameters, since `Wrote` is of the place before and the place behind.
#![tactic(auto)]

ghost use Rattle.std.specs.Prelude.{◌≡◌, ◌+◌, ◌≤◌, pos, length, get_or, drop};
ghost use Rattle.std.specs.Slice.Iter.{iter_rest};
ghost use Rattle.meaning.specs.Forms.{piece as forms_piece, taken, line_of};
ghost use Rattle.meaning.specs.Text.{unsigned_text, text_of};
ghost use Rattle.writing.specs.Wrote.{Wrote};

use std::slice::Iter;

// A text.
#[tactic(auto, using(crate::proofs::Writing::wrote_part))]
fn put(out: &mut [u8], at: usize, text: &[u8]) -> usize
    requires { at + length text.now ≤ length out.old }
    ensures { Wrote out.old at text.now out.new result }
{
    let end = at + text.len();
    out[at..end].copy_from_slice(text);
    end
}

fn decimal(out: &mut [u8], at: usize, n: u64) -> usize
    requires { at + length (unsigned_text n) ≤ length out.old }
    ensures { Wrote out.old at (unsigned_text n) out.new result }
{
    // The kit's `io` writes into a slice and hands the count back.
    let mut text = [0u8; 20];
    let k = io::decimal(n, &mut text);
    put(out, at, &text[..k])
}

fn number(out: &mut [u8], at: usize, z: i64) -> usize
    requires { at + length (text_of z) ≤ length out.old }
    ensures { Wrote out.old at (text_of z) out.new result }
{
    if z < 0 {
        out[at] = b'-';
        return decimal(out, at + 1, z.unsigned_abs());
    }
    decimal(out, at, z.unsigned_abs())
}

// The next number; 0 where none is left.
fn next(numbers: &mut Iter<i64>) -> i64
    ensures value { result ≡ get_or (iter_rest numbers.old) 0 (pos 0) }
    ensures rest { iter_rest numbers.new ≡ drop 1 (iter_rest numbers.old) }
{
    numbers.next().copied().unwrap_or(0)
}

// What stands for a form's byte: the next number for #, or the byte itself.
#[tactic(auto, using(crate::proofs::Writing::wrote_number, crate::proofs::Writing::takes_one, crate::proofs::Writing::takes_none))]
fn piece(out: &mut [u8], at: usize, c: u8, numbers: &mut Iter<i64>) -> usize
    requires { at + length (forms_piece c (get_or (iter_rest numbers.old) 0 (pos 0))) ≤ length out.old }
    ensures wrote { Wrote out.old at (forms_piece c (get_or (iter_rest numbers.old) 0 (pos 0))) out.new result }
    ensures left { iter_rest numbers.new ≡ drop (taken c) (iter_rest numbers.old) }
{
    if c == b'#' {
        return number(out, at, next(numbers));
    }
    out[at] = c;
    at + 1
}

// A line: a form with these numbers, one for each #.
pub fn put_line(out: &mut [u8], from: usize, form: &[u8], numbers: &[i64]) -> usize
    requires { from + length (line_of form.now numbers.now) ≤ length out.old }
    ensures { Wrote out.old from (line_of form.now numbers.now) out.new result }
{
    let mut at = from;
    let mut numbers = numbers.iter();
    for &c in form {
        at = piece(out, at, c, &mut numbers);
    }
    at
}
