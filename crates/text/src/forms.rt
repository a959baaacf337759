// A line read by its form: a text in which each # stands for a number.
ghost use Rattle.std.specs.Prelude.{◌≡◌};
ghost use Rattle.meaning.specs.Forms.{taken as forms_taken, line_at};
ghost use Rattle.text.specs.Held.{held, handed};

use crate::{decimal, is};
use arrayvec::ArrayVec;
use few::Few;

// How many of a line's numbers are kept.
pub const MOST_NUMBERS: usize = 16;

// How many numbers a form's byte takes.
pub fn taken(c: u8) -> usize
    ensures { result ≡ forms_taken c }
{
    if c == b'#' {
        return 1;
    }
    0
}

// The numbers of a form's line at a place, those that have room, and where the next line begins.
pub fn line_at(s: &[u8], from: usize, form: &[u8]) -> Option<(Few<i32, MOST_NUMBERS>, usize)>
    ensures { result ≡ handed MOST_NUMBERS (held MOST_NUMBERS (line_at form.now s.now from)) }
{
    let mut numbers = ArrayVec::new();
    let mut at = from;
    for &c in form {
        if taken(c) > 0 {
            let (z, next) = decimal::number(s, at)?;
            // One that has no room is let go.
            let _ = numbers.try_push(z);
            at = next;
        } else if is(s, at, c) {
            at += 1;
        } else {
            return None;
        }
    }
    Some((Few::of(&numbers, 0), at))
}
