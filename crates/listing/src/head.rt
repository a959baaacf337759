// The lines above the rows.
ghost use Rattle.std.specs.Prelude.{◌≡◌, [], ◌∷◌, ◌+◌, ◌≤◌, ◌<◌, length};
ghost use Rattle.meaning.specs.Constants.{wanted};
ghost use Rattle.meaning.specs.Digits.{cost as digits_cost, csd_sum};
ghost use Rattle.meaning.specs.Forms.{report_text, line_of};
ghost use Rattle.meaning.specs.Limits.{most_rows, most_targets};
ghost use Rattle.meaning.specs.Listing.{head_text};
ghost use Rattle.writing.specs.Wrote.{Wrote};

use meaning::{BITS_FORM, BY_ROW, BY_WIDTH, Head, INPUT_FORM};
use writing::put_line;

// A wanted constant's nonzero digits less one.
fn cost(c: u32) -> u32
    requires { 0 < c }
    ensures { (result ≡ digits_cost c) × (result ≤ 16) }
{
    digits::nonzero_digits(c) - 1
}

// Condition 3's sum.
pub fn csd_sum(ts: &[i32]) -> u32
    requires { length ts.now ≤ most_targets }
    ensures { result ≡ csd_sum (wanted ts.now) }
{
    let wanted = constants::wanted::wanted_of(ts);
    let mut sum: u32 = 0;
    for c in wanted.iter() {
        sum += cost(*c);
    }
    sum
}

// A line of one number.
fn number_line(out: &mut [u8], at: usize, form: &[u8], z: i64) -> usize
    requires { at + length (line_of form.now (z ∷ [])) ≤ length out.old }
    ensures { Wrote out.old at (line_of form.now (z ∷ [])) out.new result }
{
    put_line(out, at, form, &[z])
}

// A line of no number.
fn plain_line(out: &mut [u8], at: usize, form: &[u8]) -> usize
    requires { at + length (line_of form.now []) ≤ length out.old }
    ensures { Wrote out.old at (line_of form.now []) out.new result }
{
    put_line(out, at, form, &[])
}

fn report(out: &mut [u8], at: usize, by_width: bool) -> usize
    requires { at + length (report_text by_width) ≤ length out.old }
    ensures { Wrote out.old at (report_text by_width) out.new result }
{
    if by_width {
        return plain_line(out, at, &BY_WIDTH);
    }
    plain_line(out, at, &BY_ROW)
}

// All five, of a graph of some adders and a list of some sum.
pub fn head_lines(out: &mut [u8], head: Head, adders: usize, csd: u32) -> usize
    requires { (adders ≤ most_rows) × (length (head_text head adders csd) ≤ length out.old) }
    ensures { Wrote out.old 0 (head_text head adders csd) out.new result }
{
    let at = number_line(out, 0, &BITS_FORM, i64::from(head.bits));
    let at = number_line(out, at, &INPUT_FORM, i64::from(head.input));
    let at = report(out, at, head.by_width);
    let at = number_line(out, at, b"adders=#\n", adders as i64);
    number_line(out, at, b"csd=#\n", i64::from(csd))
}
