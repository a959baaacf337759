// The lines of a graph's rows and outputs.
ghost use Rattle.std.specs.Prelude.{◌≡◌, ◌+◌, ◌≤◌, pos, ◌+ℤ◌, length};
ghost use Rattle.meaning.specs.Forms.{line_of, lines_of, row_form, out_form};
ghost use Rattle.meaning.specs.Graph.{rows};
ghost use Rattle.meaning.specs.Limits.{most_rows};
ghost use Rattle.meaning.specs.Listing.{row_numbers, rows_by, out_width, out_numbers, outs_from};
ghost use Rattle.writing.specs.Wrote.{Wrote};
ghost use Rattle.listing.specs.Parts.{InRows, InOuts};

use meaning::Row;
use rows::Rows;
use widths::bits::{output_width, row_width};
use writing::put_line;

// w and e more.
fn wider(w: i32, e: u32) -> i64
    ensures { result ≡ w +ℤ pos e }
{
    i64::from(w) + i64::from(e)
}

// The line of a row as row i.
fn row_line(out: &mut [u8], at: usize, input: i32, i: u32, x: Row) -> usize
    requires { at + length (line_of row_form (row_numbers input i x)) ≤ length out.old }
    ensures { Wrote out.old at (line_of row_form (row_numbers input i x)) out.new result }
{
    let width = wider(input, row_width(x.value, 0));
    let numbers = [
        i64::from(i),
        i64::from(x.u),
        i64::from(x.v),
        i64::from(x.l1),
        i64::from(x.l2),
        i64::from(x.s),
        i64::from(x.r),
        i64::from(x.value),
        width,
    ];
    put_line(
        out,
        at,
        b"row=# u=# v=# l1=# l2=# s=# r=# value=# width=#\n",
        &numbers,
    )
}

// The row lines, in the given order.
pub fn row_lines(out: &mut [u8], from: usize, input: i32, graph: Rows, order: &[u32]) -> usize
    requires { InRows graph.count order.now × (from + length (lines_of row_form (rows_by input (rows graph.count graph.words.now) order.now)) ≤ length out.old) }
    ensures { Wrote out.old from (lines_of row_form (rows_by input (rows graph.entry.count graph.entry.words.now) order.now)) out.new result }
{
    let mut at = from;
    for i in order {
        let x = graph.after(*i as usize - 1);
        at = row_line(out, at, input, *i, x);
    }
    at
}

// An output's width: one bit for a zero target, whatever the input.
fn out_width(input: i32, t: i32) -> i64
    ensures { result ≡ out_width input t }
{
    if t == 0 {
        return 1;
    }
    wider(input, output_width(t, 0))
}

// The line of target k, over the rows' values.
fn out_line(out: &mut [u8], at: usize, input: i32, values: &[u32], k: u32, t: i32) -> usize
    requires { (length values.now ≤ most_rows) × (at + length (line_of out_form (out_numbers input values.now k t)) ≤ length out.old) }
    ensures { Wrote out.old at (line_of out_form (out_numbers input values.now k t)) out.new result }
{
    let parts = constants::take_apart(t);
    let index = rows::output_index(values, parts.odd);
    let numbers = [
        i64::from(k),
        index as i64,
        i64::from(parts.shift),
        i64::from(parts.sign),
        out_width(input, t),
    ];
    put_line(out, at, b"out=# row=# shift=# sign=# width=#\n", &numbers)
}

// The out lines, in the order of the targets.
pub fn out_lines(out: &mut [u8], from: usize, input: i32, values: &[u32], ts: &[i32]) -> usize
    requires { InOuts values.now ts.now × (from + length (lines_of out_form (outs_from input values.now 1 ts.now)) ≤ length out.old) }
    ensures { Wrote out.old from (lines_of out_form (outs_from input values.now 1 ts.now)) out.new result }
{
    let mut at = from;
    for (k, t) in ts.iter().enumerate() {
        at = out_line(out, at, input, values, (k + 1) as u32, *t);
    }
    at
}
