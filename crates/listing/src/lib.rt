// The listing of a graph.
#![tactic(auto)]

mod head;
mod lines;

ghost use Rattle.std.specs.Prelude.{◌≡◌, ◌≤◌, length};
ghost use Rattle.meaning.specs.Basics.{over, up_from};
ghost use Rattle.meaning.specs.Limits.{most_rows};
ghost use Rattle.meaning.specs.Listing.{row_order, graph_in, listing_of};
ghost use Rattle.writing.specs.Wrote.{Wrote};
ghost use Rattle.listing.specs.Parts.{Listable, Printable};

use meaning::{Head, MOST_ROWS};
use rows::Rows;

// The row numbers 1 to n, from the front.
fn count_up(order: &mut [u32], n: usize)
    requires { (n ≤ most_rows) × (n ≤ length order.old) }
    ensures { order.new ≡ over (up_from 1 n) order.old }
{
    for i in 0..n {
        order[i] = (i + 1) as u32;
    }
}

// The numbers of rows of these values in the order of the row lines, from the front.
fn arrange(by_width: bool, values: &[u32], order: &mut [u32])
    requires { (length values.now ≤ most_rows) × (length values.now ≤ length order.old) }
    ensures { order.new ≡ over (row_order by_width values.now) order.old }
{
    if by_width {
        let mut keys = [0u32; MOST_ROWS];
        ranking::rank_values(values, 0, &mut keys, order);
        return;
    }
    count_up(order, values.len());
}

// Head, rows and outputs, by the rows' order and their values.
fn print(
    out: &mut [u8],
    head: Head,
    ts: &[i32],
    graph: Rows,
    order: &[u32],
    values: &[u32],
) -> usize
    requires { Printable head ts.now graph.count graph.words.now order.now values.now (length out.old) }
    ensures { Wrote out.old 0 (listing_of (graph_in head ts.now graph.entry.count graph.entry.words.now)) out.new result }
{
    let input = head.input;
    let at = head::head_lines(out, head, graph.count, head::csd_sum(ts));
    let at = lines::row_lines(out, at, input, graph, order);
    lines::out_lines(out, at, input, values, ts)
}

// The listing of n rows, from the front of a buffer that has room for it. The order is an array: the ranking writes over the front of what it is lent.
pub fn write(out: &mut [u8], head: Head, ts: &[i32], words: &[u32], n: usize) -> usize
    requires { Listable head ts.now n words.now (length out.old) }
    ensures { Wrote out.old 0 (listing_of (graph_in head ts.now n words.now)) out.new result }
{
    let graph = Rows { words, count: n };
    let values = graph.values();
    let mut order = [0u32; MOST_ROWS];
    arrange(head.by_width, values.as_slice(), &mut order);
    print(out, head, ts, graph, &order[..n], values.as_slice())
}
