// Widths: how many bits each row and each output of a graph needs for inputs of a given width.
#![tactic(auto)]

pub mod bits;

ghost use Rattle.std.specs.Prelude.{◌≡◌, map, ◌+◌, ◌≤◌, length};
ghost use Rattle.meaning.specs.Basics.{over, over_at};
ghost use Rattle.meaning.specs.Graph.{rows, values};
ghost use Rattle.meaning.specs.Widths.{row_width, output_width};
ghost use Rattle.meaning.specs.Calls.{Measures};

use meaning::Refusal;
use rows::Rows;

// The rows' widths, from the front.
fn row_widths(graph: Rows, input: u32, out: &mut [u32])
    requires { (input ≤ 32) × (graph.count ≤ length out.old) }
    ensures { out.new ≡ over (map (row_width input) (values (rows graph.entry.count graph.entry.words.now))) out.old }
{
    for (i, place) in out[..graph.count].iter_mut().enumerate() {
        *place = bits::row_width(graph.after(i).value, input);
    }
}

// The outputs' widths, in the order of the targets, from a place on.
fn output_widths(ts: &[i32], input: u32, from: usize, out: &mut [u32])
    requires { (input ≤ 32) × (from + length ts.now ≤ length out.old) }
    ensures { out.new ≡ over_at from (map (output_width input) ts.now) out.old }
{
    for (i, t) in ts.iter().enumerate() {
        out[from + i] = bits::output_width(*t, input);
    }
}

// Rows in row order, then outputs. Refusals as check, then 9, then 4.
#[tactic(auto, using(crate::proofs::Measured::room_for_both, crate::proofs::Measured::narrow_input))]
pub fn measure(
    b: u32,
    ts: &[i32],
    n: usize,
    words: &[u32],
    input: u32,
    out: &mut [u32],
) -> Result<(), Refusal>
    ensures { Measures b ts.now n words.now input result out.old out.new }
{
    let graph = graph::accept_width(b, ts, n, words, input)?;
    if out.len() < n + ts.len() {
        return Err(Refusal::Buffer);
    }
    row_widths(graph, input, out);
    output_widths(ts, input, n, out);
    Ok(())
}
