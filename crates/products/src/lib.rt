// The products of a checked graph: each row's from its operands' products as its words say, and each target's from its row's, in 64 bits.
#![tactic(auto)]

mod row_product;

ghost use Rattle.std.specs.Prelude.{◌≡◌, map, ◌<◌, ◌≤◌, T, length};
ghost use Rattle.meaning.specs.Basics.{every, over};
ghost use Rattle.meaning.specs.Graph.{row_after, rows, values as graph_values, ready, is_served};
ghost use Rattle.meaning.specs.Products.{row_product, products, target_product, target_products};
ghost use Rattle.meaning.specs.Calls.{Multiplies};
ghost use Rattle.products.specs.Worked.{Next, Graph, Made};

use arrayvec::ArrayVec;
use meaning::{MOST_READY, Refusal};
use rows::Rows;

// The product of the row after i rows, from the products of the indices before it.
fn next_product(graph: Rows, i: usize, before: &[i64]) -> i64
    requires { (i < graph.count) × Next graph.words.now i before.now }
    ensures { result ≡ row_product (ready (rows i graph.entry.words.now)) before.now (row_after graph.entry.words.now i) }
{
    let x = graph.after(i);
    let first = x.u as usize;
    let second = x.v as usize;
    let u = graph.value_at(i, first);
    let v = graph.value_at(i, second);
    let p = before[first];
    let q = before[second];
    row_product::row_product(u, v, p, q, x)
}

// The products by index; the input's is x.
fn products_of(graph: Rows, x: i32) -> ArrayVec<i64, MOST_READY>
    requires { Graph (rows graph.count graph.words.now) }
    ensures { result.items ≡ products (rows graph.entry.count graph.entry.words.now) x }
{
    let mut made = ArrayVec::new();
    made.push(i64::from(x));
    for i in 0..graph.count {
        let next = next_product(graph, i, &made);
        made.push(next);
    }
    made
}

// A target's product, from the rows' values and the products by index: sign × 2^shift × its index's.
fn target_product(values: &[u32], made: &[i64], t: i32) -> i64
    requires { Made values.now made.now × T (is_served values.now t) }
    ensures { result ≡ target_product values.now made.now t }
{
    let parts = constants::take_apart(t);
    let index = rows::output_index(values, parts.odd);
    let p = made[index];
    i64::from(parts.sign) * row_product::shifted(p, parts.shift)
}

// The targets' products, from the front of a lent slice.
fn write_targets(ts: &[i32], values: &[u32], made: &[i64], out: &mut [i64])
    requires { (length ts.now ≤ length out.old) × Made values.now made.now × T (every (is_served values.now) ts.now) }
    ensures { out.new ≡ over (map (target_product values.now made.now) ts.now) out.old }
{
    for (k, t) in ts.iter().enumerate() {
        out[k] = target_product(values, made, *t);
    }
}

// The targets' products of a graph that serves them, written from the front of `out`.
fn work(graph: Rows, ts: &[i32], x: i32, out: &mut [i64])
    requires valid { Graph (rows graph.count graph.words.now) }
    requires served { T (every (is_served (graph_values (rows graph.count graph.words.now))) ts.now) }
    requires room { length ts.now ≤ length out.old }
    ensures { out.new ≡ over (target_products (rows graph.entry.count graph.entry.words.now) x ts.now) out.old }
{
    let values = graph.values();
    let made = products_of(graph, x);
    write_targets(ts, &values, &made, out);
}

// A product for each target. Refusals as check, then 4.
#[tactic(auto, using(crate::proofs::Multiplied::rows_valid, crate::proofs::Multiplied::rows_serve))]
pub fn multiply(
    b: u32,
    ts: &[i32],
    n: usize,
    words: &[u32],
    x: i32,
    out: &mut [i64],
) -> Result<(), Refusal>
    ensures { Multiplies b ts.now n words.now x result out.old out.new }
{
    let graph = graph::accept(b, ts, n, words)?;
    if out.len() < ts.len() {
        return Err(Refusal::Buffer);
    }
    work(graph, ts, x, out);
    Ok(())
}
