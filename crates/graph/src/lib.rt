// Checks any graph for a list and a bit limit.
#![tactic(auto)]

mod valid_row;

ghost use Rattle.std.specs.Prelude.{◌≡◌, ◌||◌, [], ◌≤◌, leb, length, Err, IfOk, IfErr};
ghost use Rattle.meaning.specs.Limits.{most_targets};
ghost use Rattle.meaning.specs.declared.Refusal.TheVariants.{Unserved};
ghost use Rattle.meaning.specs.Basics.{has};
ghost use Rattle.meaning.specs.Graph.{rows, is_served};
ghost use Rattle.meaning.specs.Refusals.{Accepted, need_each, valid_rows, all_served};
ghost use Rattle.meaning.specs.Calls.{Checks, ChecksWidth};

use arrayvec::ArrayVec;
use meaning::{LEAST_WIDTH, MOST_ROWS, MOST_WIDTH, Refusal};
use rows::Rows;

// Refusal 6 with the first row that is not valid.
fn valid_rows(b: u32, graph: Rows) -> Result<(), Refusal>
    requires { (2 ≤ b) × (b ≤ 16) }
    ensures { result ≡ valid_rows b (rows graph.entry.count graph.entry.words.now) }
{
    for i in 0..graph.count {
        if !valid_row::row_fits(b, graph, i) {
            return Err(Refusal::Row((i + 1) as u32));
        }
    }
    Ok(())
}

// An odd part needs no row, or some row has it: the rows' values are lent.
fn served(odd: u32, values: &[u32]) -> bool
    ensures { result ≡ (leb odd 1 || has values.now odd) }
{
    odd <= 1 || arith::has(values, values.len(), odd)
}

// Refusal 7 with the first target whose odd part no row has. The list is lent, so what `admit` found of its length is asked for, that its places fit.
fn each_served(ts: &[i32], values: &[u32]) -> Result<(), Refusal>
    requires { length ts.now ≤ most_targets }
    ensures { result ≡ need_each Unserved (λ _ t. is_served values.now t) [] ts.now }
{
    for (i, t) in ts.iter().enumerate() {
        if !served(constants::take_apart(*t).odd, values) {
            return Err(Refusal::Unserved((i + 1) as u32));
        }
    }
    Ok(())
}

// The same by the rows of a graph, whose values are held here: one that is handed back is moved.
#[tactic(auto, using(rows::proofs::Places::values_none, rows::proofs::Places::values_more, rows::proofs::Places::values_room))]
fn all_served(ts: &[i32], graph: Rows) -> Result<(), Refusal>
    requires { length ts.now ≤ most_targets }
    ensures { result ≡ all_served (rows graph.entry.count graph.entry.words.now) ts.now }
{
    let mut values: ArrayVec<u32, MOST_ROWS> = ArrayVec::new();
    for i in 0..graph.count {
        values.push(graph.after(i).value);
    }
    each_served(ts, values.as_slice())
}

// The rows of a graph that passes the check. Refusals 1, 2, 3, 5, 6 and 7. Words beyond the rows are ignored.
#[tactic(auto, using(crate::proofs::Stages::admits_bits, crate::proofs::Stages::admits_list, crate::proofs::Stages::list_refused, crate::proofs::Stages::count_refused, crate::proofs::Stages::row_refused, crate::proofs::Stages::target_refused, crate::proofs::Stages::accepted))]
pub fn accept<'a>(b: u32, ts: &[i32], n: usize, words: &'a [u32]) -> Result<Rows<'a>, Refusal>
    ensures rows { IfOk result (λ graph. (graph.count ≡ n) × (graph.words.now ≡ words.now) × Checks b ts.now n words.now Accepted) }
    ensures lent { IfOk result (λ graph. graph.words ≡ words.entry) }
    ensures refusal { IfErr result (λ why. Checks b ts.now n words.now (Err why)) }
{
    constants::admit(b, ts)?;
    let graph = Rows::of(n, words).ok_or(Refusal::RowCount)?;
    valid_rows(b, graph)?;
    all_served(ts, graph)?;
    Ok(graph)
}

// As accept, then 9: for the calls that speak of widths.
#[tactic(auto, using(crate::proofs::Stages::graph_refused, crate::proofs::Stages::width_refused, crate::proofs::Stages::width_accepted))]
pub fn accept_width<'a>(
    b: u32,
    ts: &[i32],
    n: usize,
    words: &'a [u32],
    input: u32,
) -> Result<Rows<'a>, Refusal>
    ensures rows { IfOk result (λ graph. (graph.count ≡ n) × (graph.words.now ≡ words.now) × ChecksWidth b ts.now n words.now input Accepted) }
    ensures lent { IfOk result (λ graph. graph.words ≡ words.entry) }
    ensures refusal { IfErr result (λ why. ChecksWidth b ts.now n words.now input (Err why)) }
{
    let graph = accept(b, ts, n, words)?;
    if !arith::within(input as usize, LEAST_WIDTH, MOST_WIDTH) {
        return Err(Refusal::Width);
    }
    Ok(graph)
}

// As accept, for a caller that has no use for the rows.
pub fn check(b: u32, ts: &[i32], n: usize, words: &[u32]) -> Result<(), Refusal>
    ensures { Checks b ts.now n words.now result }
{
    accept(b, ts, n, words)?;
    Ok(())
}

// As accept_width, for the same.
pub fn check_width(b: u32, ts: &[i32], n: usize, words: &[u32], input: u32) -> Result<(), Refusal>
    ensures { ChecksWidth b ts.now n words.now input result }
{
    accept_width(b, ts, n, words, input)?;
    Ok(())
}
