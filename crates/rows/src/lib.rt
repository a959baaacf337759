// A graph's rows in a lent slice of words: the only place that knows which word stands where. One row read and written, the
// value of an index, the values of all, and the index that an output uses; and the rows as one value, which cannot exceed the slice.
#![tactic(auto)]

ghost use Rattle.std.specs.Prelude.{◌≡◌, ◌+◌, ◌*◌, ◌<◌, ◌≤◌, length, IfSome, is_some};
ghost use Rattle.meaning.specs.Basics.{all, over, over_at};
ghost use Rattle.meaning.specs.Limits.{most_rows};
ghost use Rattle.meaning.specs.Graph.{row_length, row_tests, words, row_after, rows, values as graph_values, value_at, output_index};

use arrayvec::ArrayVec;
use meaning::{MOST_ROWS, ROW_LENGTH, Row};

// The row after i rows.
pub fn row_after(words: &[u32], i: usize) -> Row
    requires { row_length * (i + 1) ≤ length words.now }
    ensures { result ≡ row_after words.now i }
{
    let at = ROW_LENGTH * i;
    let row = &words[at..at + ROW_LENGTH];
    Row {
        u: row[0],
        v: row[1],
        l1: row[2],
        l2: row[3],
        s: row[4],
        r: row[5],
        value: row[6],
    }
}

// The value of an index, over the first i rows: the input's is 1.
#[tactic(auto, using(crate::proofs::Places::value_before))]
pub fn value_at(words: &[u32], i: usize, index: usize) -> u32
    requires { (index ≤ i) × (row_length * i ≤ length words.now) }
    ensures { result ≡ value_at (rows i words.now) index }
{
    match index {
        0 => 1,
        _ => row_after(words, index - 1).value,
    }
}

// The values of n rows, over the front of out. Beside `Rows::values`, since n may be more than Rows holds here.
pub fn values(n: usize, words: &[u32], out: &mut [u32])
    requires { (row_length * n ≤ length words.now) × (n ≤ length out.old) }
    ensures { out.new ≡ over (graph_values (rows n words.now)) out.old }
{
    for (i, place) in out[..n].iter_mut().enumerate() {
        *place = row_after(words, i).value;
    }
}

// n rows are not too many, and do not exceed the slice.
pub fn within(n: usize, words: &[u32]) -> bool
    ensures { result ≡ all (row_tests n words.now) }
{
    n <= MOST_ROWS && ROW_LENGTH * n <= words.len()
}

// The index that an output of some odd part uses, by the rows' values: the input has 1, and zero, which has none, uses it too.
#[tactic(auto, unfolding(meaning::specs::Graph::output_index))]
pub fn output_index(values: &[u32], odd: u32) -> usize
    ensures { result ≡ output_index values.now odd }
{
    if odd <= 1 {
        0
    } else {
        arith::index_from(1, values, values.len(), odd)
    }
}

// The row's words, written after i rows.
#[tactic(auto, using(crate::proofs::Places::put_over))]
pub fn put_row(out: &mut [u32], i: usize, x: Row)
    requires { row_length * (i + 1) ≤ length out.old }
    ensures { out.new ≡ over_at (row_length * i) (words x) out.old }
{
    let at = ROW_LENGTH * i;
    out[at..at + ROW_LENGTH].copy_from_slice(&[x.u, x.v, x.l1, x.l2, x.s, x.r, x.value]);
}

// The rows of a graph: how many, and the lent words that hold them.
#[derive(Clone, Copy)]
pub struct Rows<'a> {
    pub words: &'a [u32],
    pub count: usize,
    ghost few: { count ≤ most_rows },
    ghost within: { row_length * count ≤ length words.now },
}

impl<'a> Rows<'a> {
    // The first so many rows of the words, where they are few enough and within the slice.
    pub fn of(count: usize, words: &'a [u32]) -> Option<Rows<'a>>
        ensures there { is_some result ≡ all (row_tests count words.now) }
        ensures those { IfSome result (λ r. (r.count ≡ count) × (r.words.now ≡ words.now)) }
        ensures lent { IfSome result (λ r. r.words ≡ words.entry) }
    {
        if within(count, words) {
            Some(Rows { words, count })
        } else {
            None
        }
    }

    // The row after i rows.
    pub fn after(self, i: usize) -> Row
        requires { i < self.count }
        ensures { result ≡ row_after self.entry.words.now i }
    {
        row_after(self.words, i)
    }

    // The value of an index, over the first i rows.
    pub fn value_at(self, i: usize, index: usize) -> u32
        requires { (index ≤ i) × (i ≤ self.count) }
        ensures { result ≡ value_at (rows i self.entry.words.now) index }
    {
        value_at(self.words, i, index)
    }

    // The rows' values, in their order.
    #[tactic(auto, using(crate::proofs::Places::values_none, crate::proofs::Places::values_more, crate::proofs::Places::values_room))]
    pub fn values(self) -> ArrayVec<u32, MOST_ROWS>
        ensures { result.items ≡ graph_values (rows self.entry.count self.entry.words.now) }
    {
        let mut values = ArrayVec::new();
        for i in 0..self.count {
            values.push(self.after(i).value);
        }
        values
    }
}
