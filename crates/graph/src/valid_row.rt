// A row's validity: its words agree with a valid operation on the values of its two indices, which are below its own.
ghost use Rattle.std.specs.Prelude.{◌≡◌, ◌&&◌, ◌≤◌, ◌<◌};
ghost use Rattle.meaning.specs.Basics.{all};
ghost use Rattle.meaning.specs.Limits.{bit_tests, limit};
ghost use Rattle.meaning.specs.Operation.{is_valid};
ghost use Rattle.meaning.specs.Graph.{row_after, rows, does_fit};

use meaning::Row;
use rows::Rows;

// A row's shifts, sign, r and value agree with a valid operation on u and v.
fn agrees(b: u32, u: u32, v: u32, x: Row) -> bool
    ensures { result ≡ (all (bit_tests b) && is_valid (limit b) u v x.l1 x.l2 x.s x.r x.value) }
{
    let Some(made) = operation::operate(b, u, v, x.l1, x.l2, x.s) else {
        return false;
    };
    made.r == x.r && made.value == x.value
}

// The row after i rows is valid after them, under the bit limit b.
pub fn row_fits(b: u32, graph: Rows, i: usize) -> bool
    requires { ((2 ≤ b) × (b ≤ 16)) × (i < graph.count) }
    ensures { result ≡ does_fit (limit b) (rows i graph.entry.words.now) (row_after graph.entry.words.now i) }
{
    let x = graph.after(i);
    let first = x.u as usize;
    let second = x.v as usize;
    if i < first || i < second {
        return false;
    }
    let u = graph.value_at(i, first);
    let v = graph.value_at(i, second);
    agrees(b, u, v, x)
}
