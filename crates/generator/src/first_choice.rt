// The first row that makes a constant from the ready values: the first valid choice in the order u index, v index, l1, l2, s, each
// ascending, the u index at most the v index.
ghost use Rattle.std.specs.Prelude.{◌≡◌, ◌≤◌, ◌<◌, length};
ghost use Rattle.meaning.specs.Limits.{most_limit};
ghost use Rattle.meaning.specs.Operation.{size};
ghost use Rattle.meaning.specs.Generator.{choice_for};
ghost use Rattle.generator.specs.Search.{Sought, Searchable, Tried, choice_of, sign_choice, right_choice, left_choice, pair_choice, from_choice};

use meaning::Choice;

// Two ready values u and v with their indices i and j, and the constant c wanted of them.
#[derive(Clone, Copy)]
pub struct Pair {
    pub limit: u32,
    pub c: u32,
    pub i: u32,
    pub j: u32,
    pub u: u32,
    pub v: u32,
}

// |n|
fn size_of(u: u32, v: u32, l1: u32, l2: u32, s: u32) -> u64
    requires { (l1 ≤ most_limit) × (l2 ≤ most_limit) }
    ensures { result ≡ size u v l1 l2 s }
{
    let a = arith::shifted(u, l1);
    let b = arith::shifted(v, l2);
    if s == 0 {
        return a + b;
    }
    arith::difference(a, b)
}

// The row of one choice, if that makes c.
fn choice(p: Pair, l1: u32, l2: u32, s: u32) -> Option<Choice>
    requires { Tried p l1 l2 × (s ≤ 1) }
    ensures { result ≡ choice_of p l1 l2 s }
{
    let m = size_of(p.u, p.v, l1, l2, s);
    if m == 0 {
        return None;
    }
    let r = m.trailing_zeros();
    if m >> r != u64::from(p.c) {
        return None;
    }
    Some(Choice {
        u: p.i,
        v: p.j,
        l1,
        l2,
        s,
        r,
    })
}

// Plus before minus.
fn signs(p: Pair, l1: u32, l2: u32) -> Option<Choice>
    requires { Tried p l1 l2 }
    ensures { result ≡ sign_choice p l1 l2 }
{
    choice(p, l1, l2, 0).or_else(|| choice(p, l1, l2, 1))
}

// Where l1 is 0. Apart from `lefts`, since it shifts the other operand and begins at 0 (docs/DECISIONS.md, 36).
fn rights(p: Pair) -> Option<Choice>
    requires { Sought p }
    ensures { result ≡ right_choice p }
{
    (0..p.limit + 1).find_map(|l| signs(p, 0, l))
}

// Where l1 is not, so that l2 is.
fn lefts(p: Pair) -> Option<Choice>
    requires { Sought p }
    ensures { result ≡ left_choice p }
{
    (1..p.limit + 1).find_map(|l| signs(p, l, 0))
}

// Every pair of shifts is tried.
fn pair_choice(p: Pair) -> Option<Choice>
    requires { Sought p }
    ensures { result ≡ pair_choice p }
{
    rights(p).or_else(|| lefts(p))
}

// The u index is i.
fn choice_from(limit: u32, ready: &[u32], i: usize, c: u32) -> Option<Choice>
    requires { Searchable limit ready.now c × (i < length ready.now) }
    ensures { result ≡ from_choice limit ready.now c i }
{
    (i..ready.len()).find_map(|j| {
        pair_choice(Pair {
            limit,
            c,
            i: i as u32,
            j: j as u32,
            u: ready[i],
            v: ready[j],
        })
    })
}

pub fn choice_for(limit: u32, ready: &[u32], c: u32) -> Option<Choice>
    requires { Searchable limit ready.now c }
    ensures { result ≡ choice_for limit ready.now c }
{
    (0..ready.len()).find_map(|i| choice_from(limit, ready, i, c))
}
