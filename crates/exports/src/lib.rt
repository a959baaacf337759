// The calls for programs in other languages: numbers and slices in, one signed number out (specs/Codes.antt). Slices are
// lent for the call alone; include/tauwaage.h says the rest.
#![tactic(auto)]

mod codes;

ghost use Rattle.std.specs.Prelude.{◌+◌, length};
ghost use Rattle.meaning.specs.Calls.{Checks, Distances, TakesApart, WritesForm, Generates, Multiplies, Measures, Ranks, Prints};
ghost use Rattle.exports.specs.Codes.{operations, Coded};

// The rows of the generator's rule over the front of words; answers how many they are.
pub fn tauwaage_generate(bits: u32, targets: &[i32], words: &mut [u32]) -> i64
    ensures { Coded (λ a. Generates bits targets.now a words.old words.new) (λ n. n) result }
{
    codes::of(generator::generate(bits, targets, words).map(u64::from))
}

// Checks any graph; answers 0.
pub fn tauwaage_check(bits: u32, targets: &[i32], rows: usize, words: &[u32]) -> i64
    ensures { Coded (λ a. Checks bits targets.now rows words.now a) (λ _. 0) result }
{
    codes::of(graph::check(bits, targets, rows, words).and(Ok(0)))
}

// A product for each target over the front of out; answers how many they are.
pub fn tauwaage_products(
    bits: u32,
    targets: &[i32],
    rows: usize,
    words: &[u32],
    x: i32,
    out: &mut [i64],
) -> i64
    ensures { Coded (λ a. Multiplies bits targets.now rows words.now x a out.old out.new) (λ _. length targets.now) result }
{
    let answer = products::multiply(bits, targets, rows, words, x, out);
    codes::of(answer.and(Ok(targets.len() as u64)))
}

// The widths of the rows and then of the outputs over the front of out; answers how many they are.
pub fn tauwaage_widths(
    bits: u32,
    targets: &[i32],
    rows: usize,
    words: &[u32],
    input: u32,
    out: &mut [u32],
) -> i64
    ensures { Coded (λ a. Measures bits targets.now rows words.now input a out.old out.new) (λ _. rows + length targets.now) result }
{
    let answer = widths::measure(bits, targets, rows, words, input, out);
    // the sum can wrap where the call refuses
    match answer {
        Ok(()) => codes::of(Ok((rows + targets.len()) as u64)),
        Err(why) => codes::of(Err(why)),
    }
}

// The row numbers, widest first, over the front of out; answers how many they are.
pub fn tauwaage_ranking(
    bits: u32,
    targets: &[i32],
    rows: usize,
    words: &[u32],
    input: u32,
    out: &mut [u32],
) -> i64
    ensures { Coded (λ a. Ranks bits targets.now rows words.now input a out.old out.new) (λ _. rows) result }
{
    let answer = ranking::rank(bits, targets, rows, words, input, out);
    codes::of(answer.and(Ok(rows as u64)))
}

// How far a constant is from a ready list: 0, 1, 2, and 3 for beyond.
pub fn tauwaage_distance(bits: u32, ready: &[u32], target: u32) -> i64
    ensures { Coded (λ a. Distances bits ready.now target a) operations result }
{
    codes::of(distance::distance(bits, ready, target).map(codes::operations))
}

// A job's listing, or the line of its refusal, over the front of out; answers its bytes.
pub fn tauwaage_job(text: &[u8], out: &mut [u8]) -> i64
    ensures { Coded (λ a. Prints text.now a out.old out.new) (λ n. n) result }
{
    codes::of(reply::answer(text, out).map(codes::wide))
}

// A constant taken apart: sign, shift and odd part over the front of out; answers 3.
pub fn tauwaage_apart(constant: i32, out: &mut [i32]) -> i64
    ensures { Coded (λ a. TakesApart constant a out.old out.new) (λ _. 3) result }
{
    codes::of(constants::apart_to(constant, out).and(Ok(3)))
}

// A constant's canonic form, the places of its digits 1 and of its digits -1, over the front of out; answers how many there are.
pub fn tauwaage_canonic(constant: i32, out: &mut [u32]) -> i64
    ensures { Coded (λ a. WritesForm constant a out.old out.new) (λ n. n) result }
{
    codes::of(digits::canonic_to(constant, out).map(u64::from))
}
