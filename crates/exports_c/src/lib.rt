// The calls for C: include/tauwaage.h. Each is the call of the crate exports, under the same clauses: a crate is a library, as that one, or a static
// library, as this.
#![tactic(auto)]

ghost use Rattle.std.specs.Prelude.{◌+◌, length};
ghost use Rattle.meaning.specs.Calls.{Checks, Distances, TakesApart, WritesForm, Generates, Multiplies, Measures, Ranks, Prints};
ghost use Rattle.exports.specs.Codes.{operations, Coded};

// The rows of the generator's rule over the front of words; answers how many they are.
#[unsafe(no_mangle)]
pub extern "C" fn tauwaage_generate(bits: u32, targets: &[i32], words: &mut [u32]) -> i64
    ensures { Coded (λ a. Generates bits targets.now a words.old words.new) (λ n. n) result }
{
    exports::tauwaage_generate(bits, targets, words)
}

// Checks any graph; answers 0.
#[unsafe(no_mangle)]
pub extern "C" fn tauwaage_check(bits: u32, targets: &[i32], rows: usize, words: &[u32]) -> i64
    ensures { Coded (λ a. Checks bits targets.now rows words.now a) (λ _. 0) result }
{
    exports::tauwaage_check(bits, targets, rows, words)
}

// A product for each target over the front of out; answers how many they are.
#[unsafe(no_mangle)]
pub extern "C" fn tauwaage_products(
    bits: u32,
    targets: &[i32],
    rows: usize,
    words: &[u32],
    x: i32,
    out: &mut [i64],
) -> i64
    ensures { Coded (λ a. Multiplies bits targets.now rows words.now x a out.old out.new) (λ _. length targets.now) result }
{
    exports::tauwaage_products(bits, targets, rows, words, x, out)
}

// The widths of the rows and then of the outputs over the front of out; answers how many they are.
#[unsafe(no_mangle)]
pub extern "C" fn tauwaage_widths(
    bits: u32,
    targets: &[i32],
    rows: usize,
    words: &[u32],
    input: u32,
    out: &mut [u32],
) -> i64
    ensures { Coded (λ a. Measures bits targets.now rows words.now input a out.old out.new) (λ _. rows + length targets.now) result }
{
    exports::tauwaage_widths(bits, targets, rows, words, input, out)
}

// The row numbers, widest first, over the front of out; answers how many they are.
#[unsafe(no_mangle)]
pub extern "C" fn tauwaage_ranking(
    bits: u32,
    targets: &[i32],
    rows: usize,
    words: &[u32],
    input: u32,
    out: &mut [u32],
) -> i64
    ensures { Coded (λ a. Ranks bits targets.now rows words.now input a out.old out.new) (λ _. rows) result }
{
    exports::tauwaage_ranking(bits, targets, rows, words, input, out)
}

// How far a constant is from a ready list: 0, 1, 2, and 3 for beyond.
#[unsafe(no_mangle)]
pub extern "C" fn tauwaage_distance(bits: u32, ready: &[u32], target: u32) -> i64
    ensures { Coded (λ a. Distances bits ready.now target a) operations result }
{
    exports::tauwaage_distance(bits, ready, target)
}

// A job's listing, or the line of its refusal, over the front of out; answers its bytes.
#[unsafe(no_mangle)]
pub extern "C" fn tauwaage_job(text: &[u8], out: &mut [u8]) -> i64
    ensures { Coded (λ a. Prints text.now a out.old out.new) (λ n. n) result }
{
    exports::tauwaage_job(text, out)
}

// A constant taken apart: sign, shift and odd part over the front of out; answers 3.
#[unsafe(no_mangle)]
pub extern "C" fn tauwaage_apart(constant: i32, out: &mut [i32]) -> i64
    ensures { Coded (λ a. TakesApart constant a out.old out.new) (λ _. 3) result }
{
    exports::tauwaage_apart(constant, out)
}

// A constant's canonic form, the places of its digits 1 and of its digits -1, over the front of out; answers how many there are.
#[unsafe(no_mangle)]
pub extern "C" fn tauwaage_canonic(constant: i32, out: &mut [u32]) -> i64
    ensures { Coded (λ a. WritesForm constant a out.old out.new) (λ n. n) result }
{
    exports::tauwaage_canonic(constant, out)
}
