// How many bits a value, a row and an output take.
ghost use Rattle.std.specs.Prelude.{◌≡◌, ◌≤◌};
ghost use Rattle.meaning.specs.Widths.{extra_bits, row_width, output_width};

// The least e with 2^e at least value.
pub fn extra_bits(value: u32) -> u32
    ensures { result ≡ extra_bits value }
{
    if value == 0 {
        return 0;
    }
    32 - (value - 1).leading_zeros()
}

// The width of a row of this value.
pub fn row_width(value: u32, input: u32) -> u32
    requires { input ≤ 32 }
    ensures { result ≡ row_width input value }
{
    input + extra_bits(value)
}

// The width of a target's output.
#[tactic(auto, using(crate::proofs::Outputs::zero_output))]
pub fn output_width(t: i32, input: u32) -> u32
    requires { input ≤ 32 }
    ensures { result ≡ output_width input t }
{
    let m = arith::magnitude(t);
    if m == 0 {
        return 1;
    }
    input + extra_bits(m)
}
