// Texts in slices of bytes: what stands at a place, a number there, and a line of a form. A text and a place are two parameters, as in the
// definitions: what is read hands back the place behind it.
#![tactic(auto)]

pub mod decimal;
pub mod forms;

ghost use Rattle.std.specs.Prelude.{◌≡◌, [], ◌∷◌};
ghost use Rattle.meaning.specs.Text.{stands as text_stands};

// These bytes stand in s from a place on. No byte is behind the end, so a text of none stands there too.
pub fn stands(s: &[u8], from: usize, text: &[u8]) -> bool
    ensures { result ≡ text_stands text.now s.now from }
{
    s.get(from..).unwrap_or_default().starts_with(text)
}

// This byte stands there.
#[tactic(auto, using(std::proofs::lemmas::Bool::Decides::nat_tests), unfolding(meaning::specs::Text::stands))]
pub fn is(s: &[u8], at: usize, b: u8) -> bool
    ensures { result ≡ text_stands (b ∷ []) s.now at }
{
    s.get(at) == Some(&b)
}
