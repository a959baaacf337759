// The generator: while wanted constants remain, a turn of the rule.
#![tactic(auto)]

mod draft;
mod first_choice;
mod remaining;
mod rule;

ghost use Rattle.std.specs.Prelude.{◌≡◌, [], ◌+◌, ◌*◌, ◌≤◌, length, Ok};
ghost use Rattle.meaning.specs.Basics.{over};
ghost use Rattle.meaning.specs.Limits.{limit as limits_limit, most_targets, most_rows};
ghost use Rattle.meaning.specs.Graph.{row_length, flat};
ghost use Rattle.meaning.specs.Refusals.{Accepted, admitted};
ghost use Rattle.meaning.specs.Calls.{Generates};
ghost use Rattle.search.specs.Marks.{State};
ghost use Rattle.generator.specs.Rule.{turned, Drawable};

use crate::draft::Draft;
use constants::wanted::wanted_of;
use meaning::{FULL_LENGTH, Refusal};
use search::ready::Ready;
use search::{LONG_MAP, SHORT_MAP};

// As many turns as there are constants.
#[tactic(auto, using(crate::proofs::Turns::turned_start, crate::proofs::Turns::turned_more))]
fn draw(map: &mut [u8], limit: u32, out: &mut [u32], wanted: &[u32]) -> Ready
    requires { Drawable limit map.old out.old wanted.now × (length wanted.now ≤ most_targets) }
    ensures { (result.count ≡ length (turned limit wanted.now) + 1) × (out.new ≡ over (flat (turned limit wanted.now)) out.old) }
{
    let mut draft = Draft::start(map, limit, out);
    for _ in 0..wanted.len() {
        let left = remaining::left(draft.set, wanted);
        draft.turn(&left);
    }
    draft.set
}

// The rows for an admitted list, by a map of zeros.
fn rows_by(map: &mut [u8], b: u32, ts: &[i32], out: &mut [u32]) -> u32
    requires { State (limits_limit b) map.old [] 0 × (admitted b ts.now ≡ Accepted) × (row_length * most_rows ≤ length out.old) }
    ensures { Generates b ts.now (Ok result) out.old out.new }
{
    let limit = arith::limit(b);
    let set = draw(map, limit, out, &wanted_of(ts));
    (set.count - 1) as u32
}

// The rows of the generator's rule from the front of out, and how many they are. Refusals 1, 2, 3, 4; a 129th row is never
// needed, so 8 does not come.
pub fn generate(b: u32, ts: &[i32], out: &mut [u32]) -> Result<u32, Refusal>
    ensures { Generates b ts.now result out.old out.new }
{
    constants::admit(b, ts)?;
    if out.len() < FULL_LENGTH {
        return Err(Refusal::Buffer);
    }
    // Each array stands where it is used: fixed memory, and only the one that serves is cleared.
    if search::short_serves(arith::limit(b)) {
        let mut short = [0u8; SHORT_MAP];
        return Ok(rows_by(&mut short, b, ts, out));
    }
    let mut long = [0u8; LONG_MAP];
    Ok(rows_by(&mut long, b, ts, out))
}
