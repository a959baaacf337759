// Distance: how many operations make a target from a ready list.
#![tactic(auto)]

mod ready_list;

ghost use Rattle.std.specs.Prelude.{◌≡◌, ◌≤◌, length};
ghost use Rattle.meaning.specs.Distance.{distance as distance_distance};
ghost use Rattle.meaning.specs.Calls.{Distances};
ghost use Rattle.search.specs.Marks.{long_limit, OddsIn, State};
ghost use Rattle.distance.specs.Away.{Away};

use meaning::{Far, Refusal};
use search::{LONG_MAP, SHORT_MAP};

// The map of what one operation on the values reaches.
fn fill(map: &mut [u8], limit: u32, vals: &[u32])
    requires { State limit map.old vals.now 0 × OddsIn limit vals.now (length vals.now) }
    ensures { State limit map.new vals.now (length vals.now) }
{
    for (n, v) in vals.iter().enumerate() {
        search::add(map, limit, vals, n, *v);
    }
}

// One operation, two, or more, by a map of zeros.
fn beyond_by(map: &mut [u8], limit: u32, vals: &[u32], c: u32) -> Far
    requires { State limit map.old vals.now 0 × Away limit vals.now c }
    ensures { result ≡ distance_distance limit vals.now c }
{
    fill(map, limit, vals);
    if search::reached(map, c) {
        return Far::One;
    }
    if search::serving::served(map, limit, vals, vals.len(), c) {
        return Far::Two;
    }
    Far::Beyond
}

// The same by a map of its own: memory is fixed, and the long one takes longer to clear.
fn beyond_zero(limit: u32, vals: &[u32], c: u32) -> Far
    requires { (limit ≤ long_limit) × Away limit vals.now c }
    ensures { result ≡ distance_distance limit vals.now c }
{
    if search::short_serves(limit) {
        let mut short = [0u8; SHORT_MAP];
        return beyond_by(&mut short, limit, vals, c);
    }
    let mut long = [0u8; LONG_MAP];
    beyond_by(&mut long, limit, vals, c)
}

// The distance of c from the ready list, or the refusal.
pub fn distance(b: u32, vals: &[u32], c: u32) -> Result<Far, Refusal>
    ensures { Distances b vals.now c result }
{
    ready_list::admit(b, vals, c)?;
    if arith::has(vals, vals.len(), c) {
        return Ok(Far::Zero);
    }
    Ok(beyond_zero(arith::limit(b), vals, c))
}
