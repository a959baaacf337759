// The wanted constants that are left to serve.
ghost use Rattle.std.specs.Prelude.{◌≡◌, ◌≤◌, length};
ghost use Rattle.meaning.specs.Limits.{most_targets};
ghost use Rattle.meaning.specs.Generator.{remaining};
ghost use Rattle.search.specs.Held.{listed};

use arrayvec::ArrayVec;
use meaning::MOST_TARGETS;
use search::ready::Ready;

// The wanted constants that are not ready.
#[tactic(auto, using(crate::proofs::RemainingLaws::sift_start, crate::proofs::RemainingLaws::sift_end))]
pub fn left(set: Ready, wanted: &[u32]) -> ArrayVec<u32, MOST_TARGETS>
    requires { length wanted.now ≤ most_targets }
    ensures { result.items ≡ remaining (listed set) wanted.now }
{
    let mut left = ArrayVec::new();
    for c in wanted {
        if !arith::has(&set.values, set.count, *c) {
            left.push(*c);
        }
    }
    left
}
