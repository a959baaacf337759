// The results of operations on two values, u as it is and v shifted: sum and difference, shift after shift. Both values are odd and
// below 2^limit, so once v is shifted so far that even the difference is not below 2^limit, no greater shift gives anything.
ghost use Rattle.std.specs.Prelude.{◌≡◌, ◌+◌, ◌^◌, ◌≤◌, ◌<◌};
ghost use Rattle.std.specs.Iterator.{YieldsFirst, item_count};
ghost use Rattle.meaning.specs.Limits.{most_limit};

#[derive(Drop)]
pub struct Results {
    a: u64,
    v: u32,
    far: u64,
    l: u32,
    end: u32,
    ghost fits: { (a < 2 ^ 32) × (end ≤ most_limit + 1) },
}

impl Results {
    ghost use Rattle.search.specs.Walk.{to_come, pairs_from};

    pub fn new(limit: u32, u: u32, v: u32) -> Results
        requires { limit ≤ most_limit }
        ensures { to_come result ≡ pairs_from u v (u + 2 ^ limit) 0 (limit + 1) }
    {
        let a = u64::from(u);
        let far = a + arith::power(limit);
        Results {
            a,
            v,
            far,
            l: 0,
            end: limit + 1,
        }
    }
}

impl Iterator for Results {
    ghost use Rattle.search.specs.Walk.{to_come};

    type Item = (u64, u64);

    ghost next_gives = { YieldsFirst to_come };

    ghost remaining = { item_count to_come };

    fn next(&mut self) -> Option<(u64, u64)> {
        if self.end <= self.l {
            return None;
        }
        let w = arith::shifted(self.v, self.l);
        if w >= self.far {
            return None;
        }
        self.l += 1;
        Some((self.a + w, arith::difference(self.a, w)))
    }
}
