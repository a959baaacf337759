// A list of at most N values as plain data, copied as one: for answers that a caller keeps, since the kit's ArrayVec is not `Copy`.
#![tactic(auto)]

ghost use Rattle.std.specs.Prelude.{⊤, ◌≡◌, ◌≤◌, take};
ghost use Rattle.few.specs.Places.{in_places};

use arrayvec::ArrayVec;
use std::alloc::AllocError;
use std::ops::DerefSlice;

// The values stand in front. It has no `Model`: what holds a struct with one cannot be passed on by value and used again.
#[derive(Copy)]
pub struct Few<T, const N: usize> {
    pub values: [T; N],
    pub count: usize,
}

impl<T: Copy, const N: usize> Few<T, N> {
    // A list's values, and blanks behind them.
    pub fn of(list: &ArrayVec<T, N>, blank: T) -> Self
        ensures value { result ≡ in_places blank N list.now.items }
        ensures fits { result.count ≤ N }
    {
        let mut values = [blank; N];
        let count = list.len();
        values[..count].copy_from_slice(list.as_slice());
        Few { values, count }
    }
}

impl<T: Copy, const N: usize> Clone for Few<T, N> {
    ghost is_clone = { λ f g. g ≡ f };

    ghost is_infallible = { λ _. ⊤ };

    fn clone(&self) -> Result<Self, AllocError> {
        Ok(*self)
    }
}

impl<T, const N: usize> DerefSlice for Few<T, N> {
    type Elem = T;

    ghost deref_gives = { λ f xs. xs ≡ take f.count f.values };

    #[tactic(auto, using(std::proofs::lemmas::List::take_min))]
    fn deref(&self) -> &[T] {
        let all: &[T] = &self.values;
        &all[..self.count.min(all.len())]
    }
}
