// A list in a slice that a caller lends, since there is no heap: it grows from the front of the slice, and what is behind it stays as it was.
//   SliceVec    the list
ghost use Rattle.std.specs.Prelude.{◌≤◌, length};

#[derive(Drop)]
pub struct SliceVec<'a, T> {
    pub slice: &'a mut [T],
    pub len: usize,
    ghost fits: { len ≤ length slice.now },
}

impl<'a, T: Copy> SliceVec<'a, T> {
    ghost use Rattle.std.specs.Prelude.{◌≡◌, [], ◌∷◌, ◌+◌, ◌<◌, ◌≤◌, length, take};
    ghost use Rattle.counting.specs.SliceVecs.{Begun, Extended};

    // An empty list.
    pub fn new(slice: &'a mut [T]) -> SliceVec<'a, T>
        ensures { Begun slice.entry result }
    {
        SliceVec { slice, len: 0 }
    }

    pub fn push(&mut self, value: T)
        requires { self.old.len < length self.old.slice.now }
        ensures { Extended self.old (value ∷ []) self.new }
    {
        self.slice[self.len] = value;
        self.len += 1;
    }

    #[tactic(auto, using(crate::proofs::SliceVecs::part_put))]
    pub fn extend_from_slice(&mut self, values: &[T])
        requires { self.old.len + length values.now ≤ length self.old.slice.now }
        ensures { Extended self.old values.now self.new }
    {
        let end = self.len + values.len();
        self.slice[self.len..end].copy_from_slice(values);
        self.len = end;
    }

    pub fn as_slice(&self) -> &[T]
        ensures { result.now ≡ take self.now.len self.now.slice.now }
    {
        &self.slice[..self.len]
    }
}
