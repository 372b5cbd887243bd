// Theory that the other crates' proofs count with, stated once over finite lists; and what all crates keep pairs and lists in.
//   Pair         two numbers of a byte each
//   slice_vec    a lent slice that is filled from the front
#![tactic(auto)]

pub mod slice_vec;

ghost use Rattle.std.specs.Prelude.{◌≡◌, ◌<◌};

// A fit's two cameras, or the two numbers of a body frame. Pairs are ordered by the first number, then by the second.
#[derive(Clone, Copy, Default, PartialEq, Eq, PartialOrd, Ord)]
pub struct Pair {
    pub first: u8,
    pub second: u8,
}

impl Pair {
    // Both numbers, as places in a table.
    // kept beside skew::Arc::ends: of other fields; a trait for both would be longer than they are
    pub fn numbers(self) -> (usize, usize)
        ensures first { result.0 ≡ self.first }
        ensures second { result.1 ≡ self.second }
        ensures bytes { (result.0 < 256) × (result.1 < 256) }
    {
        (usize::from(self.first), usize::from(self.second))
    }
}

// The two bytes as one number, the first the higher.
impl From<Pair> for u16 {
    ghost use Rattle.std.specs.Prelude.{◌≡◌};
    ghost use Rattle.counting.specs.Pairs.{number_of};

    ghost from_gives = { λ pair number. number ≡ number_of pair };

    fn from(pair: Pair) -> u16 {
        u16::from_be_bytes([pair.first, pair.second])
    }
}
