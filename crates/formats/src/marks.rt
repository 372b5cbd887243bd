// Marks of cameras (document 01, "Stocks"; document 02, L2), by their numbers.
//   Mark        a mark
ghost use Rattle.std.specs.Prelude.{◌≡◌};

#[derive(Clone, Copy, PartialEq, Eq)]
pub enum Mark {
    // some largest pairing leaves the camera over
    Outer = 0,
    // none does, and the camera fits an outer one
    Inner = 1,
    // none does, and it fits none
    Other = 2,
    // the camera has no fit at all
    NoFit = 3,
}

impl From<Mark> for u8 {
    ghost use Rattle.formats.specs.Marks.{mark_number};

    ghost from_gives = { λ mark number. number ≡ mark_number mark };

    fn from(mark: Mark) -> u8 {
        mark as u8 // kept: of an enum there is no other way to its number
    }
}
