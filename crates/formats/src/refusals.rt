// Refusals: the questions put to a call that can be answered no (documents 01 and 02), by their numbers.
//   Refusal     a question answered no
ghost use Rattle.std.specs.Prelude.{◌≡◌};

#[derive(Clone, Copy, Debug, PartialEq, Eq)]
pub enum Refusal {
    // the buffer has too little room for an answer
    Room = 1,
    // the file has too many bytes
    Length = 2,
    // it is not whole lines of digits
    Lines = 3,
    // its first line is not the header of this kind of file
    Header = 4,
    // a number of the header is out of range
    Numbers = 5,
    // a line is neither a body frame in its place nor the end frame
    Body = 6,
    // the end frame, or a plan's header, tells another number of body frames
    Count = 7,
    // there are too many body frames, or not as many as it takes
    Size = 8,
    // a number names nothing
    Names = 9,
    // an arc is not the mate of the one before
    Mates = 10,
    // fits do not rise
    FitsRise = 11,
    // lit pairs do not rise
    PairsRise = 12,
    // a lit pair is no fit
    PairsFit = 13,
    // a camera is in two pairs
    Shared = 14,
    // the budget has too many searches
    Searches = 15,
    // an arc leads from a node to itself
    SelfArc = 16,
    // no caller has this number
    Caller = 17,
    // nothing is kept under the name
    NotKept = 18,
    // as many names are kept as there is room for
    Full = 19,
}

impl From<Refusal> for u8 {
    ghost use Rattle.formats.specs.Refusals.{refusal_number};

    ghost from_gives = { λ refusal number. number ≡ refusal_number refusal };

    fn from(refusal: Refusal) -> u8 {
        refusal as u8 // kept: of an enum there is no other way to its number
    }
}
