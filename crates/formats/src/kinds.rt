// Kinds of frames (document 01, "Frames"): of each file its header, its body lines and its end; and the programs' own lines.
//   Kind        a kind, by the number in a frame's first two digits
ghost use Rattle.std.specs.Prelude.{◌≡◌};

#[derive(Clone, Copy, PartialEq, Eq)]
pub enum Kind {
    Graph = 0x01,
    Arc = 0x02,
    GraphEnd = 0x0F,
    // a stock: fits, then lit pairs
    Stock = 0x11,
    Fit = 0x12,
    Lit = 0x13,
    StockEnd = 0x1F,
    // a path: arc numbers
    Path = 0x21,
    Step = 0x22,
    PathEnd = 0x2F,
    // a barrier: node and class
    Barrier = 0x31,
    Class = 0x32,
    BarrierEnd = 0x3F,
    // a standing sheet: camera and mark
    Sheet = 0x41,
    Mark = 0x43,
    SheetEnd = 0x4F,
    Plan = 0x51,
    Pair = 0x52,
    PlanEnd = 0x5F,
    // what a budget of searches comes to (document 02, L4): its lines are a plan's
    Budget = 0x61,
    BudgetEnd = 0x6F,
    // a check's yes or no, and a refusal
    Verdict = 0x7A,
    Refusal = 0x7E,
}

impl From<Kind> for usize {
    ghost use Rattle.formats.specs.Kinds.{kind_number};

    ghost from_gives = { λ kind number. number ≡ kind_number kind };

    fn from(kind: Kind) -> usize {
        kind as usize // kept: of an enum there is no other way to its number
    }
}
