// Kinds of files (documents 01 and 02, "Frames" and L4), each by the kinds of its frames.
//   Layout                          a kind of file
//   GRAPH, STOCK, PATH, BARRIER     the files of document 01
//   PLAN, SHEET, BUDGET             a plan, a standing sheet, and what a budget of searches comes to
use formats::kinds::Kind;

// A kind of file: the header's kind and how many digits follow it, the kind or the two kinds of its body lines, of which each has four digits
// behind the kind, and the end frame's kind.
#[derive(Clone, Copy)]
pub struct Layout {
    pub header: Kind,
    pub header_size: usize,
    pub first: Kind,
    pub second: Option<Kind>,
    pub end: Kind,
}

pub const GRAPH: Layout = Layout {
    header: Kind::Graph,
    header_size: 4,
    first: Kind::Arc,
    second: None,
    end: Kind::GraphEnd,
};

pub const STOCK: Layout = Layout {
    header: Kind::Stock,
    header_size: 2,
    first: Kind::Fit,
    second: Some(Kind::Lit),
    end: Kind::StockEnd,
};

pub const PATH: Layout = Layout {
    header: Kind::Path,
    header_size: 0,
    first: Kind::Step,
    second: None,
    end: Kind::PathEnd,
};

pub const BARRIER: Layout = Layout {
    header: Kind::Barrier,
    header_size: 0,
    first: Kind::Class,
    second: None,
    end: Kind::BarrierEnd,
};

pub const PLAN: Layout = Layout {
    header: Kind::Plan,
    header_size: 2,
    first: Kind::Pair,
    second: None,
    end: Kind::PlanEnd,
};

pub const SHEET: Layout = Layout {
    header: Kind::Sheet,
    header_size: 2,
    first: Kind::Mark,
    second: None,
    end: Kind::SheetEnd,
};

pub const BUDGET: Layout = Layout {
    header: Kind::Budget,
    header_size: 6,
    first: Kind::Pair,
    second: None,
    end: Kind::BudgetEnd,
};
