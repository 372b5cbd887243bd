// Limits (document 01, "Questions put to a call"), each with the question that asks for it.
//   CALLERS            17: sets of counts in a tally; a caller's number is below it
//   ROOM               1: bytes of an answer's buffer, at least
//   FILE_MOST          2: bytes of a file
//   LINES_MOST         lines that a file of so many bytes can have behind a header, each of seven bytes at least
//   MATE_PAIRS_MOST    5: mate pairs of a graph
//   NODES_MOST         nodes of a graph: two of each mate pair
//   CAMERAS_MOST       5: cameras of a stock
//   PAIRS_MOST         pairs of a stock's pairing, at most: half its cameras
//   PLAN_PAIRS_MOST    7: pairs that a plan's header can tell
//   ARCS_MOST          8: arcs of a graph
//   FITS_MOST          8: fits of a stock
//   STEPS_MOST         8: lines of a path
//   CLASS_MOST         9: the highest class
//   SEARCHES_MOST      15: searches of a budget, enough for a plan of every stock
//   NAMES_MOST         19: names under which pairings are kept
pub const CALLERS: usize = 4;

pub const ROOM: usize = 2048;

pub const FILE_MOST: usize = 60000;

pub const LINES_MOST: usize = 8571;

pub const MATE_PAIRS_MOST: usize = 0x80;

pub const NODES_MOST: usize = 2 * MATE_PAIRS_MOST;

pub const CAMERAS_MOST: usize = 0x7F;

pub const PAIRS_MOST: usize = 63;

pub const PLAN_PAIRS_MOST: usize = 255;

pub const ARCS_MOST: usize = 8192;

pub const FITS_MOST: usize = 3900;

pub const STEPS_MOST: usize = 255;

pub const CLASS_MOST: u8 = 0x82;

pub const SEARCHES_MOST: usize = 64;

pub const NAMES_MOST: usize = 8;
