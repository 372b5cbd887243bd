// Files of hexadecimal frames: read and written.
#![tactic(auto)]

pub mod ask; // a question answered yes, or its refusal
pub mod layout; // kinds of files, by the kinds of their frames
mod lines; // where a line ends, the lines one by one, and whether a file is whole lines of digits
pub mod numbers; // digits, and numbers of some digits
pub mod shape; // questions 2 to 7, the same for every kind of file
pub mod store; // body frames into a lent slice
pub mod write; // frames into a lent buffer, and the first line of a barrier compared
