// Files read and answers written (document 01, "Frames" and "Questions put to a call"). What is read stands in slices that the caller lends.
//   look_up      a pair looked up among fits
//   questions    questions 9 to 14 and 16, over the numbers of a file
//   graphs       graph files read
//   stocks       stock files read
//   plans        plan files read
//   certificates paths and barriers read
//   answers      answers written into a lent buffer
#![tactic(auto)]

pub mod answers;
pub mod certificates;
pub mod graphs;
pub mod look_up;
pub mod plans;
mod questions;
pub mod stocks;
