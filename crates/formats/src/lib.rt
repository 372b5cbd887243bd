// What documents 01 and 02 fix in numbers, each under one name; specs/ has those that contracts and definitions name.
//   kinds       the kinds of frames
//   refusals    the questions that can be answered no
//   limits      how large files, graphs, stocks and answers may be
//   classes     the classes of a barrier's nodes
//   marks       the marks of a standing sheet's cameras
#![tactic(auto)]

pub mod classes;
pub mod kinds;
pub mod limits;
pub mod marks;
pub mod refusals;
