// Certificates judged (document 01, "The graph" and "The barrier"): given a graph, is a run of arcs the wanted path, is a table of classes a barrier?
//   path       is a run of arcs the wanted path?
//   barrier    is a table of classes a barrier?
#![tactic(auto)]

pub mod barrier;
pub mod path;
