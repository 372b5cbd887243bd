// Graphs as a caller lends them. Nodes and arcs go by their numbers.
//   graph      a graph that is lent
//   node       mates of nodes and arcs
#![tactic(auto)]

pub mod graph;
pub mod node;
