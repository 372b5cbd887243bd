// Skew-symmetric graphs searched. The caller lends the graph.
//   steps      tree step and bud step
//   queue      the queue of reached nodes
//   state      the order of the steps: node by node, as the queue has them
//   restore    the path found, restored through its buds
//   classes    the canonical barrier's class table
//   answer     a path, or the reachable nodes, or the barrier
#![tactic(auto)]

pub mod answer;
mod classes;
mod queue;
mod restore;
mod state;
mod steps;
