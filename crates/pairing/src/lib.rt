// Largest pairings of cameras by augmenting paths. A pairing is a row of partners, one byte for each camera, its own number where it is unlit.
//   stock      a stock that is lent
//   row        rows read from pairs, rotated along a path, written as pairs
//   table      the doubled table of a row
//   marks      marks read off the fits and a table of reached nodes
//   plan       largest pairings: plans and standing sheets
#![tactic(auto)]

mod marks;
pub mod plan;
mod row;
pub mod stock;
mod table;
