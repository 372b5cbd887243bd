// Classes of nodes (document 01, "The barrier").
//   M             the nodes of no other class
//   A, A_MATE     A, where the source is, and the mates of its nodes
//   FIRST_PART    X1; the parts after it have the numbers after this one
// kept: bytes, and no enum: document 01 has the class table as 256 bytes, and a barrier that is judged may have any byte as a class
pub const M: u8 = 0;

pub const A: u8 = 1;

pub const A_MATE: u8 = 2;

pub const FIRST_PART: u8 = 3;
