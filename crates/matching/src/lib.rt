// Theory without code: pairings of cameras, largest pairings, marks and plans (document 001, section 2.1).
//   specs/Stock, Promise                 the definitions of document 03, with the marks of document 02's L2, and what is promised of every well-formed stock
//   proofs/Promises                      the greatest number of pairs and the marks, by all pairings; some plan for every stock
//   specs/LookUp, proofs/LookUp          the look-up of a pair among fits (document 02, L3): what it finds, and how many fits it looks at
// Why a pairing without an augmenting path is largest (Gallai and Edmonds):
//   specs/Matching, DoubledTable         A pairing is an involution p on cameras. Its doubled table is a skew-symmetric graph: camera k is 2k and 2k+1.
//   specs/Rotation, proofs/Augmentation  A path of this graph from the source to its mate is an augmenting path: rotations along it turn p into a pairing
//                                        with one pair more, in which every lit camera is still lit.
//   proofs/Groups, Decomposition         Without one the canonical barrier gives the dual solution (specs/Certificate): outer cameras, with 2k reachable,
//                                        in groups, each with a representative; inner ones, with 2k+1 alone reachable. What an outer camera fits is of its
//                                        group or inner. p pairs the others of a group among themselves; it leaves over representatives alone, and pairs
//                                        the rest of them with the inner cameras. So p leaves over as many cameras as there are groups less inner ones.
//   proofs/Certificates                  The bound: groups are odd, so every pairing leaves over a camera of each group, or pairs it with an inner one. No
//                                        pairing leaves over fewer cameras than groups less inner ones. For p the bound is tight, and so p is largest.
//   proofs/Largest                       So p has the greatest number of pairs, and the outer cameras are those that some largest pairing leaves over:
//                                        the marks of cameras that have a fit are read off the reachable nodes. The fits alone tell the others.
//   proofs/Plans                         From the lit pairs, path by path until there is none: a plan, or the lit pairs themselves if they are largest.
#![tactic(auto)]
