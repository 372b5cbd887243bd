// Nodes and arcs by number.
//   mate_of         the mate of a node or an arc
ghost use Rattle.std.specs.Prelude.{◌≡◌, ◌<◌};
ghost use Rattle.formats.specs.Limits.{arcs_most};
ghost use Rattle.skew.specs.Graph.{mate};

// The mate of a node, or of an arc.
pub fn mate_of(v: usize) -> usize
    requires { v < arcs_most }
    ensures { result ≡ mate v }
{
    if v % 2 == 0 { v + 1 } else { v - 1 }
}
