// The mathematics of stages, parts and diagrams: no engine code, but the theorems that the
// engine's proof rests on, what a piece asks of a bit, and the nodes and references of a diagram.
#![tactic(auto)]

ghost use Rattle.model.specs.Rulings.{Ruling};
ghost use Rattle.model.specs.Stands.{ReferencesStand, AllNodesStand, AllCountsStand, PruningStands};

pub mod ask;
pub mod node;

// The theorems, for every width and every sort of header, line and verdict. It has no work to
// do: its contract is what is proved.
//
// - references: two references with the same value for all bits are the same reference;
//   different ones have a first row of bits at which they differ, and it is computed.
// - nodes: the nodes reached from a reference are, one to one, the parts of its function, so
//   that nodes are counted as parts.
// - counts: every family of parts that a fit speaks of has a count, and one only.
// - pruning: from the last line to the first, it keeps every verdict and leaves no idle line.
pub fn theorems_stand<H, L, V>()
    ensures references { ReferencesStand }
    ensures nodes { AllNodesStand }
    ensures counts { AllCountsStand }
    ensures pruning { (r : Ruling H L V) → PruningStands r }
{}
