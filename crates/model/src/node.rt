// A reference into a diagram: a verdict's code, or a node by its number.
#[derive(Clone, Copy, Debug, PartialEq, Eq)]
pub enum Ref {
    Code(u16),
    Node(u16),
}

// A node tests the bit at its place, and goes on low where it is 0 and high where it is 1.
#[derive(Clone, Copy, Debug, PartialEq, Eq)]
pub struct Node {
    pub place: u8,
    pub low: Ref,
    pub high: Ref,
}
