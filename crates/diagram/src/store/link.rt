ghost use Rattle.std.specs.Prelude.{◌≡◌, ◌<◌, Some};
ghost use Rattle.diagram.specs.Nodes.{linked};

// Where a chain of the index goes on: at a node, or nowhere. It takes two bytes, where an Option
// takes four: a table has 6,144 of them.
#[derive(Clone, Copy)]
pub struct Link {
    // the number after the node's own, or 0 for no node
    after: u16,
}

impl Link {
    // To no node.
    pub(crate) const NONE: Link = Link { after: 0 };

    // To the node of this number.
    pub(crate) fn to(i: u16) -> Link
        requires { i < 65535 }
        ensures { linked result ≡ Some i }
    {
        Link { after: i + 1 }
    }

    // The node's number, if there is one.
    pub(crate) fn node(self) -> Option<u16>
        ensures { result ≡ linked self }
    {
        self.after.checked_sub(1)
    }
}
