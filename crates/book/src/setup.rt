ghost use Rattle.std.specs.Prelude.{◌≡◌};
ghost use Rattle.book.specs.Setup.{nodes_checked};

use acl::refusal::Refusal;

// The most nodes that a shelf can have.
pub const MOST_NODES: usize = 2048;

// Whether a shelf can be made for so many nodes.
pub fn check_nodes(nodes: usize) -> Result<(), Refusal>
    ensures { result ≡ nodes_checked nodes }
{
    if nodes > MOST_NODES {
        return Err(Refusal::TooManyNodes);
    }
    Ok(())
}
