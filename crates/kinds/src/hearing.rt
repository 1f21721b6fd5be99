// What a kind hears of a given line.
ghost use Rattle.std.specs.Prelude.{◌≡◌};
ghost use Rattle.kinds.specs.Kinds.{heard_of};

use crate::heard::{Heard, LineNumber};
use acl::line::Line;

impl From<Line> for Heard {
    ghost from_gives = { λ line heard. heard ≡ heard_of line };

    fn from(line: Line) -> Heard {
        Heard {
            action: line.action,
            number: LineNumber { value: line.number },
        }
    }
}
