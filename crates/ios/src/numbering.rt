// The line that an entry makes under a number.
ghost use Rattle.std.specs.Prelude.{◌≡◌, ◌≤◌};
ghost use Rattle.acl.specs.Shapes.{shape};
ghost use Rattle.ios.specs.Entries.{entry_shape, numbered};

use crate::entry::Entry;
use acl::line::Line;

impl Entry {
    pub(crate) fn numbered(self, number: u16) -> Line
        requires { (1 ≤ number) × (number ≤ 1024) }
        ensures { shape result ≡ numbered number (entry_shape self) }
    {
        let Entry {
            action,
            protocol,
            log,
            source,
            destination,
        } = self;
        Line {
            action,
            number,
            protocol,
            log,
            source,
            destination,
        }
    }
}
