ghost use Rattle.std.specs.Prelude.{◌≡◌, true};
ghost use Rattle.acl.specs.Terms.{ordered};

use acl::terms::PortTest;

// A port test as a side takes it: a range never runs backward.
#[derive(Clone, Copy)]
pub(crate) struct SidePorts {
    pub test: PortTest,
    ghost forward: { ordered test ≡ true },
}

impl SidePorts {
    pub(crate) const ANY: SidePorts = SidePorts {
        test: PortTest::Any,
    };
}
