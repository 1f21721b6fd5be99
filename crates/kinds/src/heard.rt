ghost use Rattle.std.specs.Prelude.{◌≤◌};

use acl::terms::Action;

// The number of a line in its list, 1 to 1,024.
#[derive(Clone, Copy, Debug, PartialEq, Eq)]
pub struct LineNumber {
    pub value: u16,
    ghost from_one: { 1 ≤ value },
    ghost to_limit: { value ≤ 1024 },
}

// What a verdict kind hears of a line. A kind that is to hear more gets it by a field here.
#[derive(Clone, Copy, Debug, PartialEq, Eq)]
pub struct Heard {
    pub action: Action,
    pub number: LineNumber,
}
