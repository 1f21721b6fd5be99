// The terms that a line is made of.
ghost use Rattle.std.specs.Prelude.{◌≡◌, Some};
ghost use Rattle.acl.specs.Terms.{action_number, action_text};

use std::fmt;

// What a line does with the headers that it fits.
#[derive(Clone, Copy, Debug, PartialEq, Eq)]
pub enum Action {
    Deny = 0,
    Permit = 1,
}

impl From<Action> for u16 {
    ghost from_gives = { λ action n. n ≡ action_number action };

    fn from(action: Action) -> u16 {
        action as u16
    }
}

impl Action {
    pub fn text(self) -> &'static str
        ensures { result.now ≡ action_text self }
    {
        match self {
            Action::Deny => "deny",
            Action::Permit => "permit",
        }
    }
}

impl fmt::Display for Action {
    ghost output = { λ a. Some (action_text a) };

    fn fmt<W: fmt::Write>(&self, f: &mut fmt::Formatter<W>) -> fmt::Result {
        f.write_str(self.text())
    }
}

// The protocols that a line fits: any, or one of 0 to 255.
#[derive(Clone, Copy, Debug, PartialEq, Eq)]
pub enum Protocol {
    Any,
    Number(u8),
}

// The ports that a side fits; a range holds both its ends.
#[derive(Clone, Copy, Debug, PartialEq, Eq)]
pub enum PortTest {
    Any,
    Eq(u16),
    Neq(u16),
    Lt(u16),
    Gt(u16),
    Range(u16, u16),
}
