ghost use Rattle.std.specs.Prelude.{◌≡◌};
ghost use Rattle.acl.specs.Terms.{action_number};
ghost use Rattle.acl.specs.declared.terms.Action.TheVariants.{Deny};
ghost use Rattle.std.proofs.Common.{rules};

use crate::heard::Heard;
use crate::kind::Kind;
use acl::terms::Action;

// What the end of a list says.
const AT_END: Action = Action::Deny;

// The bare kind tells the action alone: deny is 0, permit is 1, and the end of a list denies.
#[derive(Clone, Copy, Debug, PartialEq, Eq)]
pub struct Bare;

impl Kind for Bare {
    type Verdict = Action;

    ghost line = { λ _ x. x.action };

    ghost last = { λ _. Deny };

    ghost coded = { λ _ a. action_number a };

    ghost laws = { Prim.search rules };

    fn of_line(&self, heard: Heard) -> Action {
        heard.action
    }

    fn at_end(&self) -> Action {
        AT_END
    }

    fn code(&self, verdict: Action) -> u16 {
        u16::from(verdict)
    }
}
