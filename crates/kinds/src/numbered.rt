ghost use Rattle.std.specs.Prelude.{◌≡◌, Some, None};
ghost use Rattle.kinds.specs.Kinds.{numbered_code};
ghost use Rattle.kinds.specs.Same.{decided_same};
ghost use Rattle.std.proofs.Common.{rules};

use crate::heard::Heard;
use crate::kind::Kind;

// The numbered kind tells the line that decides, or none at the end of the list: 2 × its number,
// plus 1 for permit; the end is 0.
#[derive(Clone, Copy, Debug, PartialEq, Eq)]
pub struct Numbered;

impl Kind for Numbered {
    type Verdict = Option<Heard>;

    ghost line = { λ _ x. Some x };

    ghost last = { λ _. None };

    ghost coded = { λ _ v. numbered_code v };

    ghost laws = { λ _. record { small = Prim.search rules; apart = decided_same } };

    fn of_line(&self, heard: Heard) -> Option<Heard> {
        Some(heard)
    }

    fn at_end(&self) -> Option<Heard> {
        None
    }

    fn code(&self, verdict: Option<Heard>) -> u16 {
        verdict.map_or(0, |heard| 2 * heard.number.value + u16::from(heard.action))
    }
}
