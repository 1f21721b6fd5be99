ghost use Rattle.std.specs.Prelude.{◌≡◌, ℕ};
ghost use Rattle.kinds.specs.declared.heard.Heard.{Heard};
ghost use Rattle.kinds.specs.Laws.{LawfulKind};

use crate::heard::Heard;

// A kind of verdict: the verdict of a line, the verdict at the end of a list, and a verdict's
// code. Codes are 0 to 4,095, and two verdicts are equal exactly when their codes are.
pub trait Kind {
    type Verdict: Copy;

    ghost line: { Self → Heard → Self.Verdict };

    ghost last: { Self → Self.Verdict };

    ghost coded: { Self → Self.Verdict → ℕ };

    fn of_line(&self, heard: Heard) -> Self::Verdict
        ensures { result ≡ line self.now heard };

    fn at_end(&self) -> Self::Verdict
        ensures { result ≡ last self.now };

    fn code(&self, verdict: Self::Verdict) -> u16
        ensures { result ≡ coded self.now verdict };

    ghost laws: { (k : Self) → LawfulKind (record { of_line = line k; at_end = last k; code = coded k }) };
}
