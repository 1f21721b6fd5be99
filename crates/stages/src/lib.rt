// Lists under an order and a kind: the verdict of the first line that fits, which the last
// stage gives too, and what holds of stages and parts.
#![tactic(auto)]

ghost use Rattle.std.specs.Prelude.{◌≡◌};
ghost use Rattle.model.specs.Rulings.{verdict};
ghost use Rattle.model.specs.Stands.{PruningStands};
ghost use Rattle.kinds.specs.Kinds.{kind_of};
ghost use Rattle.stages.specs.Lists.{ruling};
ghost use Rattle.stages.specs.Stands.{StagesStand, AlikeStands, FitsStand};

use acl::fitting::first_match;
use acl::header::Header;
use acl::line::Line;
use kinds::heard::Heard;
use kinds::kind::Kind;

// The code of a list's verdict for a header: that of the first line that fits, or else that of
// the end. The number of lines has no limit here.
pub fn verdict_code<K: Kind>(kind: &K, lines: &[Line], header: Header) -> u16
    ensures answer { result ≡ (kind_of K.Kind kind.now).code (verdict (ruling (kind_of K.Kind kind.now)) lines.now header) }
    ensures stages { StagesStand (kind_of K.Kind kind.now) }
    ensures alike { AlikeStands (kind_of K.Kind kind.now) }
    ensures fits { FitsStand (kind_of K.Kind kind.now) }
    ensures pruning { PruningStands (ruling (kind_of K.Kind kind.now)) }
{
    let found = first_match(lines, header);
    let verdict = found.map_or_else(|| kind.at_end(), |line| kind.of_line(Heard::from(line)));
    kind.code(verdict)
}
