// Which of two headers comes first.
ghost use Rattle.std.specs.Prelude.{MatchBool};
ghost use Rattle.orders.specs.Meanings.{order_of, Before};

use crate::order::Order;
use acl::header::{Header, WIDTH};

// Whether one header is before another: it has 0 at the first place where they differ.
pub fn is_before<O: Order>(order: &O, one: Header, other: Header) -> bool
    ensures { MatchBool result (Before (order_of O.Order order.now) one other) (Before (order_of O.Order order.now) one other → ⊥) }
{
    for place in 0..WIDTH {
        let bit = order.bit_at(place) as u32;
        let here = one.bit(bit);
        if here != other.bit(bit) {
            return !here;
        }
    }
    false
}
