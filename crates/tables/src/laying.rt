use crate::common::first_piece;
use acl::header::Header;
use diagram::cube::Cube;
use diagram::table::{Denied, Table};
use model::node::Ref;
use orders::fixed::Plain;
use std::test::Fail;

// The first piece of a text, which permits.
fn piece(text: &[u8]) -> Result<Cube, Fail> {
    Ok(Cube::new(first_piece(text)?.asks(&Plain), 1))
}

const TEN: &[u8] = b"access-list 10 permit 10.0.0.0 0.255.255.255";

const WHOLE: &[u8] = b"access-list 100 permit tcp host 1.2.3.4 eq 5 host 6.7.8.9 eq 10";

// What laying the piece over deny answers in a table of this room, and the nodes there are then.
fn laid(room: usize, text: &[u8]) -> Result<(Result<Ref, Denied>, usize), Fail> {
    let cube = piece(text)?;
    let mut table = Table::new(room);
    let answer = table.lay(&cube, Ref::Code(0));
    Ok((answer, table.count()))
}

#[test]
fn room_just_suffices(rt: HostRuntime) -> Result<(), Fail> {
    assert_eq!(rt; laid(8, TEN)?, (Ok(Ref::Node(7)), 8));
    assert_eq!(rt; laid(7, TEN)?, (Err(Denied::Full), 0));
    assert_eq!(rt; laid(104, WHOLE)?, (Ok(Ref::Node(103)), 104));
    assert_eq!(rt; laid(103, WHOLE)?, (Err(Denied::Full), 0));
    Ok(())
}

#[test]
fn room_at_the_limit(rt: HostRuntime) -> Result<(), Fail> {
    assert_eq!(rt; laid(2048, TEN)?, (Ok(Ref::Node(7)), 8));
    assert_eq!(rt; laid(2049, TEN)?, (Err(Denied::Full), 0));
    assert_eq!(rt; laid(0, TEN)?, (Err(Denied::Full), 0));
    assert_eq!(rt;
        laid(0, b"access-list 10 permit any")?,
        (Ok(Ref::Code(1)), 0)
    );
    Ok(())
}

// A header's bits in the plain order.
fn bits(header: Header) -> [bool; 104] {
    std::array::from_fn(|place| header.bit(place as u32))
}

fn from(source: u32) -> [bool; 104] {
    bits(Header {
        source,
        ..Header::default()
    })
}

#[test]
fn walks(rt: HostRuntime) -> Result<(), Fail> {
    let mut table = Table::new(8);
    let root = lay(&mut table, TEN)?;
    assert_eq!(rt; table.decide(&from(0x0aff_0001), root), Ok((1, 8)));
    assert_eq!(rt; table.decide(&from(0x8000_0000), root), Ok((0, 1)));
    assert_eq!(rt; table.depth(root), Ok(8));
    assert_eq!(rt; table.depth(Ref::Code(5)), Ok(0));
    assert_eq!(rt; table.first_difference(root, root), Ok(None));
    assert_eq!(rt;
        table.first_difference(root, Ref::Code(0)),
        Ok(Some(from(0x0a00_0000)))
    );
    Ok(())
}

// What an earlier laying noted does not count, also where the numbers of rounds have started over.
#[test]
fn rounds_start_over(rt: HostRuntime) -> Result<(), Fail> {
    let mut table = Table::new(2048);
    let root = lay(&mut table, TEN)?;
    let asks = first_piece(b"access-list 10 permit 10.1.0.0 0.0.255.255")?.asks(&Plain);
    let (two, three) = (Cube::new(asks, 2), Cube::new(asks, 3));
    let over_two = table.lay(&two, root);
    let over_three = table.lay(&three, root);
    assert!(rt; over_two.is_ok() && over_three.is_ok() && over_two != over_three);
    for _ in 0..33_000 {
        assert_eq!(rt; table.lay(&two, root), over_two);
        assert_eq!(rt; table.lay(&three, root), over_three);
    }
    Ok(())
}

#[test]
fn no_such_node(rt: HostRuntime) -> Result<(), Fail> {
    let mut table = Table::new(8);
    let cube = piece(TEN)?;
    let far = Ref::Node(0);
    assert!(rt; !table.refers(far));
    assert_eq!(rt; table.lay(&cube, far), Err(Denied::NoNode));
    assert_eq!(rt; table.decide(&from(0), far), Err(Denied::NoNode));
    assert_eq!(rt; table.depth(far), Err(Denied::NoNode));
    assert_eq!(rt; table.first_difference(far, far), Err(Denied::NoNode));
    assert_eq!(rt; table.collect(&mut [far]), Err(Denied::NoNode));
    Ok(())
}

// Lays the piece of a text over deny.
fn lay(table: &mut Table, text: &[u8]) -> Result<Ref, Fail> {
    table
        .lay(&piece(text)?, Ref::Code(0))
        .map_err(|_| Fail::new("no room"))
}

#[test]
fn collecting(rt: HostRuntime) -> Result<(), Fail> {
    let mut table = Table::new(112);
    let a = lay(&mut table, TEN)?;
    let b = lay(&mut table, WHOLE)?;
    assert_eq!(rt; table.count(), 112);
    let mut roots = [b, a, b];
    assert_eq!(rt; table.collect(&mut roots), Ok(112));
    let mut one = [roots[1]];
    assert_eq!(rt; table.collect(&mut one), Ok(8));
    assert_eq!(rt; table.decide(&from(0x0aff_0001), one[0]), Ok((1, 8)));
    assert_eq!(rt; table.collect(&mut []), Ok(0));
    assert_eq!(rt; table.count(), 0);
    Ok(())
}
