use crate::common::{first_line, first_piece, read_good};
use acl::header::Header;
use acl::line::Line;
use acl::terms::PortTest;
use kinds::bare::Bare;
use kinds::heard::Heard;
use kinds::kind::Kind;
use kinds::numbered::Numbered;
use model::ask::{Ask, is_met};
use orders::fixed::{Plain, Woven};
use pieces::block::Blocks;
use pieces::piece::Pieces;
use stages::verdict_code;
use std::test::Fail;

// Whether a port test has just these blocks, each by its start and size.
fn cut(test: PortTest, blocks: &[(u32, u32)]) -> bool {
    Blocks::of(test)
        .map(|block| (block.start, block.size()))
        .eq(blocks.iter().copied())
}

#[test]
fn blocks(rt: HostRuntime) {
    assert!(rt; cut(PortTest::Range(23, 27), &[(23, 1), (24, 4)]));
    assert!(rt; cut(PortTest::Range(0, 65535), &[(0, 65536)]));
    assert!(rt; cut(PortTest::Any, &[(0, 65536)]));
    let all_but_three = [
        (0, 2),
        (2, 1),
        (4, 4),
        (8, 8),
        (16, 16),
        (32, 32),
        (64, 64),
        (128, 128),
        (256, 256),
        (512, 512),
        (1024, 1024),
        (2048, 2048),
        (4096, 4096),
        (8192, 8192),
        (16384, 16384),
        (32768, 32768),
    ];
    assert!(rt; cut(PortTest::Neq(3), &all_but_three));
}

#[test]
fn blocks_at_the_ends(rt: HostRuntime) {
    assert!(rt; cut(PortTest::Eq(0), &[(0, 1)]));
    assert!(rt; cut(PortTest::Eq(65535), &[(65535, 1)]));
    assert!(rt; cut(PortTest::Lt(0), &[]));
    assert!(rt; cut(PortTest::Lt(1), &[(0, 1)]));
    assert!(rt; cut(PortTest::Gt(65535), &[]));
    assert!(rt; cut(PortTest::Gt(65534), &[(65535, 1)]));
}

#[test]
fn blocks_counted(rt: HostRuntime) {
    for (test, blocks) in [
        (PortTest::Range(1, 65534), 30),
        (PortTest::Range(0, 65535), 1),
        (PortTest::Neq(80), 16),
        (PortTest::Neq(0), 16),
        (PortTest::Neq(65535), 16),
        (PortTest::Lt(0), 0),
    ] {
        assert_eq!(rt; Blocks::of(test).count(), blocks);
    }
}

#[test]
fn pieces_in_sequence(rt: HostRuntime) -> Result<(), Fail> {
    let two = first_line(b"access-list 100 permit tcp any range 23 27 any lt 3")?;
    let starts = Pieces::of(two).map(|piece| (piece.from.start, piece.to.start));
    assert!(rt; starts.eq([(23, 0), (23, 2), (24, 0), (24, 2)]));
    let none = first_line(b"access-list 100 permit udp any neq 5 any lt 0")?;
    assert!(rt; Pieces::of(none).next().is_none());
    assert!(rt; Pieces::of(Line::blank()).next().is_some());
    Ok(())
}

// Whether these asks stand at these places.
fn asked(asks: &[Ask], table: &[(usize, Ask)]) -> bool {
    table
        .iter()
        .all(|(place, ask)| asks.get(*place) == Some(ask))
}

#[test]
fn asks_by_place(rt: HostRuntime) -> Result<(), Fail> {
    let text = b"access-list 100 deny tcp host 128.0.0.1 gt 65533 0.0.0.0 127.255.255.255 eq 3";
    let piece = first_piece(text)?;
    let plain = [
        (0, Some(true)),
        (1, Some(false)),
        (31, Some(true)),
        (32, Some(false)),
        (33, None),
        (69, Some(true)),
        (71, Some(false)),
        (86, Some(true)),
        (87, None),
        (103, Some(true)),
    ];
    assert!(rt; asked(&piece.asks(&Plain), &plain));
    let woven = [
        (0, Some(true)),
        (1, Some(false)),
        (2, Some(false)),
        (3, None),
        (62, Some(true)),
        (64, Some(false)),
    ];
    assert!(rt; asked(&piece.asks(&Woven), &woven));
    Ok(())
}

#[test]
fn bits_asked_for(rt: HostRuntime) {
    assert!(rt; is_met(None, true) && is_met(None, false));
    assert!(rt; is_met(Some(true), true) && !is_met(Some(true), false));
}

#[test]
fn codes(rt: HostRuntime) -> Result<(), Fail> {
    let text = b"access-list 1 deny 10.0.0.1\naccess-list 1 permit 10.0.0.0 0.0.0.255\n";
    let mut memory = [Line::blank(); 2];
    read_good(text, &mut memory)?;
    let header = Header {
        source: 0x0a00_0001,
        ..Header::default()
    };
    for (source, bare, numbered) in [
        (0x0a00_0001, 0, 2),
        (0x0a00_0002, 1, 5),
        (0x0b00_0002, 0, 0),
    ] {
        let other = Header { source, ..header };
        assert_eq!(rt; verdict_code(&Bare, &memory, other), bare);
        assert_eq!(rt; verdict_code(&Numbered, &memory, other), numbered);
    }
    assert_eq!(rt; verdict_code(&Numbered, &[], header), 0);
    let blank = Heard::from(Line::blank());
    assert_eq!(rt; Numbered.code(Numbered.of_line(blank)), 3);
    assert_eq!(rt; Bare.code(Bare.of_line(blank)), 1);
    Ok(())
}
