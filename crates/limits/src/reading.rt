use acl::line::Line;
use acl::refusal::Refusal;
use acl::terms::Action;
use ios::outcome::{Fault, Reading};
use ios::read::read;
use std::test::Fail;

const DENY: &[u8] = b"access-list 1 deny any\n";

// What is read of a list, and of a text at fault.
fn listed(number: u16, count: usize) -> Result<Reading, Fault> {
    Ok(Reading { number, count })
}

fn refused(refusal: Refusal, line: usize, column: usize) -> Result<Reading, Fault> {
    Err(Fault {
        refusal,
        line,
        column,
    })
}

#[test]
fn text_length(rt: HostRuntime) -> Result<(), Fail> {
    let mut memory = [Line::blank(); 1];
    let mut text = b"\n".repeat(rt.alloc(), 65536)?;
    assert_eq!(rt; read(&text, &mut memory), listed(0, 0));
    text.push(b'\n')?;
    assert_eq!(rt; read(&text, &mut memory), refused(Refusal::TooLong, 0, 0));
    Ok(())
}

// The text's length comes before every other fault in it.
#[test]
fn long_text_first(rt: HostRuntime) -> Result<(), Fail> {
    let mut memory = [Line::blank(); 0];
    let text = b"nonsense\n".repeat(rt.alloc(), 7282)?;
    assert_eq!(rt; read(&text, &mut memory), refused(Refusal::TooLong, 0, 0));
    let text = b"nonsense\n".repeat(rt.alloc(), 7281)?;
    assert_eq!(rt; read(&text, &mut memory), refused(Refusal::BadWord, 1, 0));
    Ok(())
}

#[test]
fn line_count(rt: HostRuntime) -> Result<(), Fail> {
    let mut memory = [Line::blank(); 1025];
    let mut text = DENY.repeat(rt.alloc(), 1024)?;
    assert_eq!(rt; read(&text, &mut memory), listed(1, 1024));
    assert_eq!(rt; memory[1023].number, 1024);
    assert_eq!(rt; memory[1024], Line::blank());
    // remarks and blank lines do not count
    text.extend_from_slice(b"\naccess-list 1 remark\n")?;
    assert_eq!(rt; read(&text, &mut memory), listed(1, 1024));
    text.extend_from_slice(DENY)?;
    assert_eq!(rt;
        read(&text, &mut memory),
        refused(Refusal::TooManyLines, 1027, 0)
    );
    Ok(())
}

// The 1,025th line is judged by itself first, no later one is looked at, and memory comes last.
#[test]
fn line_count_sequence(rt: HostRuntime) -> Result<(), Fail> {
    let mut memory = [Line::blank(); 2];
    let mut text = DENY.repeat(rt.alloc(), 1024)?;
    assert_eq!(rt;
        read(&text, &mut memory),
        refused(Refusal::ShortMemory, 0, 0)
    );
    text.extend_from_slice(b"access-list 1 deny 1.2.3\n")?;
    assert_eq!(rt;
        read(&text, &mut memory),
        refused(Refusal::BadAddress, 1025, 19)
    );
    let mut text = DENY.repeat(rt.alloc(), 1025)?;
    text.extend_from_slice(b"nonsense\n")?;
    assert_eq!(rt;
        read(&text, &mut memory),
        refused(Refusal::TooManyLines, 1025, 0)
    );
    assert_eq!(rt; memory[0], Line::blank());
    Ok(())
}

#[test]
fn memory_length(rt: HostRuntime) -> Result<(), Fail> {
    let text = DENY.repeat(rt.alloc(), 3)?;
    let mut short = [Line::blank(); 2];
    assert_eq!(rt;
        read(&text, &mut short),
        refused(Refusal::ShortMemory, 0, 0)
    );
    assert_eq!(rt; short, [Line::blank(); 2]);
    let mut exact = [Line::blank(); 3];
    assert_eq!(rt; read(&text, &mut exact), listed(1, 3));
    assert_eq!(rt; exact[2].action, Action::Deny);
    let mut more = [Line::blank(); 4];
    assert_eq!(rt; read(&text, &mut more), listed(1, 3));
    assert_eq!(rt; more[2].number, 3);
    assert_eq!(rt; more[3], Line::blank());
    Ok(())
}
