use acl::line::Line;
use ios::outcome::Reading;
use ios::read::read;
use std::test::Fail;

// Reads a text that must not be refused.
pub(crate) fn read_good(text: &[u8], memory: &mut [Line]) -> Result<Reading, Fail> {
    read(text, memory).map_err(|_| Fail::new("the text is refused"))
}

// The first line of a text; the blank line where the text has none.
pub(crate) fn first_line(text: &[u8]) -> Result<Line, Fail> {
    let mut memory = [Line::blank(); 1];
    read_good(text, &mut memory)?;
    Ok(memory[0])
}
