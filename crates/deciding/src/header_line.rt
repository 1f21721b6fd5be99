ghost use Rattle.std.specs.Prelude.{◌≡◌};
ghost use Rattle.words.specs.Cursor.{rest, handed};
ghost use Rattle.deciding.specs.HeaderLines.{header_of, header_line, passes as passes_by};

use acl::header::Header;
use words::part::Stop;
use words::words::Words;

// Source and destination, dotted; protocol, source port and destination port.
fn header(words: &mut Words<'_>) -> Result<Header, Stop>
    ensures { handed result (rest words.new) ≡ header_of (rest words.old) }
{
    let source = words.address()?;
    let destination = words.address()?;
    let protocol = words.number(0, 255)?;
    let source_port = words.number(0, 65535)?;
    let destination_port = words.number(0, 65535)?;
    words.end()?;
    Ok(Header {
        source,
        destination,
        protocol: protocol as u8,
        source_port,
        destination_port,
    })
}

// Whether the words say nothing: there are none, or a comment opens.
fn passes(words: &Words<'_>) -> bool
    ensures { result ≡ passes_by (rest words.now).words }
{
    words.peek().is_none_or(|word| word.opens_comment())
}

// The header that a text line holds, none where it says nothing, or the column at which it is malformed.
pub(crate) fn header_line(line: &[u8]) -> Result<Option<Header>, usize>
    ensures { result ≡ header_line line.now }
{
    if line.len() > 256 {
        return Err(256);
    }
    let mut words = Words::new(line);
    if passes(&words) {
        return Ok(None);
    }
    let header = header(&mut words).map_err(|stop| stop.column)?;
    Ok(Some(header))
}
