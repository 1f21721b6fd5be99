ghost use Rattle.std.specs.Prelude.{◌≡◌};
ghost use Rattle.words.specs.Cursor.{rest, handed};
ghost use Rattle.ios.specs.Entries.{entry_shape, standard_entry};
ghost use Rattle.ios.specs.Parsing.{standard_of, extended_of, entry_of, body_says, list_number_of, line_says, says};
ghost use Rattle.ios.specs.Shown.{entry_ok, said_ok};

use crate::entry::Entry;
use crate::family::{Family, ListNumber, Network};
use crate::ports::SidePorts;
use crate::said::Said;
use crate::sides::{addresses, ports, side};
use crate::terms::{action, list_number, log, next_is, protocol};
use acl::refusal::Refusal;
use acl::side::Side;
use acl::terms::{Action, Protocol};
use words::part::Stop;
use words::words::Words;

// A standard line has any protocol and any destination.
fn standard_entry(action: Action, source: Network, log: bool) -> Entry
    ensures { entry_shape result ≡ standard_entry action source log }
{
    Entry {
        action,
        protocol: Protocol::Any,
        log,
        source: side(source, SidePorts::ANY),
        destination: Side::any(),
    }
}

// `source [log]` after the action of a standard line
fn standard(words: &mut Words<'_>, action: Action) -> Result<Entry, Stop>
    ensures { handed (entry_ok result) (rest words.new) ≡ standard_of action (rest words.old) }
{
    let source = addresses(words, Family::Standard)?;
    let log = log(words);
    words.end()?;
    Ok(standard_entry(action, source, log))
}

// `protocol source [ports] destination [ports] [log]` after the action of an extended line
fn extended(words: &mut Words<'_>, action: Action) -> Result<Entry, Stop>
    ensures { handed (entry_ok result) (rest words.new) ≡ extended_of action (rest words.old) }
{
    let protocol = protocol(words)?;
    let from = addresses(words, Family::Extended)?;
    let from_ports = ports(words, protocol)?;
    let to = addresses(words, Family::Extended)?;
    let to_ports = ports(words, protocol)?;
    let log = log(words);
    words.end()?;
    Ok(Entry {
        action,
        protocol,
        log,
        source: side(from, from_ports),
        destination: side(to, to_ports),
    })
}

fn entry(words: &mut Words<'_>, family: Family) -> Result<Entry, Stop>
    ensures { handed (entry_ok result) (rest words.new) ≡ entry_of family (rest words.old) }
{
    let action = action(words)?;
    match family {
        Family::Standard => standard(words, action),
        Family::Extended => extended(words, action),
    }
}

// The list number and what follows it: a remark, which says nothing, or an entry.
fn body(words: &mut Words<'_>, known: Option<u16>) -> Result<Said, Stop>
    ensures { said_ok result ≡ body_says (list_number_of known (rest words.old)) }
{
    let ListNumber { number, family } = list_number(words, known)?;
    let entry = if next_is(words, b"remark") {
        None
    } else {
        Some(entry(words, family)?)
    };
    Ok(Said {
        known: Some(number),
        entry,
    })
}

// What the words of a text line say after the list number that is known.
fn words_say(words: &mut Words<'_>, known: Option<u16>) -> Result<Said, Stop>
    ensures { said_ok result ≡ says known (rest words.old) }
{
    let word = match words.peek() {
        Some(word) if !word.opens_comment() => word,
        _ => return Ok(Said { known, entry: None }),
    };
    if !word.is(b"access-list") {
        return Err(words.stop(Refusal::BadWord));
    }
    words.pass();
    body(words, known)
}

// What a text line says after the list number that is known; it has at most 256 bytes.
pub(crate) fn line_says(line: &[u8], known: Option<u16>) -> Result<Said, Stop>
    ensures { said_ok result ≡ line_says known line.now }
{
    if line.len() > 256 {
        return Err(Stop {
            refusal: Refusal::TooLong,
            column: 256,
        });
    }
    let mut words = Words::new(line);
    words_say(&mut words, known)
}
