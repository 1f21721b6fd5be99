#![tactic(auto)]

ghost use Rattle.std.specs.Prelude.{◌≡◌};
ghost use Rattle.firmware.specs.Entry.{decided_of, entry_of, Roomy};

use acl::fitting::first_match;
use acl::header::Header;
use acl::line::Line;
use acl::refusal::Refusal;
use acl::terms::Action;
use ios::outcome::Reading;
use ios::read::{MOST_LINES, read};

// What the list in a text decides of a header; its end denies. There is memory for every list.
fn decide(text: &[u8], header: Header) -> Result<Action, Refusal>
    ensures { result ≡ decided_of text.now header }
{
    let mut memory = [Line::blank(); MOST_LINES];
    let Reading { count, .. } = read(text, &mut memory).map_err(|fault| fault.refusal)?;
    let found = first_match(&memory[..count], header);
    Ok(found.map_or(Action::Deny, |line| line.action))
}

// The entry for C: 0 where the list in the text denies the header, 1 where it permits it, and 256 + the
// refusal's number where the text is refused; 256 + 9 never comes.
#[tactic(auto, using(crate::proofs::Rooms::roomy))]
#[unsafe(no_mangle)]
pub extern "C" fn miltroueg_decide(
    text: &[u8],
    source: u32,
    destination: u32,
    protocol: u8,
    source_port: u16,
    destination_port: u16,
) -> u32
    ensures answer { result ≡ entry_of text.now source destination protocol source_port destination_port }
    ensures roomy { Roomy }
{
    let header = Header {
        source,
        destination,
        protocol,
        source_port,
        destination_port,
    };
    match decide(text, header) {
        Ok(action) => u32::from(u16::from(action)),
        Err(refusal) => 256 + u32::from(refusal.number()),
    }
}
