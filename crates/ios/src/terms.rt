ghost use Rattle.std.specs.Prelude.{◌≡◌, cond, Ok};
ghost use Rattle.acl.specs.declared.refusal.Refusal.TheVariants.{BadWord};
ghost use Rattle.words.specs.Cursor.{rest, passed, handed, word_shown, stop, expect_of};
ghost use Rattle.ios.specs.Parsing.{next_is, action_named, action_of, protocol_named, protocol_of, list_number_of, log_of, next_digit};
ghost use Rattle.ios.specs.Shown.{shown_ok};

use crate::family::ListNumber;
use acl::refusal::Refusal;
use acl::terms::{Action, Protocol};
use words::part::{Stop, Word};
use words::words::Words;

// Whether the next word is the keyword.
pub(crate) fn next_is(words: &Words<'_>, keyword: &[u8]) -> bool
    ensures { result ≡ next_is (rest words.now) keyword.now }
{
    words.peek().is_some_and(|word| word.is(keyword))
}

// Whether the next word is the keyword; if it is, goes past it.
pub(crate) fn takes(words: &mut Words<'_>, keyword: &[u8]) -> bool
    ensures found { result ≡ next_is (rest words.old) keyword.now }
    ensures left { rest words.new ≡ cond result (passed (rest words.old)) (rest words.old) }
{
    let found = next_is(words, keyword);
    if found {
        words.pass();
    }
    found
}

// The next word, where one has to stand.
fn expect<'a>(words: &mut Words<'a>) -> Result<Word<'a>, Stop>
    ensures { handed (shown_ok result) (rest words.new) ≡ expect_of (rest words.old) }
{
    let Some(word) = words.peek() else {
        return Err(words.stop(Refusal::BadWord));
    };
    words.pass();
    Ok(word)
}

// A refusal at a word that names nothing known here.
fn refuse(word: Word<'_>) -> Stop
    ensures { result ≡ stop BadWord (word_shown word.entry).column }
{
    Stop {
        refusal: Refusal::BadWord,
        column: word.part().column,
    }
}

fn action_named(word: Word<'_>) -> Option<Action>
    ensures { result ≡ action_named (word_shown word.entry).bytes }
{
    match word {
        word if word.is(b"permit") => Some(Action::Permit),
        word if word.is(b"deny") => Some(Action::Deny),
        _ => None,
    }
}

// `permit` or `deny`
pub(crate) fn action(words: &mut Words<'_>) -> Result<Action, Stop>
    ensures { handed result (rest words.new) ≡ action_of (rest words.old) }
{
    let word = expect(words)?;
    action_named(word).ok_or(refuse(word))
}

fn protocol_named(word: Word<'_>) -> Option<Protocol>
    ensures { result ≡ protocol_named (word_shown word.entry).bytes }
{
    match word {
        word if word.is(b"ip") => Some(Protocol::Any),
        word if word.is(b"icmp") => Some(Protocol::Number(1)),
        word if word.is(b"igmp") => Some(Protocol::Number(2)),
        word if word.is(b"tcp") => Some(Protocol::Number(6)),
        word if word.is(b"udp") => Some(Protocol::Number(17)),
        _ => None,
    }
}

// Whether the next word begins with a digit.
fn next_digit(words: &Words<'_>) -> bool
    ensures { result ≡ next_digit (rest words.now) }
{
    matches!(words.peek(), Some(Word::Number(_) | Word::Address(_)))
}

// A protocol by name, or by number where the word begins with a digit.
pub(crate) fn protocol(words: &mut Words<'_>) -> Result<Protocol, Stop>
    ensures { handed result (rest words.new) ≡ protocol_of (rest words.old) }
{
    if next_digit(words) {
        let n = words.number(0, 255)?;
        return Ok(Protocol::Number(n as u8));
    }
    let word = expect(words)?;
    protocol_named(word).ok_or(refuse(word))
}

// `log`, or nothing
pub(crate) fn log(words: &mut Words<'_>) -> bool
    ensures { handed (Ok result) (rest words.new) ≡ log_of (rest words.old) }
{
    takes(words, b"log")
}

// The list number, which has to be the one that stood before, if one did.
pub(crate) fn list_number(words: &mut Words<'_>, known: Option<u16>) -> Result<ListNumber, Stop>
    ensures { handed result (rest words.new) ≡ list_number_of known (rest words.old) }
{
    let column = words.place();
    let number = words.number(1, 2699)?;
    let list = ListNumber::try_from(number).map_err(|refusal| Stop { refusal, column })?;
    if known.is_some_and(|known| known != number) {
        return Err(Stop {
            refusal: Refusal::OtherList,
            column,
        });
    }
    Ok(list)
}
