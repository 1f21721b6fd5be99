ghost use Rattle.std.specs.Prelude.{◌≡◌, ◌≤◌, true, length};
ghost use Rattle.deciding.specs.Halves.{is_mark, mark_at, list_part, header_part};

use words::lines::TextLines;

// The two parts of the input.
#[derive(Clone, Copy)]
pub struct Halves<'a> {
    pub list: &'a [u8],
    pub headers: &'a [u8],
}

// Whether the text line that starts here is `=`.
fn is_mark(rest: &[u8]) -> bool
    ensures { result ≡ is_mark rest.now }
{
    matches!(rest, [b'='] | [b'=', b'\n', ..] | [b'=', b'\r', b'\n', ..])
}

// Where the first text line `=` starts, or the input's length.
fn mark(input: &[u8]) -> usize
    ensures place { result ≡ mark_at true input.now }
    ensures within { result ≤ length input.now }
{
    let mut starts = true;
    for (i, byte) in input.iter().enumerate() {
        if starts && is_mark(&input[i..]) {
            return i;
        }
        starts = *byte == b'\n';
    }
    input.len()
}

// The list before the first text line `=`, and the headers after it.
pub(crate) fn cut_halves<'a>(input: &'a [u8]) -> Halves<'a>
    ensures list { result.list.now ≡ list_part input.now }
    ensures headers { result.headers.now ≡ header_part input.now }
{
    let (list, rest) = input.split_at(mark(input));
    let mut lines = TextLines::new(rest);
    let _ = lines.next();
    Halves {
        list,
        headers: lines.rest(),
    }
}
