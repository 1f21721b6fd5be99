ghost use Rattle.std.specs.Prelude.{◌≡◌};
ghost use Rattle.words.specs.Keywords.{named};

// Whether a word is the keyword. All comparisons of words and keywords are made here.
pub(crate) fn is_keyword(word: &[u8], keyword: &[u8]) -> bool
    ensures { result ≡ named word.now keyword.now }
{
    word == keyword
}
