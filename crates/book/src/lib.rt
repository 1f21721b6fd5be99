// The book of a shelf: what each call answers, said of lists, headers and parts alone, and what
// is promised of these answers.
#![tactic(auto)]

ghost use Rattle.book.specs.Promises.{BooksStand};

pub mod setup;

// The theorem on books, for verdicts of every type. It has no work to do: its contract is what is
// proved.
pub fn books_stand<V>()
    ensures { BooksStand V }
{}
