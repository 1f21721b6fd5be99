ghost use Rattle.std.specs.Prelude.{◌≡◌, unwrap_or};

// The mark behind the last node of a table.
#[derive(Clone, Copy)]
pub struct End {
    pub at: usize,
}

// A laying under way. Its end puts the mark back to where it was, unless what it made is kept.
pub struct Laying<'a> {
    pub end: &'a mut End,
    pub mark: Option<usize>,
}

impl Drop for Laying<'_> {
    fn drop(self)
        ensures { self.exit.0.now.at ≡ unwrap_or self.entry.mark self.entry.end.now.at }
    {
        let Laying { end, mark } = self;
        if let Some(at) = mark {
            end.at = at;
        }
    }
}
