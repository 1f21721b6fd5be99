ghost use Rattle.std.specs.Prelude.{◌≡◌};
ghost use Rattle.model.specs.Laying.{meets};

// What a piece asks of the bit at a place: that it is this one, or nothing.
pub type Ask = Option<bool>;

// Whether a bit is as it is asked for.
pub fn is_met(ask: Ask, bit: bool) -> bool
    ensures { result ≡ meets ask bit }
{
    ask.is_none_or(|wanted| wanted == bit)
}
