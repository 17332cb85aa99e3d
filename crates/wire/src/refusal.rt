// A refusal by its number in the table of refusals.
ghost use Rattle.std.specs.Prelude.{◌≡◌, ℕ};
ghost use Rattle.wire.specs.Told.{told_by, number_told};

pub trait Numbered: Drop {
    ghost number_of: { Self → ℕ };

    fn number(&self) -> u8
        ensures { result ≡ number_of self.now };
}

// The number of a refusal, or 0 where nothing is refused.
pub fn number_in<T, E: Numbered>(answer: &Result<T, E>) -> u8
    ensures { result ≡ number_told (told_by E.number_of answer.now) }
{
    match answer {
        Ok(_) => 0,
        Err(why) => why.number(),
    }
}
