// Why a record or a listing is refused.
ghost use Rattle.std.specs.Prelude.{◌≡◌};
ghost use Rattle.tokens.specs.Answers.{number_of};

// Misshapen, breaking a token rule, or longer than the buffer that is lent.
#[derive(Clone, Copy, PartialEq, Eq)]
pub enum Refusal {
    Misshapen = 3,
    BreaksRule = 4,
    TooLong = 11,
}

impl Refusal {
    // Its status number of the page.
    pub fn number(self) -> u32
        ensures { result ≡ number_of self }
    {
        self as u32
    }
}
