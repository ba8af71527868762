// What refuses the run of a file, and what refuses a call of it.
ghost use Rattle.std.specs.Prelude.{◌≡◌};
ghost use Rattle.dayfile.specs.declared.refusal.CallRefusal.TheVariants as refusal;
ghost use Rattle.dayfile.specs.Numbers.{number_of, call_number};

#[derive(Clone, Copy, PartialEq, Eq, Debug)]
pub enum Refusal {
    // The answer bytes are fewer than the lines of a file may need.
    AnswerTooSmall = 52,
}

impl Refusal {
    pub fn number(self) -> u8
        ensures { result ≡ number_of self }
    {
        self as u8
    }
}

#[derive(Clone, Copy, PartialEq, Eq, Debug)]
pub(crate) enum CallRefusal {
    // The submission is not made.
    Unmade(market::refusal::Refusal),
    // The book refuses the call.
    ByBook(book::refusal::Refusal),
}

impl CallRefusal {
    // The number of the refusal within: a case that brings something has no discriminant.
    pub(crate) fn number(self) -> u8
        ensures { result ≡ call_number self }
    {
        match self {
            CallRefusal::Unmade(refusal) => refusal.number(),
            CallRefusal::ByBook(refusal) => refusal.number(),
        }
    }
}

impl From<market::refusal::Refusal> for CallRefusal {
    ghost from_gives = { λ f r. r ≡ refusal.Unmade f };

    fn from(refusal: market::refusal::Refusal) -> CallRefusal {
        CallRefusal::Unmade(refusal)
    }
}

impl From<book::refusal::Refusal> for CallRefusal {
    ghost from_gives = { λ f r. r ≡ refusal.ByBook f };

    fn from(refusal: book::refusal::Refusal) -> CallRefusal {
        CallRefusal::ByBook(refusal)
    }
}
