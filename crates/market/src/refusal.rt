// What refuses a figure, a curve or a submission.
ghost use Rattle.std.specs.Prelude.{◌≡◌};
ghost use Rattle.market.specs.Numbers.{number_of};

// Each has the number that a call returns for it.
#[derive(Clone, Copy, PartialEq, Eq, Debug)]
pub enum Refusal {
    // A number, a QSE or an hour is unfit.
    FiguresUnfit = 11,
    // A kind, its points, its claim or its count of steps is unfit.
    KindUnfit = 12,
    // A curve breaks a rule, or a step is out of range.
    CurveUnfit = 13,
    // A price, a rate or a factor is out of range.
    OutOfRange = 14,
}

impl Refusal {
    // Each refusal and fault of the repository has such a method of its own: a trait of them all would have to be in
    // scope wherever a number is asked, and be no plainer.
    pub fn number(self) -> u8
        ensures { result ≡ number_of self }
    {
        self as u8
    }
}
