// Reading a curve and a submission.
ghost use Rattle.std.specs.Prelude.{◌≡◌};
ghost use Rattle.market.specs.Orders.{Fit, Orderly};
ghost use Rattle.market.specs.Reading.{steps_of, last_of};

use crate::curve::Curve;
use crate::kind::Kind;
use crate::step::{Side, Step};
use crate::submission::Submission;
use crate::units::{Hour, Qse};

impl Curve {
    pub fn side(&self) -> Side
        ensures { result ≡ self.now.side }
    {
        self.side
    }

    // The steps in order: their quantities rise, and every figure is in range.
    pub fn steps(&self) -> &[Step]
        ensures all { result.now ≡ steps_of self.now }
        ensures orderly { Orderly 0 result.now }
    {
        &self.steps[0..self.count]
    }

    // The last step: its quantity is that of the whole curve.
    pub fn last(&self) -> Step
        ensures value { result ≡ last_of self.now }
        ensures fit { Fit 0 result }
    {
        self.steps[self.count - 1]
    }
}

impl Submission {
    pub fn number(&self) -> u32
        ensures { result ≡ self.now.number }
    {
        self.number
    }

    pub fn qse(&self) -> Qse
        ensures { result ≡ self.now.qse }
    {
        self.qse
    }

    pub fn hour(&self) -> Hour
        ensures { result ≡ self.now.hour }
    {
        self.hour
    }

    pub fn kind(&self) -> Kind
        ensures { result ≡ self.now.kind }
    {
        self.kind
    }

    pub fn curve(&self) -> Curve
        ensures { result ≡ self.now.curve }
    {
        self.curve
    }
}
