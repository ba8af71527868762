// A submission: what a QSE asks of the market for one hour.
ghost use Rattle.std.specs.Prelude.{◌≡◌, true};
ghost use Rattle.market.specs.Submissions.{named, suits, faces};

use crate::curve::Curve;
use crate::kind::Kind;
use crate::units::{Hour, Qse};

#[derive(Clone, Copy)]
pub struct Submission {
    pub(crate) number: u32,
    pub(crate) qse: Qse,
    pub(crate) hour: Hour,
    pub(crate) kind: Kind,
    pub(crate) curve: Curve,
    ghost fit: { named number qse hour ≡ true },
    ghost suited: { suits kind curve.count ≡ true },
    ghost sided: { faces kind curve.side ≡ true },
}
