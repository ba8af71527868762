// Which rights a submission claims, and what a row draws on them.
ghost use Rattle.std.specs.Prelude.{◌≡◌};
ghost use Rattle.rights.specs.Covers.{claimed, draw};

use crate::row::Row;
use market::kind::Kind;
use market::right::PathHour;
use market::submission::Submission;
use market::units::Tenths;

// The path and hour on which a submission claims rights, if it does.
pub(crate) fn path_claimed(submission: &Submission) -> Option<PathHour>
    ensures { result ≡ claimed submission.now }
{
    let price = submission.curve().last().price;
    match submission.kind() {
        Kind::PointToPoint {
            source,
            sink,
            claim,
        } if claim == 1 && price > 0 => {
            Some(PathHour {
                source,
                sink,
                hour: submission.hour(),
            })
        }
        _ => None,
    }
}

// The tenths that a row draws on the right of a path and hour.
pub(crate) fn drawn_by(row: &Row, path: PathHour) -> Tenths
    ensures { result ≡ draw path row.now }
{
    if path_claimed(&row.submission) == Some(path) {
        row.cover
    } else {
        0
    }
}
