// The rights held: finding one, and the tests of them all.
ghost use Rattle.std.specs.Prelude.{◌≡◌};
ghost use Rattle.rights.specs.Rights.{right_fits, right_on, tenths_of, each_fits, rights_fit};

use market::right::{MOST_RIGHTS, PathHour, Right};
use market::units::{HOURS, Tenths};

const MOST_TENTHS: Tenths = 1_000_000;

// The first right on a path at an hour.
fn right_on(rights: &[Right], path: PathHour) -> Option<Right>
    ensures { result ≡ right_on path rights.now }
{
    rights.iter().find(|right| right.path == path).copied()
}

pub(crate) fn tenths_on(rights: &[Right], path: PathHour) -> Tenths
    ensures { result ≡ tenths_of rights.now path }
{
    right_on(rights, path).map_or(0, |right| right.tenths)
}

fn right_fits(right: Right) -> bool
    ensures { result ≡ right_fits right }
{
    let path = right.path;
    (1..=HOURS).contains(&path.hour) && right.tenths <= MOST_TENTHS && path.source != path.sink
}

// Each right fits, and none has the path and hour of a later one.
fn each_fits(rights: &[Right]) -> bool
    ensures { result ≡ each_fits rights.now }
{
    match rights {
        [] => true,
        [right, later @ ..] => {
            right_fits(*right) && right_on(later, right.path).is_none() && each_fits(later)
        }
    }
}

// At most 200 rights, each fit, and no path and hour twice.
pub fn rights_fit(rights: &[Right]) -> bool
    ensures { result ≡ rights_fit rights.now }
{
    rights.len() <= MOST_RIGHTS && each_fits(rights)
}
