// What is free of the rights, and the cover of a submission by what is free.
ghost use Rattle.std.specs.Prelude.{◌≡◌, ◌-◌};
ghost use Rattle.rights.specs.Covers.{drawn, free_of, cover_of};

use crate::claims::{drawn_by, path_claimed};
use crate::held::tenths_on;
use crate::row::Row;
use market::right::{PathHour, Right};
use market::submission::Submission;
use market::units::Tenths;

// What is left of some tenths of a path and hour after all that the rows draw there.
fn undrawn(tenths: Tenths, rows: &[Row], path: PathHour) -> Tenths
    ensures { result ≡ tenths - drawn path rows.now }
{
    rows.iter().fold(tenths, |left, row| left.saturating_sub(drawn_by(row, path)))
}

// The tenths of a path and hour that no row draws on.
pub fn free_tenths(rights: &[Right], rows: &[Row], path: PathHour) -> Tenths
    ensures { result ≡ free_of rights.now rows.now path }
{
    undrawn(tenths_on(rights, path), rows, path)
}

// The tenths of a submission that free rights cover.
pub fn covered_tenths(rights: &[Right], rows: &[Row], submission: &Submission) -> Tenths
    ensures { result ≡ cover_of rights.now rows.now submission.now }
{
    let quantity = submission.curve().last().quantity;
    path_claimed(submission).map_or(0, |path| quantity.min(free_tenths(rights, rows, path)))
}
