// The ratios of a day's two figures.
ghost use Rattle.std.specs.Prelude.{◌≡◌, ◌<◌, true, ◌&&◌};
ghost use Rattle.factors.specs.Ratios.{clipped};
ghost use Rattle.factors.specs.Days.{dollars_fit, quantity_fits, first_of, second_of};

use crate::days::{Dollars, Quantities};
use crate::ratio::Ratio;

// The most dollars, or tenths of a MW, that a figure may state.
const MOST_FIGURE: i64 = 2_000_000_000;

// The fraction top/bottom, brought into 0 to 1.
fn portion(top: i64, bottom: u32) -> Ratio
    requires { 0 < bottom }
    ensures over { result.bottom ≡ bottom }
    ensures brought { result.top ≡ clipped top bottom }
{
    let top = top.clamp(0, bottom as i64) as u32;
    Ratio { top, bottom }
}

impl Dollars {
    // Whether each is at most 2,000,000,000 from 0.
    pub(crate) fn fit(self) -> bool
        ensures { result ≡ (dollars_fit self.bids && dollars_fit self.offers) }
    {
        let range = -MOST_FIGURE..=MOST_FIGURE;
        range.contains(&self.bids) && range.contains(&self.offers)
    }

    // (bids - offers)/bids brought into 0 to 1, or 1 where there are no bids.
    pub(crate) fn first(self) -> Ratio
        requires bids { dollars_fit self.bids ≡ true }
        requires offers { dollars_fit self.offers ≡ true }
        ensures { result ≡ first_of self.bids self.offers }
    {
        if self.bids == 0 {
            return Ratio { top: 1, bottom: 1 };
        }
        if self.bids > 0 {
            portion(self.bids - self.offers, self.bids as u32)
        } else {
            // Both signs turn, so that the bottom is above 0.
            portion(self.offers - self.bids, (-self.bids) as u32)
        }
    }
}

impl Quantities {
    // Whether each is 0 to 2,000,000,000.
    pub(crate) fn fit(self) -> bool
        ensures { result ≡ (quantity_fits self.bids && quantity_fits self.offers) }
    {
        let range = 0..=MOST_FIGURE;
        range.contains(&self.bids) && range.contains(&self.offers)
    }

    // The lesser of bids and offers over offers, or 0 where there are no offers.
    pub(crate) fn second(self) -> Ratio
        requires bids { quantity_fits self.bids ≡ true }
        requires offers { quantity_fits self.offers ≡ true }
        ensures { result ≡ second_of self.bids self.offers }
    {
        if self.offers == 0 {
            return Ratio { top: 0, bottom: 1 };
        }
        portion(self.bids, self.offers as u32)
    }
}
