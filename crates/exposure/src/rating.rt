// Making rates, and the rule that values by them.
ghost use Rattle.std.specs.Prelude.{◌≡◌, ◌≤◌, pos, negsuc, ◌≤ℤ◌};
ghost use Rattle.exposure.specs.Ranges.{rates_fit};
ghost use Rattle.exposure.specs.Rates.{rates_of, rate_for, in_grains, rate_worth};
ghost use Rattle.exposure.specs.RateBounds.{rated_within};

use crate::fault::RuleFault;
use crate::rates::Rates;
use crate::rule::Rule;
use market::kind::Kind;
use market::refusal::Refusal;
use market::submission::Submission;
use market::units::{Price, Tenths, price_fits};

fn all_fit(prices: [Price; 4]) -> bool
    ensures { result ≡ rates_fit prices }
{
    prices.iter().all(|price| price_fits(*price))
}

// A thousandth of a cent is a grain: cents per MWh times tenths of a MW, for an hour, a hundred each.
fn grains(rate: Price, tenths: Tenths) -> i64
    requires low { negsuc 999999 ≤ℤ rate }
    requires high { rate ≤ℤ pos 1000000 }
    requires most { tenths ≤ 100000 }
    ensures { result ≡ in_grains rate tenths }
{
    100 * rate as i64 * tenths as i64
}

impl Rates {
    pub fn make(prices: [Price; 4]) -> Result<Rates, Refusal>
        ensures { result ≡ rates_of prices }
    {
        if !all_fit(prices) {
            return Err(Refusal::OutOfRange);
        }
        Ok(Rates { prices })
    }

    fn rate(&self, kind: Kind) -> Price
        ensures value { result ≡ rate_for self.now.prices kind }
        ensures low { negsuc 999999 ≤ℤ result }
        ensures high { result ≤ℤ pos 1000000 }
    {
        let [
            energy_bid,
            energy_only_offer,
            three_part_offer,
            point_to_point,
        ] = self.prices;
        match kind {
            Kind::EnergyBid { .. } => energy_bid,
            Kind::EnergyOnlyOffer { .. } => energy_only_offer,
            Kind::ThreePartOffer { .. } => three_part_offer,
            Kind::PointToPoint { .. } => point_to_point,
        }
    }
}

impl Rule for Rates {
    ghost worth = { λ r s cover. rate_worth r s cover };

    ghost within = { λ r s cover. rated_within r s cover };

    fn value(&mut self, submission: &Submission, cover: Tenths) -> Result<i64, RuleFault> {
        let quantity = submission.curve().last().quantity;
        if cover > quantity {
            return Err(RuleFault::CoverAboveQuantity);
        }
        let rate = self.rate(submission.kind());
        Ok(grains(rate, quantity - cover))
    }
}
