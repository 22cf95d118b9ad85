//! What the records that are held cost where a tariff comes late, or takes the place of another.

ghost use Rattle.std.specs.Prelude.{◌≡◌};
ghost use Rattle.std.specs.BTreeMap.{values};
ghost use Rattle.plain_ledger.specs.Repricing.{AreRepriced, cost_anew, cost_replaced, price_anew};
ghost use Rattle.plain_ledger.specs.Repricing.{price_replaced};
ghost use Rattle.book_core.specs.Room.{if_room};

use crate::held::HeldRecord;
use book_core::{AcceptedTariff, MAX_COST};
use std::collections::BTreeMap;
use tariff_rules::Tariff;

/// What the records cost together under a tariff that begins later than every other one; none where
/// it is more than the books hold.
pub(crate) fn cost_under(held: &BTreeMap<[u8; 32], HeldRecord>, tariff: &Tariff) -> Option<u64>
    ensures { result ≡ if_room (cost_anew tariff.now (values held.now)) }
{
    let mut cost = 0;
    for kept in held.values() {
        cost += kept.price_under(tariff).amount;
        // It is over at the first excess: 64 bits need not hold what all of them cost.
        if cost > MAX_COST {
            return None;
        }
    }
    Some(cost)
}

/// Each record costs from now on what it does under such a tariff.
pub(crate) fn reprice(held: &mut BTreeMap<[u8; 32], HeldRecord>, tariff: &Tariff)
    ensures { AreRepriced (price_anew tariff.now) held.old.entries held.new.entries }
{
    held.retain(|_, kept| {
        kept.reprice(tariff);
        true
    });
}

/// What the records cost together under a tariff in the place of the one, of these, that begins on
/// its first day; none where it is more than the books hold.
pub(crate) fn cost_in_place(
    held: &BTreeMap<[u8; 32], HeldRecord>,
    tariffs: &[AcceptedTariff],
    tariff: &Tariff,
) -> Option<u64>
    ensures { result ≡ if_room (cost_replaced tariffs.now tariff.now (values held.now)) }
{
    let mut cost = 0;
    for kept in held.values() {
        cost += kept.price_replaced(tariffs, tariff).amount;
        // It is over at the first excess: 64 bits need not hold what all of them cost.
        if MAX_COST < cost {
            return None;
        }
    }
    Some(cost)
}

/// Each record costs from now on what it does under such a tariff.
pub(crate) fn replace_prices(
    held: &mut BTreeMap<[u8; 32], HeldRecord>,
    tariffs: &[AcceptedTariff],
    tariff: &Tariff,
)
    ensures { AreRepriced (price_replaced tariffs.now tariff.now) held.old.entries
        held.new.entries }
{
    held.retain(|_, kept| {
        kept.replace_price(tariffs, tariff);
        true
    });
}
