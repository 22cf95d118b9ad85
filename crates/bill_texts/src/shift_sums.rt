//! Sums by tariff and shift: rows of work as if each were dated on the first day of its tariff, so
//! that what stands together has one price and one percent.

ghost use Rattle.std.specs.Prelude.{◌≡◌, ◌∷◌, ◌++◌, [], All, IfOk, OnOk, cond, map};
ghost use Rattle.std.specs.BTreeSet.{insert_key};
ghost use Rattle.book_model.specs.Words.{AreRows, IsDay, by_key, row_key, same_key};
ghost use Rattle.bill_texts.specs.ShiftSums as spec;

use book_model::{BilledTariff, ChargeRow, RowKey};
use report_texts::row_sums;
use std::alloc::{AllocError, Global};
use std::collections::BTreeSet;

/// The first day of a tariff, if it has begun by a day, else what was found before.
fn begun_by(day: i32, found: i32, tariff: &BilledTariff) -> i32
    ensures { result ≡ spec.begun_by day found tariff.now }
{
    if day < tariff.day { found } else { tariff.day }
}

/// The first day of the tariff in force on a day.
#[tactic(auto, unfolding(crate::specs::ShiftSums::since))]
fn since(tariffs: &[BilledTariff], day: i32) -> i32
    ensures { result ≡ spec.since tariffs.now day }
{
    let mut found = day;
    for tariff in tariffs {
        found = begun_by(day, found, tariff);
    }
    found
}

/// A row as if it were dated on the first day of its tariff.
fn dated_since(tariffs: &[BilledTariff], row: &ChargeRow) -> ChargeRow
    ensures { result ≡ spec.dated_since tariffs.now row.now }
{
    ChargeRow {
        day: since(tariffs, row.day),
        centre: row.centre,
        shift: row.shift,
        count: row.count,
        cpu: row.cpu,
        blocks: row.blocks,
        amount: row.amount,
    }
}

/// Rows as if each were dated so.
fn dated_rows(
    alloc: Global,
    tariffs: &[BilledTariff],
    rows: &[ChargeRow],
) -> Result<Vec<ChargeRow>, AllocError>
    ensures { IfOk result (λ dated. dated.items ≡ map (spec.dated_since tariffs.now) rows.now) }
{
    let mut dated = Vec::new(alloc);
    for row in rows {
        dated.push(dated_since(tariffs, row))?;
    }
    Ok(dated)
}

/// Where a row stands.
fn place_of(row: &ChargeRow) -> RowKey
    ensures { result ≡ row_key row.now }
{
    RowKey {
        day: row.day,
        centre: row.centre,
        shift: row.shift,
    }
}

/// The place of a row joins others.
fn add_place(places: &mut BTreeSet<RowKey>, row: &ChargeRow) -> Result<(), AllocError>
    ensures { OnOk result (places.new.keys ≡ insert_key by_key places.old.keys (row_key row.now)) }
{
    places.insert(place_of(row))?;
    Ok(())
}

/// The places of some rows, each once and in order.
fn places_of(alloc: Global, rows: &[ChargeRow]) -> Result<Vec<RowKey>, AllocError>
    ensures { IfOk result (λ places. places.items ≡ spec.places_of rows.now) }
{
    let mut places = BTreeSet::new(alloc);
    for row in rows {
        add_place(&mut places, row)?;
    }
    places.into_iter().collect(alloc)
}

/// The row stands at the place.
fn is_at(row: &ChargeRow, place: &RowKey) -> bool
    ensures { result ≡ same_key (row_key row.now) place.now }
{
    row.day == place.day && (row.centre == place.centre && row.shift == place.shift)
}

/// A row joins others, if it is one of them.
fn push_if(rows: &mut Vec<ChargeRow>, row: &ChargeRow, is_one: bool) -> Result<(), AllocError>
    ensures { OnOk result (rows.new.items ≡ rows.old.items ++ cond is_one (row.now ∷ []) []) }
{
    if is_one {
        rows.push(*row)?;
    }
    Ok(())
}

/// The rows at a place.
#[tactic(auto, using(std::proofs::lemmas::List::Elements::filter_more))]
fn rows_at(alloc: Global, rows: &[ChargeRow], place: &RowKey) -> Result<Vec<ChargeRow>, AllocError>
    ensures { IfOk result (λ own. own.items ≡ spec.rows_at rows.now place.now) }
{
    let mut own = Vec::new(alloc);
    for row in rows {
        push_if(&mut own, row, is_at(row, place))?;
    }
    Ok(own)
}

/// The sums of the rows at a place.
fn sums_at(alloc: Global, rows: &[ChargeRow], place: &RowKey) -> Result<ChargeRow, AllocError>
    requires { AreRows rows.now }
    ensures { IfOk result (λ row. row ≡ spec.sums_at rows.now place.now) }
{
    let own = rows_at(alloc, rows, place)?;
    let (count, cpu, blocks, amount) = row_sums(&own);
    Ok(ChargeRow {
        day: place.day,
        centre: place.centre,
        shift: place.shift,
        count,
        cpu,
        blocks,
        amount,
    })
}

/// The sums of the rows at each of some places.
fn each_sums(
    alloc: Global,
    rows: &[ChargeRow],
    places: &[RowKey],
) -> Result<Vec<ChargeRow>, AllocError>
    requires { AreRows rows.now }
    ensures { IfOk result (λ sums. sums.items ≡ map (spec.sums_at rows.now) places.now) }
{
    let mut sums = Vec::new(alloc);
    for place in places {
        let row = sums_at(alloc, rows, place)?;
        sums.push(row)?;
    }
    Ok(sums)
}

/// The sums of rows at their places.
fn sums_of(alloc: Global, rows: &[ChargeRow]) -> Result<Vec<ChargeRow>, AllocError>
    requires { AreRows rows.now }
    ensures { IfOk result (λ sums. sums.items ≡ spec.sums_of rows.now) }
{
    let places = places_of(alloc, rows)?;
    each_sums(alloc, rows, &places)
}

/// Rows by tariff and shift.
pub(crate) fn by_tariff(
    alloc: Global,
    tariffs: &[BilledTariff],
    rows: &[ChargeRow],
) -> Result<Vec<ChargeRow>, AllocError>
    requires tariffs { All (λ tariff. IsDay tariff.day) tariffs.now }
    requires rows { AreRows rows.now }
    ensures sums { IfOk result (λ sums. sums.items ≡ spec.by_tariff tariffs.now rows.now) }
    ensures days { IfOk result (λ sums. All (λ row. IsDay row.day) sums.items) }
{
    let dated = dated_rows(alloc, tariffs, rows)?;
    sums_of(alloc, &dated)
}
