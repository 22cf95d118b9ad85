//! The details: a row for each record that some period counts.

ghost use Rattle.std.specs.Prelude.{◌≡◌, IfOk, IsTrue, None, OnOk, length, true};
ghost use Rattle.smf_frames.specs.Framed.{record_with};
ghost use Rattle.book_model.specs.Words as model;
ghost use Rattle.book_model.specs.Words.{IsUsage};
ghost use Rattle.table_model.specs.DetailsRead.{detail_shown};
ghost use Rattle.tree_tables.specs.Columns.{detail_columns};
ghost use Rattle.tree_tables.specs.Stored.{stored_entry};
ghost use Rattle.book_audit.specs.Details.{AreDetails, HasCost, IsCounted, ShowsCounted};
ghost use Rattle.book_audit.specs.Looks.{Looks, Tells};
ghost use Rattle.book_audit.specs.Records.{detail_key, spot_of};
ghost use Rattle.book_audit.specs.Trees.{HasKey};

use crate::finding::{DetailKey, Place, Tree, Wrong};
use crate::marks::past_in;
use crate::rulings::Rulings;
use crate::stop::{Stop, met, unsound};
use crate::trees::Trees;
use crate::walk::{MOST_ROWS, Walk, endless};
use crate::watch::Watch;
use book_core::{detail_with, key_of};
use book_model::Detail;
use smf_type30::Type30;
use sqlite_trees::error::StoreError;
use sqlite_trees::store::Store;
use sqlite_value::row::Row;
use std::alloc::Global;
use tariff_rules::Priced;
use tree_tables::{
    StoredRecord, count_at, day_at, eight_at, hash_at, name_at, number_at, put_data, step_at,
    usage_in,
};

/// Where a row of details is.
fn place_of(shown: &Detail) -> DetailKey
    ensures { result ≡ spot_of shown.now }
{
    DetailKey {
        place: key_of(&shown.priced),
        time: shown.time,
        name: shown.name,
    }
}

/// Writes a record over `bytes`, by its data, which must be those of usage.
fn put_usage(bytes: &mut Vec<u8>, data_bytes: &[u8]) -> Result<(), Stop>
    ensures bytes { OnOk result (bytes.new.items ≡ record_with data_bytes.now) }
    ensures usage { OnOk result (IsUsage bytes.new.items) }
{
    if let Err(error) = put_data(bytes, data_bytes) {
        return Err(met(Tree::Records, error));
    }
    match usage_in(bytes) {
        Ok(_) => Ok(()),
        Err(error) => Err(met(Tree::Records, error)),
    }
}

/// A record that is counted has a row of details. What is in `bytes` is lost.
pub(crate) fn check_has_detail<S: Store>(
    trees: &mut Trees<S>,
    bytes: &mut Vec<u8>,
    stored: &StoredRecord,
) -> Result<(), Stop>
    ensures shown { Tells result trees.old trees.new (λ all _.
        HasKey (detail_key (spot_of (detail_shown (stored_entry stored.now)))) (all 10)) }
    ensures looks { Looks result trees.old trees.new }
{
    put_usage(bytes, &stored.data_bytes)?;
    let usage = Type30::of_usage(bytes);
    let shown = detail_with(&stored.name, &usage, stored.priced);
    if trees.has_detail(&place_of(&shown))? {
        Ok(())
    } else {
        Err(unsound(Place::Record(stored.name), Wrong::NoDetail))
    }
}

/// Whether a row shows what a record says of its step and job.
fn shows_usage(shown: &Detail, usage: &Type30<'_>) -> bool
    ensures { IsTrue result
        → shown.now ≡ model.detail_with shown.now.name usage.now shown.now.priced }
{
    let own = detail_with(&shown.name, usage, shown.priced);
    shown.time == own.time
        && shown.job == own.job
        && shown.program == own.program
        && shown.job_id == own.job_id
        && shown.step == own.step
}

/// Whether a row shows a record, which has its name.
fn shows(shown: &Detail, stored: &StoredRecord, usage: &Type30<'_>) -> bool
    ensures { IsTrue result
        → shown.now ≡ model.detail_with shown.now.name usage.now stored.now.priced }
{
    shown.priced == stored.priced && shows_usage(shown, usage)
}

/// Whether the row of its period counts a record.
fn is_counted<S: Store>(
    trees: &mut Trees<S>,
    rulings: &Rulings,
    stored: &StoredRecord,
) -> Result<bool, Stop>
    ensures counted { Tells result trees.old trees.new (λ all counted.
        counted ≡ true → IsCounted (all 5) rulings.now.closes.items (stored_entry stored.now)) }
    ensures looks { Looks result trees.old trees.new }
{
    match past_in(trees, rulings, stored)? {
        Some(counted) => Ok(counted),
        None => Ok(false),
    }
}

/// What is wrong with a row of details.
fn wrong_with<S: Store>(
    alloc: Global,
    trees: &mut Trees<S>,
    rulings: &Rulings,
    bytes: &mut Vec<u8>,
    shown: &Detail,
) -> Result<Option<Wrong>, Stop>
    ensures counted { Tells result trees.old trees.new (λ all wrong.
        wrong ≡ None → ShowsCounted all rulings.now.closes.items shown.now) }
    ensures looks { Looks result trees.old trees.new }
{
    let Some(record) = trees.record_of(alloc, &shown.name)? else {
        return Ok(Some(Wrong::NoRecord));
    };
    put_usage(bytes, &record.data_bytes)?;
    let usage = Type30::of_usage(bytes);
    if !shows(shown, &record, &usage) {
        return Ok(Some(Wrong::OtherDetail));
    }
    if !is_counted(trees, rulings, &record)? {
        return Ok(Some(Wrong::NotCounted));
    }
    Ok(None)
}

/// What is shown is a record which some period counts.
fn check_shown<S: Store>(
    alloc: Global,
    trees: &mut Trees<S>,
    rulings: &Rulings,
    bytes: &mut Vec<u8>,
    shown: &Detail,
) -> Result<(), Stop>
    ensures counted { Tells result trees.old trees.new (λ all _.
        ShowsCounted all rulings.now.closes.items shown.now) }
    ensures looks { Looks result trees.old trees.new }
{
    match wrong_with(alloc, trees, rulings, bytes, shown)? {
        Some(wrong) => Err(unsound(Place::Detail(place_of(shown)), wrong)),
        None => Ok(()),
    }
}

/// What a row of details says that its record costs.
fn cost_in(row: &Row) -> Result<Priced, StoreError>
    ensures { IfOk result (HasCost row.now) }
{
    Ok(Priced {
        day: day_at(row, 0)?,
        centre: name_at(row, 1)?,
        shift: name_at(row, 2)?,
        cpu: count_at(row, 9)?,
        excp: count_at(row, 10)?,
        amount: count_at(row, 11)?,
    })
}

/// What a row of details says, which has that and no more.
fn detail_in(row: &Row) -> Result<Detail, StoreError>
    requires { length row.now ≡ 12 }
    ensures read { IfOk result (λ shown. row.now ≡ detail_columns (shown, tt)) }
{
    Ok(Detail {
        priced: cost_in(row)?,
        time: number_at(row, 3)?,
        name: hash_at(row, 4)?,
        job: eight_at(row, 5)?,
        program: eight_at(row, 6)?,
        job_id: eight_at(row, 7)?,
        step: step_at(row, 8)?,
    })
}

/// Reads all details, of records that are counted. That each of these has a row was seen before.
/// What is in `bytes` is lost.
pub(crate) fn check_details<S: Store, W: Watch>(
    alloc: Global,
    trees: &mut Trees<S>,
    walk: &mut Walk,
    bytes: &mut Vec<u8>,
    rulings: &Rulings,
    watch: &mut W,
) -> Result<(), Stop>
    ensures details { Tells result trees.old trees.new (λ all _.
        AreDetails all rulings.now.closes.items) }
    ensures looks { Looks result trees.old trees.new }
{
    walk.begin(Tree::Details);
    'rows: for count in 0..MOST_ROWS {
        watch.read(Tree::Details, count);
        if !walk.next(trees)? {
            return Ok(());
        }
        let shown = match detail_in(walk.row()) {
            Ok(shown) => shown,
            Err(error) => return Err(met(Tree::Details, error)),
        };
        check_shown(alloc, trees, rulings, bytes, &shown)?;
    }
    Err(endless())
}
