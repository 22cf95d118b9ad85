//! The records that are counted, as details show them, in the order of details.

ghost use Rattle.std.specs.Prelude.{◌≡◌, ◌++◌, ◌∷◌, [], IfOk, OnOk};
ghost use Rattle.sqlite_value.specs.Value.{owned};
ghost use Rattle.book_model.specs.Words.{detail_with};
ghost use Rattle.tree_tables.specs.Columns.{detail_columns, step_value};
ghost use Rattle.tree_tables.specs.Details.{start_columns};

use crate::column_values::{
    counts_at, day_at, eight_at, hash_at, make_row, name_at, number_at, step_at,
};
use crate::columns::{
    DETAIL_CENTRE, DETAIL_CPU, DETAIL_DAY, DETAIL_JOB, DETAIL_JOB_ID, DETAIL_NAME, DETAIL_PROGRAM,
    DETAIL_SHIFT, DETAIL_STEP, DETAIL_TIME,
};
use crate::keys::number_key;
use crate::record_rows::push_price;
use crate::tables::TreeTables;
use crate::trees::DETAILS;
use book_model::Detail;
use smf_text::Name;
use smf_type30::Type30;
use sqlite_trees::error::StoreError;
use sqlite_trees::store::Store;
use sqlite_value::row::Row;
use sqlite_value::value::ValueRef;
use tariff_rules::Priced;
use tree_rows::first_from;

/// Which detail is the first of some.
#[derive(Clone, Copy)]
pub enum DetailStart {
    /// The first of all.
    First,
    /// The first of a day, in days since 1970-01-01, or of a later one.
    Day(i32),
    /// The first of a centre on a day, or the first that comes after its place.
    Centre(i32, Name),
    /// The first after one.
    After(Detail),
}

/// The number of a step as the value of a column.
fn step_column<'a>(step: Option<u16>) -> ValueRef<'a>
    ensures { owned result ≡ step_value step }
{
    match step {
        None => ValueRef::Null,
        Some(number) => ValueRef::Int(i64::from(number)),
    }
}

/// Makes the row of a record as details show it.
pub(crate) fn detail_row<'a>(
    row: &mut Row,
    name: &'a [u8],
    priced: &'a Priced,
    usage: &Type30<'a>,
) -> Result<(), StoreError>
    ensures { OnOk result (row.new
        ≡ detail_columns (detail_with name.now usage.now priced.now, tt)) }
{
    make_row(
        row,
        &[
            ValueRef::Int(i64::from(priced.day)),
            ValueRef::Text(priced.centre.text().as_bytes()),
            ValueRef::Text(priced.shift.text().as_bytes()),
            ValueRef::Int(i64::from(usage.moment().time)),
            ValueRef::Blob(name),
            ValueRef::Blob(usage.job()),
            ValueRef::Blob(usage.program()),
            ValueRef::Blob(usage.job_id()),
            step_column(usage.ended_step()),
        ],
    )?;
    push_price(row, priced)
}

/// What a row of details says that its record costs.
fn read_cost(row: &Row) -> Result<Priced, StoreError>
    ensures read { IfOk result (λ priced. (shown : Detail)
        → row.now ≡ detail_columns (shown, tt) → priced ≡ shown.priced) }
{
    let counts = counts_at(row, DETAIL_CPU)?;
    Ok(Priced {
        day: day_at(row, DETAIL_DAY)?,
        centre: name_at(row, DETAIL_CENTRE)?,
        shift: name_at(row, DETAIL_SHIFT)?,
        cpu: counts.cpu,
        excp: counts.blocks,
        amount: counts.amount,
    })
}

/// What a row of details says.
fn read_detail(row: &Row) -> Result<Detail, StoreError>
    ensures read { IfOk result (λ detail. (shown : Detail)
        → row.now ≡ detail_columns (shown, tt) → detail ≡ shown) }
{
    Ok(Detail {
        priced: read_cost(row)?,
        time: number_at(row, DETAIL_TIME)?,
        name: hash_at(row, DETAIL_NAME)?,
        job: eight_at(row, DETAIL_JOB)?,
        program: eight_at(row, DETAIL_PROGRAM)?,
        job_id: eight_at(row, DETAIL_JOB_ID)?,
        step: step_at(row, DETAIL_STEP)?,
    })
}

/// The bytes that come next after those of a name.
pub(crate) fn bytes_after(name: &[u8; 32]) -> [u8; 33]
    ensures { result ≡ name.now ++ 0 ∷ [] }
{
    let mut bytes = [0; 33];
    bytes[..32].copy_from_slice(name);
    bytes
}

/// The first columns of the details after one.
fn after_key(key: &mut Row, last: &Detail) -> Result<(), StoreError>
    ensures made { OnOk result (key.new ≡ start_columns (DetailStart.After last.now)) }
{
    number_key(key, i64::from(last.priced.day))?;
    key.push(ValueRef::Text(last.priced.centre.text().as_bytes()))?;
    key.push(ValueRef::Text(last.priced.shift.text().as_bytes()))?;
    key.push(ValueRef::Int(i64::from(last.time)))?;
    key.push(ValueRef::Blob(&bytes_after(&last.name)))?;
    Ok(())
}

/// The first columns of the details from a start on.
fn start_key(key: &mut Row, start: &DetailStart) -> Result<(), StoreError>
    ensures made { OnOk result (key.new ≡ start_columns start.now) }
{
    match start {
        DetailStart::First => {
            key.clear();
            Ok(())
        }
        DetailStart::Day(day) => number_key(key, i64::from(*day)),
        DetailStart::Centre(day, centre) => {
            number_key(key, i64::from(*day))?;
            key.push(ValueRef::Text(centre.text().as_bytes()))?;
            Ok(())
        }
        DetailStart::After(last) => after_key(key, last),
    }
}

impl<S: Store> TreeTables<S> {
    ghost use Rattle.tree_tables.specs.Details.{FindsDetail};
    ghost use Rattle.tree_tables.specs.States.{state_of};
    ghost use Rattle.tree_tables.specs.Steps.{Looks};

    /// The first detail from a start on, if there is one: one look.
    pub fn next_detail(&mut self, start: &DetailStart) -> Result<Option<Detail>, StoreError>
        ensures looks { Looks result (state_of self.old) (state_of self.new)
            (FindsDetail start.now) }
    {
        start_key(&mut self.key, start)?;
        if !first_from(&mut self.store, DETAILS, &self.key, &mut self.row)? {
            return Ok(None);
        }
        Ok(Some(read_detail(&self.row)?))
    }
}
