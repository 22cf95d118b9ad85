//! Keys as they are looked for: the first columns of rows.

ghost use Rattle.std.specs.Prelude.{◌≡◌, ◌∷◌, [], OnOk, pos};
ghost use Rattle.sqlite_value.specs.declared.value.Value.TheVariants.{Blob, Int};

use crate::column_values::push_number;
use sqlite_trees::error::StoreError;
use sqlite_value::row::Row;
use sqlite_value::value::ValueRef;

/// The mark of a record that is not charged.
pub(crate) const NOT_CHARGED: i64 = 0;

/// The mark of a charged record.
pub(crate) const IS_CHARGED: i64 = 1;

/// A number as a key.
pub(crate) fn number_key(key: &mut Row, number: i64) -> Result<(), StoreError>
    ensures made { OnOk result (key.new ≡ Int number ∷ []) }
{
    key.clear();
    key.push(ValueRef::Int(number))?;
    Ok(())
}

/// A day as a key.
pub(crate) fn day_key(key: &mut Row, day: i32) -> Result<(), StoreError>
    ensures { OnOk result (key.new ≡ Int day ∷ []) }
{
    number_key(key, i64::from(day))
}

/// A period as a key.
pub(crate) fn period_key(key: &mut Row, period: u16) -> Result<(), StoreError>
    ensures made { OnOk result (key.new ≡ Int (pos period) ∷ []) }
{
    number_key(key, i64::from(period))
}

/// The number of a choice, a credit or a tariff that was replaced, as a key.
pub(crate) fn ruling_key(key: &mut Row, number: u32) -> Result<(), StoreError>
    ensures made { OnOk result (key.new ≡ Int (pos number) ∷ []) }
{
    number_key(key, i64::from(number))
}

/// The number of an entry of the journal as a key.
pub(crate) fn entry_key(key: &mut Row, number: u64) -> Result<(), StoreError>
    ensures made { OnOk result (key.new ≡ Int (pos number) ∷ []) }
{
    key.clear();
    push_number(key, number)
}

/// Bytes as a key.
pub(crate) fn bytes_key(key: &mut Row, bytes: &[u8]) -> Result<(), StoreError>
    ensures made { OnOk result (key.new ≡ Blob bytes.now ∷ []) }
{
    key.clear();
    key.push(ValueRef::Blob(bytes))?;
    Ok(())
}
