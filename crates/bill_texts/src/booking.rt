//! Booked sums: what is owed, rounded to the decimals that the office books.

ghost use Rattle.std.specs.Prelude.{◌≡◌, ◌++◌, ◌<◌, ◌^◌, ◌+ℤ◌, ◌-ℤ◌, All, IfSome, map, pos};
ghost use Rattle.report_texts.specs.Charges.{FitCharges};
ghost use Rattle.bill_texts.specs.Booked as spec;
ghost use Rattle.bill_texts.specs.Booked.{BookedIsNearest};

use report_texts::{CentreCharges, Charges, charged_in, push_amount, taken_in};
use text_drafts::Draft;

/// How many ten-thousandths of the money unit the last of so many decimals stands for.
#[tactic(auto, unfolding(crate::specs::Booked::unit_of))]
fn unit_of(decimals: u8) -> u64
    ensures value { result ≡ spec.unit_of decimals }
    ensures some { 0 < result }
{
    if decimals == 0 {
        10_000
    } else if decimals == 1 {
        1000
    } else if decimals == 2 {
        100
    } else if decimals == 3 {
        10
    } else {
        1
    }
}

/// How many units are nearest to an amount, a half upwards.
fn nearest(unit: u64, amount: u64) -> u128
    requires { 0 < unit }
    ensures nearest { result ≡ spec.nearest unit amount }
    ensures within { result < 2 ^ 65 }
{
    (u128::from(amount) + u128::from(unit / 2)) / u128::from(unit)
}

/// What is booked of what was charged less what was taken off: so many units of the last decimal,
/// halves away from zero.
fn booked(unit: u64, charged: u64, reversed: u64) -> i128
    requires { 0 < unit }
    ensures { result ≡ spec.booked unit (pos charged -ℤ pos reversed) }
{
    if charged < reversed {
        -(nearest(unit, reversed - charged) as i128)
    } else {
        nearest(unit, charged - reversed) as i128
    }
}

/// What the bill of a centre books, in units.
pub fn booked_by_centre(unit: u64, charges: &Charges) -> i128
    requires unit { 0 < unit }
    requires charges { FitCharges charges.now }
    ensures value { result ≡ spec.booked unit (spec.owed_of charges.now) }
    ensures nearest { BookedIsNearest }
{
    booked(unit, charged_in(charges), taken_in(charges))
}

/// What is booked, with one more centre, if 128 bits hold it.
fn booked_with(sum: i128, unit: u64, own: &CentreCharges) -> Option<i128>
    requires unit { 0 < unit }
    requires own { FitCharges own.now.charges }
    ensures { IfSome result (λ more. more ≡ sum +ℤ spec.booked unit (spec.owed_by own.now)) }
{
    Some(sum.checked_add(booked_by_centre(unit, &own.charges))?)
}

/// What the office books, in units: the sum of what the bills of its centres do. No books come to
/// more than 128 bits hold.
#[tactic(auto, using(crate::proofs::BookedLemmas::booked_more))]
fn booked_by_all(unit: u64, each: &[CentreCharges]) -> Option<i128>
    requires unit { 0 < unit }
    requires each { All (λ one. FitCharges one.charges) each.now }
    ensures { IfSome result (λ sum.
        sum ≡ spec.booked_of_all unit (map spec.owed_by each.now)) }
{
    let mut sum: i128 = 0;
    for one in each {
        sum = booked_with(sum, unit, one)?;
    }
    Some(sum)
}

/// Appends the last digit of a number.
fn push_last_digit(out: &mut Draft, number: u64)
    ensures { out.new ≡ out.old ++ spec.last_digit number }
{
    out.push_number(number % 10);
}

/// Appends units of the last of three decimals.
fn push_thousandths(out: &mut Draft, units: u64)
    ensures { out.new ≡ out.old ++ spec.thousandths_text units }
{
    out.push_number(units / 1000);
    out.push('.');
    push_last_digit(out, units / 100);
    push_last_digit(out, units / 10);
    push_last_digit(out, units);
}

/// Appends units of the last of two decimals.
fn push_hundredths(out: &mut Draft, units: u64)
    ensures { out.new ≡ out.old ++ spec.hundredths_text units }
{
    out.push_number(units / 100);
    out.push('.');
    push_last_digit(out, units / 10);
    push_last_digit(out, units);
}

/// Appends units of the last of one decimal.
fn push_tenths(out: &mut Draft, units: u64)
    ensures { out.new ≡ out.old ++ spec.tenths_text units }
{
    out.push_number(units / 10);
    out.push('.');
    push_last_digit(out, units);
}

/// Appends units of the last of some decimals.
#[tactic(auto, unfolding(crate::specs::Booked::units_text))]
fn push_units(out: &mut Draft, decimals: u8, units: u64)
    ensures { out.new ≡ out.old ++ spec.units_text decimals units }
{
    if decimals == 0 {
        out.push_number(units);
    } else if decimals == 1 {
        push_tenths(out, units);
    } else if decimals == 2 {
        push_hundredths(out, units);
    } else if decimals == 3 {
        push_thousandths(out, units);
    } else {
        push_amount(out, units);
    }
}

/// Appends units of the last of some decimals, if 64 bits hold them, as they do for all books.
fn push_fitting(out: &mut Draft, decimals: u8, units: u128)
    ensures { out.new ≡ out.old ++ spec.units_text decimals units }
{
    if units <= u128::from(u64::MAX) {
        push_units(out, decimals, units as u64);
    } else {
        out.leave_out(&(decimals, units));
    }
}

/// Appends what is booked, by units of the last of some decimals.
#[tactic(auto, unfolding(crate::specs::Booked::booked_text))]
fn push_booked(out: &mut Draft, decimals: u8, booked: i128)
    ensures { out.new ≡ out.old ++ spec.booked_text decimals booked }
{
    if booked < 0 {
        out.push('-');
    }
    push_fitting(out, decimals, booked.unsigned_abs());
}

/// Appends what the bill of a centre books.
pub(crate) fn push_booked_by_centre(out: &mut Draft, decimals: u8, charges: &Charges)
    requires { FitCharges charges.now }
    ensures { out.new ≡ out.old ++ spec.booked_text decimals
        (spec.booked (spec.unit_of decimals) (spec.owed_of charges.now)) }
{
    push_booked(out, decimals, booked_by_centre(unit_of(decimals), charges));
}

/// Appends what the office books.
pub(crate) fn push_booked_by_all(out: &mut Draft, decimals: u8, each: &[CentreCharges])
    requires { All (λ one. FitCharges one.charges) each.now }
    ensures { out.new ≡ out.old ++ spec.booked_text decimals
        (spec.booked_of_all (spec.unit_of decimals) (map spec.owed_by each.now)) }
{
    match booked_by_all(unit_of(decimals), each) {
        Some(sum) => push_booked(out, decimals, sum),
        None => out.leave_out(&(decimals, each)),
    }
}
