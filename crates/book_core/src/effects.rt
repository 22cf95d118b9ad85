//! What a new record, or a choice, changes in kept rows, beside its own row and the row of the
//! book. It follows from the records that are held of one identity, and from the last close.

ghost use Rattle.std.specs.Prelude.{◌≡◌, option_map};
ghost use Rattle.book_core.specs.Effects.{HasOnly, charge, charge_held, choice_effects, effects_of};
ghost use Rattle.book_core.specs.Effects.{withdraw};

use crate::close_days::is_after;
use tariff_rules::Priced;

/// What a ledger looks at for a new record.
#[derive(Clone, Copy)]
pub struct View {
    /// The day of the last close, if there was one, in days since 1970-01-01.
    pub through: Option<i32>,
    /// How many records that are held have the new record's identity.
    pub members: u64,
    /// That record, where there is one.
    pub only: Option<Member>,
}

/// A record that is held, as its row says.
#[derive(Clone, Copy)]
pub struct Member {
    /// The name of the record's data.
    pub name: [u8; 32],
    pub priced: Priced,
    /// It is charged now.
    pub charged: bool,
    /// The last close charged it.
    pub posted: bool,
}

/// What a new record changes, at most one of the open period's rows and lines.
#[derive(Clone, Copy)]
pub struct Effects {
    /// The new record is charged.
    pub charged: bool,
    /// The record that is charged no more.
    pub unmark: Option<[u8; 32]>,
    pub day: Option<DayChange>,
    pub line: Option<LineChange>,
}

/// A change of the open period's charge rows.
#[derive(Clone, Copy)]
pub enum DayChange {
    /// A price joins the row of its day, centre and shift.
    Add(Priced),
    /// A price leaves that row, which goes with the last one.
    Take(Priced),
}

/// A change of the open period's adjustment lines, by the name of the record.
#[derive(Clone, Copy)]
pub enum LineChange {
    /// The period charges the record late.
    AddPlus([u8; 32]),
    /// It does not after all.
    DropPlus([u8; 32]),
    /// The period reverses what an earlier one charged.
    AddMinus([u8; 32]),
    /// It does not after all.
    DropMinus([u8; 32]),
}

/// What a new record changes, by its name and its price.
pub fn plan(view: &View, name: [u8; 32], priced: &Priced) -> Effects
    requires only { HasOnly view.now }
    ensures effects { result ≡ effects_of view.now name priced.now }
{
    match &view.only {
        Some(member) => withdrawn(view.through, member),
        None => {
            if view.members == 0 {
                charged(view.through, name, priced)
            } else {
                Effects {
                    charged: false,
                    unmark: None,
                    day: None,
                    line: None,
                }
            }
        }
    }
}

/// What the choice of a record changes.
#[derive(Clone, Copy)]
pub struct ChoiceEffects {
    /// The record that was charged until now is charged no more, where there was one.
    pub withdrawn: Option<Effects>,
    /// The chosen record is charged.
    pub chosen: Effects,
}

/// What a choice changes, by the record of the identity that is charged until now, and by the
/// chosen one.
pub fn plan_choice(through: Option<i32>, current: Option<Member>, chosen: &Member) -> ChoiceEffects
    ensures effects { result ≡ choice_effects through current chosen.now }
{
    let withdrawn = match &current {
        Some(member) => Some(withdrawn(through, member)),
        None => None,
    };
    ChoiceEffects {
        withdrawn,
        chosen: plan_charge(through, chosen),
    }
}

/// What a choice of none changes, by the record of the identity that is charged until now: that one
/// is charged no more, where there was one.
pub fn plan_withheld(through: Option<i32>, current: Option<Member>) -> Option<Effects>
    ensures effects { result ≡ option_map (withdraw through) current }
{
    match &current {
        Some(standing) => Some(withdrawn(through, standing)),
        None => None,
    }
}

/// What it changes that a record which is held is charged from now on.
pub fn plan_charge(through: Option<i32>, member: &Member) -> Effects
    ensures effects { result ≡ charge_held through member.now }
{
    if member.posted {
        Effects {
            charged: true,
            unmark: None,
            day: None,
            line: Some(LineChange::DropMinus(member.name)),
        }
    } else {
        charged(through, member.name, &member.priced)
    }
}

/// A record with a new identity is charged.
fn charged(through: Option<i32>, name: [u8; 32], priced: &Priced) -> Effects
    ensures { result ≡ charge through name priced.now }
{
    let by = if is_after(through, priced.day) {
        (Some(DayChange::Add(*priced)), None)
    } else {
        (None, Some(LineChange::AddPlus(name)))
    };
    Effects {
        charged: true,
        unmark: None,
        day: by.0,
        line: by.1,
    }
}

/// A record that was alone in its identity is charged no more.
fn withdrawn(through: Option<i32>, member: &Member) -> Effects
    ensures { result ≡ withdraw through member.now }
{
    let name = member.name;
    let by = if member.posted {
        (None, Some(LineChange::AddMinus(name)))
    } else if is_after(through, member.priced.day) {
        (Some(DayChange::Take(member.priced)), None)
    } else {
        (None, Some(LineChange::DropPlus(name)))
    };
    Effects {
        charged: false,
        unmark: Some(name),
        day: by.0,
        line: by.1,
    }
}
