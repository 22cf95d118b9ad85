ghost use Rattle.std.specs.Prelude.{◌≡◌, ◌<◌, None, Ok, Some, IfOk, IfErr};
ghost use Rattle.smf_text.specs.Day.{IsDay};
ghost use Rattle.smf_text.specs.PackedDate.{packed_day_of};
ghost use Rattle.smf_type30.specs.Layout.{hundredths_per_day};
ghost use Rattle.smf_type30.specs.Class.{header_damage};

use crate::damage::Damage;
use crate::layout::HUNDREDTHS_PER_DAY;
use smf_frames::Header;
use smf_text::packed_day;

/// When a record was moved into the SMF buffer.
#[derive(Clone, Copy)]
pub struct Moment {
    /// The day, counted from 1970-01-01.
    pub day: i32,
    /// The time of day, in hundredths of a second since midnight.
    pub time: u32,
}

/// The day and the time of a header, or the first damage of the two.
#[tactic(auto, unfolding(crate::specs::Class::header_damage))]
pub fn moment_in(header: &Header) -> Result<Moment, Damage>
    ensures day { IfOk result (λ moment. packed_day_of header.now.date ≡ Ok moment.day) }
    ensures is_day { IfOk result (λ moment. IsDay moment.day) }
    ensures time { IfOk result (λ moment. moment.time ≡ header.now.time) }
    ensures is_time { IfOk result (λ moment. moment.time < hundredths_per_day) }
    ensures none { IfOk result (λ moment. header_damage header.now ≡ None) }
    ensures damage { IfErr result (λ damage. header_damage header.now ≡ Some damage) }
{
    let Ok(day) = packed_day(&header.date) else {
        return Err(Damage::Date);
    };
    if header.time >= HUNDREDTHS_PER_DAY {
        return Err(Damage::Time);
    }
    Ok(Moment {
        day,
        time: header.time,
    })
}
