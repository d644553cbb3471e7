//! Durations as text.

ghost use Rattle.std.specs.{Prelude.{◌≡◌, ◌++◌, OnOk}, String.{string_bytes}};
ghost use Rattle.people_text.specs.MomentText.{duration_text, two_units};

use mdns_capture::moment::SECOND;
use memory::Want;

const MINUTE: u64 = 60;

const HOUR: u64 = 60 * MINUTE;

const DAY: u64 = 24 * HOUR;

/// Appends a duration of so many nanoseconds, cut off and not rounded: the greatest unit that fits, and the next one
/// unless there are none of it, as `3 d 4 h` or `2 min`; `under 1 s` below one second.
#[tactic(auto, unfolding(crate::specs::MomentText::duration_text))]
pub fn push_duration(to: &mut String, nanos: u64) -> Result<(), Want>
    ensures { OnOk result (string_bytes to.new ≡ string_bytes to.old ++ duration_text nanos) }
{
    let seconds = nanos / SECOND;
    if seconds == 0 {
        to.push_str("under 1 s")?;
        return Ok(());
    }
    if seconds >= DAY {
        return push_units(to, seconds / DAY, "d", seconds / HOUR % 24, "h");
    }
    if seconds >= HOUR {
        return push_units(to, seconds / HOUR, "h", seconds / MINUTE % 60, "min");
    }
    if seconds >= MINUTE {
        return push_units(to, seconds / MINUTE, "min", seconds % MINUTE, "s");
    }
    write!(to, "{seconds} s")?;
    Ok(())
}

// Appends so many of a unit, and so many of the next one, unless there are none of it.
#[tactic(auto, unfolding(crate::specs::MomentText::two_units))]
fn push_units(to: &mut String, count: u64, unit: &str, below: u64, next: &str) -> Result<(), Want>
    ensures { OnOk result (string_bytes to.new ≡ string_bytes to.old ++ two_units count unit.now below next.now) }
{
    write!(to, "{count} {unit}")?;
    if below == 0 {
        return Ok(());
    }
    write!(to, " {below} {next}")?;
    Ok(())
}
