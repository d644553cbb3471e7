//! Lives in words.

ghost use Rattle.std.specs.{Prelude.{◌≡◌, true, false, ◌==◌, ◌∷◌, [], ◌++◌, codes, if◌then◌else◌, OnOk}, List.{flat_map}};
ghost use Rattle.std.specs.String.{string_bytes};
ghost use Rattle.mdns_page.specs.{BarTitles.{end_words}, Counts.{commas}, LifeWords.{life_words, lives_words}, Axis.{is_same_date, short_text}, Picture.{goes_on}};
ghost use Rattle.mdns_page.specs.declared.axis.Dates.TheVariants.{Omitted};

use crate::axis::{Axis, Dates, is_same_date, push_short};
use crate::bar_titles::push_end_words;
use crate::counts::push_commas;
use crate::picture::goes_on;
use mdns_lives::Life;
use mdns_message::Want;

/// How many lives of a row are told in words.
const TOLD_LIVES: usize = 3;

/// Appends the last three lives of a row, and before them how many were earlier.
pub(crate) fn push_lives_words(to: &mut String, axis: Axis, lives: &[Life]) -> Result<(), Want>
    ensures { OnOk result (string_bytes to.new ≡ string_bytes to.old ++ lives_words axis lives.now) }
{
    let earlier = lives.len().saturating_sub(TOLD_LIVES);
    push_earlier(to, earlier)?;
    push_each(to, axis, &lives[earlier..])
}

// Appends how many lives aren't told; nothing where there is none.
fn push_earlier(to: &mut String, count: usize) -> Result<(), Want>
    ensures { OnOk result (string_bytes to.new ≡ string_bytes to.old
        ++ (if count == 0 then [] else codes "<small>" ++ commas count ++ codes " earlier</small>")) }
{
    if count == 0 {
        return Ok(());
    }
    to.push_str("<small>")?;
    push_commas(to, count as u128)?;
    to.push_str(" earlier</small>")?;
    Ok(())
}

fn push_each(to: &mut String, axis: Axis, lives: &[Life]) -> Result<(), Want>
    ensures { OnOk result (string_bytes to.new ≡ string_bytes to.old ++ flat_map (life_words axis) lives.now) }
{
    for life in lives {
        push_life(to, axis, life)?;
    }
    Ok(())
}

// Appends a life: from when until when, and why it ended.
#[tactic(auto, unfolding(crate::specs::LifeWords::life_words))]
fn push_life(to: &mut String, axis: Axis, life: &Life) -> Result<(), Want>
    ensures { OnOk result (string_bytes to.new ≡ string_bytes to.old ++ life_words axis life.now) }
{
    to.push_str("<p>")?;
    push_short(to, axis.dates, life.from.nanos())?;
    to.push_str(" &#8211; ")?;
    push_end(to, axis, life)?;
    to.push_str("</p>")?;
    Ok(())
}

fn push_end(to: &mut String, axis: Axis, life: &Life) -> Result<(), Want>
    ensures { OnOk result (string_bytes to.new ≡ string_bytes to.old
        ++ (if goes_on axis life.now then codes "<b>" ++ end_words true life.now ++ codes "</b>"
        else short_text (if is_same_date life.now.from.nanos life.now.until then Omitted else axis.dates) life.now.until
        ++ 32 ∷ end_words false life.now)) }
{
    if goes_on(axis, life) {
        to.push_str("<b>")?;
        push_end_words(to, true, life)?;
        to.push_str("</b>")?;
        return Ok(());
    }
    let same = is_same_date(life.from.nanos(), life.until);
    let dates = if same { Dates::Omitted } else { axis.dates };
    push_short(to, dates, life.until)?;
    to.push(' ')?;
    push_end_words(to, false, life)
}
