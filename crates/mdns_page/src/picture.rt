//! The strokes of pictures: a bar for each life, a thin one for each life of a server, and a pin where a life ended.

ghost use Rattle.std.specs.{Prelude.{◌≡◌, ◌++◌, List, IfOk, OnOk, map}, List.{cons_option, flat_map}};
ghost use Rattle.std.specs.String.{string_bytes};
ghost use Rattle.mdns_page.specs.declared.picture.{StrokeSpan.{StrokeSpan}, Stroke.TheVariants.{Server}};
ghost use Rattle.mdns_page.specs.Picture.{bar_mark, bars, class_of, drawn_bar, end_mark, goes_on, is_for, is_same, mark_of};
ghost use Rattle.mdns_page.specs.{Picture.{mark_text, outlasts, path, path_begin, path_last, path_rest, title_word, titled_bar}, Timeline.{lives_lent}};

use crate::axis::Axis;
use crate::bar_titles::push_life_title;
use mdns_lives::{EndReason, Life, RecordLives};
use mdns_message::Want;

/// A kind of stroke. All strokes of a kind that a record has are one path.
#[derive(Clone, Copy)]
pub(crate) enum Stroke {
    /// A bar from the begin of a life to its end.
    Bar,
    /// Such a bar for a life of a server, which is an SRV record of the row's instance.
    Server,
    /// An upright line where a life ended for this reason.
    Pin(EndReason),
    /// The head of that line.
    Head(EndReason),
    /// A tick where the record was first heard in a second, in the lane that begins at this height.
    Tick(u64),
    /// A thick tick where its goodbye was heard, in a second that has one.
    GoodbyeTick(u64),
}

/// Where a stroke begins and ends on the axis.
#[derive(Clone, Copy)]
pub(crate) struct StrokeSpan {
    pub(crate) begin: u64,
    pub(crate) end: u64,
}

/// Appends the bars of each server.
pub(crate) fn push_servers(
    to: &mut String,
    axis: Axis,
    titled: bool,
    servers: &[RecordLives<'_>],
) -> Result<(), Want>
    ensures { OnOk result (string_bytes to.new
        ≡ string_bytes to.old ++ flat_map (bars axis titled Server) (map lives_lent servers.now)) }
{
    for server in servers {
        push_bars(to, axis, titled, Stroke::Server, server.lives.as_slice())?;
    }
    Ok(())
}

/// Appends the bars of some lives, each with a title, or all as one path.
#[tactic(auto, unfolding(crate::specs::Picture::bars))]
pub(crate) fn push_bars(
    to: &mut String,
    axis: Axis,
    titled: bool,
    stroke: Stroke,
    lives: &[Life],
) -> Result<(), Want>
    ensures { OnOk result (string_bytes to.new ≡ string_bytes to.old ++ bars axis titled stroke lives.now) }
{
    if titled {
        return push_titled_bars(to, axis, stroke, lives);
    }
    push_path(to, axis, stroke, lives)
}

fn push_titled_bars(to: &mut String, axis: Axis, stroke: Stroke, lives: &[Life]) -> Result<(), Want>
    ensures { OnOk result (string_bytes to.new ≡ string_bytes to.old ++ flat_map (titled_bar axis stroke) lives.now) }
{
    for life in lives {
        push_titled_bar(to, axis, stroke, life)?;
    }
    Ok(())
}

fn push_titled_bar(to: &mut String, axis: Axis, stroke: Stroke, life: &Life) -> Result<(), Want>
    ensures { OnOk result (string_bytes to.new ≡ string_bytes to.old ++ titled_bar axis stroke life.now) }
{
    if axis.window.meets(life) {
        return push_drawn_bar(to, axis, stroke, life);
    }
    Ok(())
}

fn push_drawn_bar(to: &mut String, axis: Axis, stroke: Stroke, life: &Life) -> Result<(), Want>
    ensures { OnOk result (string_bytes to.new ≡ string_bytes to.old ++ drawn_bar axis stroke life.now) }
{
    push_path_begin(to, stroke)?;
    push_mark(to, stroke, bar_mark(axis, life))?;
    to.push_str("\"><title>")?;
    to.push_str(title_word(stroke))?;
    push_life_title(to, goes_on(axis, life), life)?;
    to.push_str("</title></path>")?;
    Ok(())
}

// Returns what a title says before the life: whose it is, unless it is that of the row's record.
fn title_word(stroke: Stroke) -> &'static str
    ensures { result.now ≡ title_word stroke }
{
    match stroke {
        Stroke::Server => "server ",
        _ => "",
    }
}

/// Appends the strokes of a kind as one path; nothing where no life has one.
#[tactic(auto, using(std::proofs::lemmas::Result::on_ok_weaker, crate::proofs::PathLemmas::for_push_path), unfolding(crate::specs::Picture::path, crate::specs::Picture::path_rest))]
pub(crate) fn push_path(
    to: &mut String,
    axis: Axis,
    stroke: Stroke,
    lives: &[Life],
) -> Result<(), Want>
    ensures { OnOk result (string_bytes to.new ≡ string_bytes to.old ++ path (mark_of axis) stroke lives.now) }
{
    let mut before = None;
    for life in lives {
        before = push_next(to, stroke, before, mark_of(axis, stroke, life))?;
    }
    push_path_last(to, before)
}

/// Appends the next stroke of a path, if there is one, unless it is the same as the one before. Returns the last
/// stroke then.
#[tactic(auto, using(crate::proofs::PathLemmas::for_push_next))]
pub(crate) fn push_next(
    to: &mut String,
    stroke: Stroke,
    before: Option<StrokeSpan>,
    next: Option<StrokeSpan>,
) -> Result<Option<StrokeSpan>, Want>
    ensures { IfOk result (λ last. (marks : List StrokeSpan) → string_bytes to.new ++ path_rest stroke last marks
        ≡ string_bytes to.old ++ path_rest stroke before (cons_option next marks)) }
{
    let Some(mark) = next else {
        return Ok(before);
    };
    let Some(last) = before else {
        push_path_begin(to, stroke)?;
        push_mark(to, stroke, mark)?;
        return Ok(Some(mark));
    };
    if is_same(last, mark) {
        return Ok(before);
    }
    push_mark(to, stroke, mark)?;
    Ok(Some(mark))
}

/// Appends what ends a path, if it has a stroke.
pub(crate) fn push_path_last(to: &mut String, last: Option<StrokeSpan>) -> Result<(), Want>
    ensures { OnOk result (string_bytes to.new ≡ string_bytes to.old ++ path_last last) }
{
    match last {
        Some(_) => Ok(to.push_str("\"/>")?),
        None => Ok(()),
    }
}

// Returns where a life has a stroke of this kind, if it has one; only lives that meet the window are drawn.
fn mark_of(axis: Axis, stroke: Stroke, life: &Life) -> Option<StrokeSpan>
    ensures { result ≡ mark_of axis stroke life.now }
{
    if !axis.window.meets(life) {
        return None;
    }
    match stroke {
        Stroke::Bar | Stroke::Server => Some(bar_mark(axis, life)),
        Stroke::Pin(reason) | Stroke::Head(reason) => end_mark(axis, reason, life),
        Stroke::Tick(_) | Stroke::GoodbyeTick(_) => None,
    }
}

// Returns from where to where the bar of a life is.
fn bar_mark(axis: Axis, life: &Life) -> StrokeSpan
    ensures { result ≡ bar_mark axis life.now }
{
    let from = life.from.nanos();
    StrokeSpan {
        begin: axis.place(from),
        end: axis.place_end(from, life.until),
    }
}

// Returns where a life ended, if it did so for this reason.
fn end_mark(axis: Axis, reason: EndReason, life: &Life) -> Option<StrokeSpan>
    ensures { result ≡ end_mark axis reason life.now }
{
    if outlasts(axis, life) || !is_for(reason, life.reason) {
        return None;
    }
    let end = axis.place_end(life.from.nanos(), life.until);
    Some(StrokeSpan { begin: end, end })
}

// Checks that a life goes on after the end of the axis, or of the captures.
fn outlasts(axis: Axis, life: &Life) -> bool
    ensures { result ≡ outlasts axis life.now }
{
    axis.end.nanos().min(axis.now.nanos()) < life.until
}

/// Checks that a life goes on after the end of the captures.
pub(crate) fn goes_on(axis: Axis, life: &Life) -> bool
    ensures { result ≡ goes_on axis life.now }
{
    axis.now.nanos() < life.until
}

/// Checks that a reason is this one.
pub(crate) fn is_for(reason: EndReason, other: EndReason) -> bool
    ensures { result ≡ is_for reason other }
{
    match (reason, other) {
        (EndReason::Expired, EndReason::Expired) => true,
        (EndReason::Goodbye, EndReason::Goodbye) => true,
        (EndReason::Flushed, EndReason::Flushed) => true,
        _ => false,
    }
}

// Checks that two marks are the same.
fn is_same(mark: StrokeSpan, other: StrokeSpan) -> bool
    ensures { result ≡ is_same mark other }
{
    mark.begin == other.begin && mark.end == other.end
}

#[tactic(auto, unfolding(crate::specs::Picture::path_begin))]
fn push_path_begin(to: &mut String, stroke: Stroke) -> Result<(), Want>
    ensures { OnOk result (string_bytes to.new ≡ string_bytes to.old ++ path_begin stroke) }
{
    to.push_str("<path class=\"")?;
    to.push_str(class_of(stroke))?;
    to.push_str("\" d=\"")?;
    Ok(())
}

// Returns the class by which the style draws strokes of this kind.
fn class_of(stroke: Stroke) -> &'static str
    ensures { result.now ≡ class_of stroke }
{
    match stroke {
        Stroke::Bar => "b",
        Stroke::Server => "s",
        Stroke::Pin(EndReason::Goodbye) => "m1",
        Stroke::Pin(EndReason::Expired) => "m2",
        Stroke::Pin(EndReason::Flushed) => "m3",
        Stroke::Head(EndReason::Goodbye) => "h1",
        Stroke::Head(EndReason::Expired) => "h2",
        Stroke::Head(EndReason::Flushed) => "h3",
        Stroke::Tick(_) => "t",
        Stroke::GoodbyeTick(_) => "z",
    }
}

#[tactic(auto, unfolding(crate::specs::Picture::mark_text))]
fn push_mark(to: &mut String, stroke: Stroke, mark: StrokeSpan) -> Result<(), Want>
    ensures { OnOk result (string_bytes to.new ≡ string_bytes to.old ++ mark_text stroke mark) }
{
    match stroke {
        Stroke::Bar => write!(to, "M{} 12H{}", mark.begin, mark.end)?,
        Stroke::Server => write!(to, "M{} 19H{}", mark.begin, mark.end)?,
        Stroke::Pin(_) => write!(to, "M{} 4V17", mark.begin)?,
        Stroke::Head(_) => write!(to, "M{} 4h.01", mark.begin)?,
        Stroke::Tick(top) => write!(to, "M{} {top}v5", mark.begin)?,
        Stroke::GoodbyeTick(top) => write!(to, "M{} {top}v5", mark.begin)?,
    }
    Ok(())
}
