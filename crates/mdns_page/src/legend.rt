//! The key of the timeline: what the strokes of its pictures mean.

ghost use Rattle.std.specs.{Prelude.{◌≡◌, ◌++◌, OnOk}, String.{string_bytes}};
ghost use Rattle.mdns_page.specs.Legend.{key, lanes_key};

use mdns_message::Want;

/// What the strokes for lives mean.
const LIVES_KEY: &str = "<p class=\"key\">\
    <span><svg class=\"k\" viewBox=\"0 0 26 16\" preserveAspectRatio=\"none\" aria-hidden=\"true\">\
    <path class=\"b\" d=\"M0 9H26\"/></svg>live</span> \
    <span><svg class=\"k\" viewBox=\"0 0 26 16\" preserveAspectRatio=\"none\" aria-hidden=\"true\">\
    <path class=\"b\" d=\"M0 9H20\"/><path class=\"m1\" d=\"M20 2V14\"/><path class=\"h1\" d=\"M20 2h.01\"/></svg>\
    ended by goodbye</span> \
    <span><svg class=\"k\" viewBox=\"0 0 26 16\" preserveAspectRatio=\"none\" aria-hidden=\"true\">\
    <path class=\"b\" d=\"M0 9H20\"/><path class=\"m2\" d=\"M20 2V14\"/></svg>expired: not heard again</span> \
    <span><svg class=\"k\" viewBox=\"0 0 26 16\" preserveAspectRatio=\"none\" aria-hidden=\"true\">\
    <path class=\"b\" d=\"M0 9H20\"/><path class=\"m3\" d=\"M20 2V14\"/><path class=\"h3\" d=\"M20 2h.01\"/></svg>\
    flushed by other data</span> \
    <span><svg class=\"k\" viewBox=\"0 0 26 16\" preserveAspectRatio=\"none\" aria-hidden=\"true\">\
    <path class=\"s\" d=\"M0 9H26\"/></svg>its server (SRV) live</span>";

/// What those of lanes mean.
const LANES_KEY: &str = " \
    <span><svg class=\"k\" viewBox=\"0 0 26 16\" preserveAspectRatio=\"none\" aria-hidden=\"true\">\
    <path class=\"n\" d=\"M0 11H26\"/><path class=\"t\" d=\"M4 6v5M9 6v5M20 6v5\"/></svg>heard, while recording</span> \
    <span><svg class=\"k\" viewBox=\"0 0 26 16\" preserveAspectRatio=\"none\" aria-hidden=\"true\">\
    <path class=\"n\" d=\"M0 11H26\"/><path class=\"z\" d=\"M13 6v5\"/></svg>goodbye heard</span>";

/// Appends what the strokes of the pictures mean.
pub(crate) fn push_legend(to: &mut String, lanes: u32) -> Result<(), Want>
    ensures { OnOk result (string_bytes to.new ≡ string_bytes to.old ++ key lanes) }
{
    to.push_str(LIVES_KEY)?;
    to.push_str(lanes_key(lanes))?;
    to.push_str("</p>\n")?;
    Ok(())
}

// Returns what the strokes of lanes mean; nothing where there are no lanes.
#[tactic(auto, unfolding(crate::specs::Legend::key_entry, crate::specs::Legend::lanes_key))]
fn lanes_key(lanes: u32) -> &'static str
    ensures { result.now ≡ lanes_key lanes }
{
    if lanes == 0 { "" } else { LANES_KEY }
}
