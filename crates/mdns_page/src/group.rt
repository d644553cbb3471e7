//! What the headings of groups begin with, and the axis in them.

ghost use Rattle.std.specs.{Prelude.{◌≡◌, ◌++◌, codes, if◌then◌else◌, OnOk}, String.{string_bytes}};
ghost use Rattle.mdns_page.specs.Group.{axis_picture};

use mdns_message::Want;

/// Appends what stands before the name of a group. With `opened` its rows show at first.
pub(crate) fn push_group_begin(to: &mut String, opened: bool) -> Result<(), Want>
    ensures { OnOk result (string_bytes to.new ≡ string_bytes to.old
        ++ (if opened then codes "<details open><summary>" else codes "<details><summary>")) }
{
    to.push_str(if opened {
        "<details open><summary>"
    } else {
        "<details><summary>"
    })?;
    Ok(())
}

/// Appends the axis with the labels of its ticks, for the middle of a group's heading.
#[tactic(auto, unfolding(crate::specs::Group::axis_picture))]
pub(crate) fn push_axis_picture(to: &mut String) -> Result<(), Want>
    ensures { OnOk result (string_bytes to.new ≡ string_bytes to.old ++ axis_picture) }
{
    to.push_str("<svg class=\"x\" aria-hidden=\"true\"><use href=\"#x\"/></svg>")?;
    Ok(())
}
