//! A member of an object that is a moment.

ghost use Rattle.std.specs.Prelude.{◌≡◌, ◌++◌, OnOk, string_bytes};
ghost use Rattle.mdns_browse.specs.Json.{comma_unless};
ghost use Rattle.mdns_trace.specs.MomentMember.{moment_member};

use mdns_browse::format::push_nanos;
use mdns_browse::json::push_text_member;
use mdns_capture::Moment;
use mdns_message::Want;
use std::alloc::Global;

/// Appends a member that is a moment.
#[tactic(auto, unfolding(crate::specs::MomentMember::moment_member))]
pub(crate) fn push_moment_member(
    alloc: Global,
    to: &mut String,
    first: bool,
    name: &str,
    moment: Moment,
) -> Result<(), Want>
    ensures { OnOk result (string_bytes to.new
        ≡ string_bytes to.old ++ (comma_unless first ++ moment_member name.now moment.nanos)) }
{
    let mut text = String::new(alloc);
    push_nanos(&mut text, moment.nanos())?;
    push_text_member(to, first, name, text.as_str())
}
