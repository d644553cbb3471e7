//! The command line of `mdnswhy`.

ghost use Rattle.std.specs.Prelude.{◌≡◌, ◌≢◌, [], IfErr, IfOk, None, codes, map, string_bytes};
ghost use Rattle.command_line.specs.{Line.{IsAsked}, CommandLine.{AsksWhy, in_form, why_line}, OptionFault.{IsUnmade, MakesNoInquiry}};
ghost use Rattle.mdns_listeners.specs.Groups.{unfit_prefix};

use crate::flags::{FILES_FLAGS, HEARINGS_FLAGS, LISTENERS_FLAGS, PACKETS_FLAGS, SPANS_FLAGS};
use crate::help;
use crate::line::{CommandTable, Subcommand, subcommands};
use crate::scope::read_scope;
use crate::words::{AskFault, Asked, WhyAsks};
use mdns_browse::report::Form;
use mdns_trace::{Inquiry, Trace};
use std::alloc::Global;

/// The command line, with what each subcommand asks for where no flag asks for a form.
const WHY_ASKED: CommandTable<Inquiry> = CommandTable {
    name: "mdnswhy",
    page: help::WHY,
    has_version: true,
    subcommands: subcommands! {
        "hearings", HEARINGS, HEARINGS_FLAGS, Inquiry::Trace(Trace::Hearings(Form::Lines));
        "packets", PACKETS, PACKETS_FLAGS, Inquiry::Trace(Trace::Packets(Form::Lines));
        "spans", SPANS, SPANS_FLAGS, Inquiry::Trace(Trace::Spans(Form::Lines));
        "files", FILES, FILES_FLAGS, Inquiry::Files(Form::Lines);
        "listeners", LISTENERS, LISTENERS_FLAGS, Inquiry::Listeners(Form::Lines);
    },
};

/// Reads the words of a command line of `mdnswhy`, of which the first is the program's name.
///
/// It is a subcommand with the flags that its help lists, and then one or more files. Moments are as `asked` reads them. `--help`
/// asks for help, and `--version` for the version.
///
/// # Errors
///
/// `Help` where help was asked for, `Version` where the version was, `Refused` where the words are no such command line, or their
/// options make no inquiry (`MakesNoInquiry`), and `Memory` where an allocation failed.
pub fn why_asked(alloc: Global, words: Vec<String>) -> Result<Asked<WhyAsks>, AskFault>
    ensures asked { IfOk result (IsAsked AsksWhy why_line (map string_bytes words.items)) }
    ensures files { IfOk result (λ asked. asked.names.items ≢ []) }
    ensures fit { IfOk result (λ asked.
        unfit_prefix (map string_bytes asked.what.lists.listeners.items) (map string_bytes asked.names.items) ≡ None) }
    ensures unasked { IfErr result (IsUnmade MakesNoInquiry (codes "mdnswhy") why_line (map string_bytes words.items)) }
{
    match read_scope(alloc, &WHY_ASKED, words.as_slice()) {
        Ok(asked) => {
            let (what, scope) = asked.what;
            Ok(Asked {
                what: WhyAsks {
                    inquiry: in_form(what.0, scope.form),
                    skip_unusable: scope.options.skip_unusable,
                    lists: scope.options.lists,
                    window: scope.window,
                },
                names: asked.names,
            })
        }
        Err(fault) => Err(fault),
    }
}

// Returns the same in this form.
fn in_form(inquiry: Inquiry, form: Form) -> Inquiry
    ensures { result ≡ in_form inquiry form }
{
    match inquiry {
        Inquiry::Trace(Trace::Hearings(_)) => Inquiry::Trace(Trace::Hearings(form)),
        Inquiry::Trace(Trace::Packets(_)) => Inquiry::Trace(Trace::Packets(form)),
        Inquiry::Trace(Trace::Spans(_)) => Inquiry::Trace(Trace::Spans(form)),
        Inquiry::Files(_) => Inquiry::Files(form),
        Inquiry::Listeners(_) => Inquiry::Listeners(form),
    }
}
