//! What the options of a subcommand give.

ghost use Rattle.std.specs.Prelude.{◌≡◌, ◌≢◌, [], IfErr, IfOk, None, false, map, string_bytes, true};
ghost use Rattle.command_line.specs.CommandLine.{GivesScope, GivesWindow, IsBound, MakesFormWindow};
ghost use Rattle.command_line.specs.Line.{AsksIn, AsksWith, IsAsked, app_of_line, is_readable, table_of, text_of};
ghost use Rattle.command_line.specs.OptionFault.{IsUnmade, MakesNoInquiry, MakesNoWindow, NamesNone};
ghost use Rattle.mdns_listeners.specs.Groups.{unfit_prefix};

use crate::flags::{SINCE, UNTIL};
use crate::line::CommandTable;
use crate::moments::moment_of_text;
use crate::option_fault::{OptionFault, form_of, refusal_of};
use crate::options::Options;
use crate::read::read;
use crate::words::{AskFault, Asked};
use mdns_browse::report::Form;
use mdns_capture::Moment;
use mdns_survey::request::Window;
use std::alloc::Global;

/// The options, with the form and the window of the moments that are listed.
#[derive(Drop)]
pub struct Scope<'a> {
    pub form: Form,
    pub window: Window,
    pub options: Options<'a>,
}

/// Reads the words of a command line as `read` does, and refuses options that give no form or no window, or a prefix that fits no
/// file.
pub(crate) fn read_scope<'a, T: Copy>(
    alloc: Global,
    line: &CommandTable<T>,
    words: &'a [String],
) -> Result<Asked<((T, Option<Moment>), Scope<'a>)>, AskFault>
    requires { is_readable line.now ≡ true }
    ensures asked { IfOk result (IsAsked (AsksWith (AsksIn (table_of line.now.subcommands.now)) GivesScope) (app_of_line line.now)
        (map string_bytes words.now)) }
    ensures files { IfOk result (λ asked. asked.names.items ≢ []) }
    ensures fit { IfOk result (λ asked. unfit_prefix (map string_bytes asked.what.1.options.lists.listeners.items)
        (map string_bytes asked.names.items) ≡ None) }
    ensures unasked { IfErr result (IsUnmade MakesNoInquiry line.now.name.now (app_of_line line.now) (map string_bytes words.now)) }
{
    let asked = read(alloc, line, words)?;
    let (what, options) = asked.what;
    let names = asked.names;
    match form_and_window(&options, names.as_slice()) {
        Ok((form, window)) => Ok(Asked {
            what: (
                what,
                Scope {
                    form,
                    window,
                    options,
                },
            ),
            names,
        }),
        Err(option_fault) => Err(AskFault::Words(refusal_of(alloc, line.name, option_fault))),
    }
}

// Returns the form and the window, where each prefix fits one of the files.
fn form_and_window<'a>(
    options: &'a Options<'a>,
    names: &[String],
) -> Result<(Form, Window), OptionFault<'a>>
    ensures ok { IfOk result (MakesFormWindow options.now) }
    ensures fit { IfOk result (λ made.
        unfit_prefix (map string_bytes options.now.lists.listeners.items) (map string_bytes names.now) ≡ None) }
    ensures err { IfErr result (MakesNoInquiry options.now (map string_bytes names.now)) }
{
    let form = form_of(options, names)?;
    let window = window_of(options)?;
    Ok((form, window))
}

// Returns the window that the options give.
fn window_of<'a>(options: &Options<'a>) -> Result<Window, OptionFault<'a>>
    ensures ok { IfOk result (GivesWindow (text_of options.now.since) (text_of options.now.until) false) }
    ensures err { IfErr result (MakesNoWindow options.now) }
{
    let since = bound_of(SINCE.name, options.since)?;
    let until = bound_of(UNTIL.name, options.until)?;
    let window = Window { since, until };
    if window.is_empty() {
        return Err(OptionFault::EmptyWindow);
    }
    Ok(window)
}

// Returns the moment that the text of the flag `name` names, if it is given.
fn bound_of<'a>(
    name: &'static str,
    given: Option<&'a str>,
) -> Result<Option<Moment>, OptionFault<'a>>
    ensures ok { IfOk result (IsBound (text_of given.entry)) }
    ensures err { IfErr result (NamesNone name.now given.entry) }
{
    let Some(text) = given else {
        return Ok(None);
    };
    match moment_of_text(text) {
        Some(moment) => Ok(Some(moment)),
        None => Err(OptionFault::NoMoment { name, text }),
    }
}
