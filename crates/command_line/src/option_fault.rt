//! Options that make nothing, and their refusals.

ghost use Rattle.std.specs.Prelude.{◌≡◌, IfErr, IfOk, None, Ok, map, string_bytes};
ghost use Rattle.command_line.specs.{Faults.{IsRefusal}, OptionFault.{MakesNoForm, invalid, is_plain, option_fault_text, quoted}};
ghost use Rattle.command_line.specs.declared.option_fault.OptionFault.TheVariants.{ConflictingFlags};
ghost use Rattle.mdns_listeners.specs.Groups.{unfit_prefix};

use crate::flags::LISTENER;
use crate::options::{ConflictingFlags, Options};
use crate::words::WordsFault;
use mdns_browse::report::Form;
use mdns_listeners::groups::unfit_prefix;
use mdns_message::Want;
use std::alloc::Global;

/// Why options make no task or inquiry.
#[derive(Clone, Copy)]
pub(crate) enum OptionFault<'a> {
    /// Both moments are given, or both forms.
    ConflictingFlags(ConflictingFlags),
    /// The text of a flag names no moment.
    NoMoment { name: &'static str, text: &'a str },
    /// Both ends of the window are given, and no moment is between them.
    EmptyWindow,
    /// The prefix of a flag fits no file.
    NoFile { name: &'static str, prefix: &'a str },
}

impl<'a> From<ConflictingFlags> for OptionFault<'a> {
    ghost from_gives = { λ both option_fault. option_fault ≡ ConflictingFlags both };

    fn from(both: ConflictingFlags) -> OptionFault<'a> {
        OptionFault::ConflictingFlags(both)
    }
}

/// What to give as a moment.
const A_MOMENT: &str =
    "give seconds since 1970 (1795332403.397617) or a date and time with its zone (2026-11-22T07:27:00Z)";

/// Why a prefix is refused.
const NO_FILE: &str = "no FILE's name, without folders, begins with it";

/// Returns the form that the options ask for, where each prefix fits one of the files.
pub(crate) fn form_of<'a>(
    options: &'a Options<'a>,
    names: &[String],
) -> Result<Form, OptionFault<'a>>
    ensures ok { IfOk result (λ form. (options.now.form ≡ Ok form)
        × (unfit_prefix (map string_bytes options.now.lists.listeners.items) (map string_bytes names.now) ≡ None)) }
    ensures err { IfErr result (MakesNoForm options.now (map string_bytes names.now)) }
{
    let form = options.form?;
    let listeners = &options.lists.listeners;
    match unfit_prefix(listeners.as_slice(), names) {
        None => Ok(form),
        Some(at) => Err(OptionFault::NoFile {
            name: LISTENER.name,
            prefix: listeners[at].as_str(),
        }),
    }
}

/// Returns the refusal of options by a program of that name.
pub(crate) fn refusal_of(alloc: Global, program: &str, option_fault: OptionFault<'_>) -> WordsFault
    ensures { IsRefusal (option_fault_text program.now option_fault.entry) result }
{
    match option_fault_line(alloc, program, option_fault) {
        Ok(text) => WordsFault::Refused { text },
        Err(Want) => WordsFault::Memory,
    }
}

// Returns the error line.
fn option_fault_line(
    alloc: Global,
    program: &str,
    option_fault: OptionFault<'_>,
) -> Result<String, Want>
    ensures { IfOk result (λ line. string_bytes line ≡ option_fault_text program.now option_fault.entry) }
{
    match option_fault {
        OptionFault::ConflictingFlags(ConflictingFlags { one, other }) => Ok(format!(in alloc;
            "{program}: --{one} and --{other} can't be given together"
        )?),
        OptionFault::NoMoment { name, text } => invalid(
            alloc, program, "moment", text, name, A_MOMENT,
        ),
        OptionFault::EmptyWindow => Ok(format!(in alloc;
            "{program}: --since must be earlier than --until: nothing lies between them"
        )?),
        OptionFault::NoFile { name, prefix } => {
            invalid(alloc, program, "prefix", prefix, name, NO_FILE)
        }
    }
}

// Returns the error line of an option's invalid value. The value is repeated where it is printable ASCII.
fn invalid(
    alloc: Global,
    program: &str,
    what: &str,
    value: &str,
    name: &str,
    cure: &str,
) -> Result<String, Want>
    ensures { IfOk result (λ line. string_bytes line ≡ invalid program.now what.now value.now name.now cure.now) }
{
    let quoted = quoted(alloc, value)?;
    Ok(format!(in alloc; "{program}: invalid {what} {quoted}for --{name}: {cure}")?)
}

// Returns a text in quotes, with a blank behind it, where it is printable ASCII.
fn quoted(alloc: Global, text: &str) -> Result<String, Want>
    ensures { IfOk result (λ quote. string_bytes quote ≡ quoted text.now) }
{
    if is_plain(text.as_bytes()) {
        Ok(format!(in alloc; "'{text}' ")?)
    } else {
        Ok(String::new(alloc))
    }
}

// Returns whether a text is printable ASCII.
fn is_plain(text: &[u8]) -> bool
    ensures { result ≡ is_plain text.now }
{
    let mut rest = text;
    while let Some((byte, others)) = rest.split_first() {
        if *byte < b' ' || *byte > b'~' {
            return false;
        }
        rest = others;
    }
    true
}
