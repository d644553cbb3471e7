//! Which question a task asks of the files.

ghost use Rattle.std.specs.Prelude.{◌≡◌, ◌≢◌, ◌≤◌, ℕ, [], List, codes, length, map, string_bytes, true, Some};
ghost use Rattle.mdns_capture.specs.Output.{writing};
ghost use Rattle.mdns_survey.specs.Answer.{IsRefusedOf, Reports};
ghost use Rattle.mdnsmerge.specs.Task.{AnswersTask, IsTaskRefused, asked_in, is_warned};

use command_line::Task;
use mdns_browse::report::Form;
use mdns_capture::{Sink, Source};
use mdns_listeners::Groups;
use mdns_listeners::together::are_compared;
use mdns_listeners::warned::Warned;
use mdns_lives::MessageChronicle;
use mdns_message::Want;
use mdns_page::page::PageRequest;
use mdns_page::service_lives::ServiceLivesRequest;
use mdns_survey::answers::{NamedProgram, answer_request, answer_with};
use mdns_survey::filter::Filtered;
use mdns_survey::question::{Answer, Question};
use mdns_survey::status::REFUSED;
use mdns_survey::{Request, SurveyFault, error_lines};
use std::alloc::Global;

/// Answers a task over files of these names, and returns the exit status. The error lines and the status of a page are those of
/// a report.
pub(crate) fn answer_task<R: Source + Drop, O: Sink, E: Sink>(
    alloc: Global,
    task: Task,
    names: &[String],
    readers: Vec<R>,
    out: &mut O,
    err: &mut E,
) -> u8
    requires { length names.now ≡ length readers.items }
    ensures status { result ≤ 2 }
    // Over readers whose bytes are known, exactly what is asked for was written on `out`, and nothing else; on `err`
    // what went wrong, or where it failed a prefix of that.
    ensures answers { result ≢ REFUSED → (captures : List (List ℕ))
        → map R.remaining readers.items ≡ map Some captures
        → AnswersTask task (map string_bytes names.now) captures
        (writing O.Sink out.old out.new) (writing E.Sink err.old err.new) result }
    ensures refused { result ≡ REFUSED → IsTaskRefused R.Source task (map string_bytes names.now) readers.items
        (writing O.Sink out.old out.new) (writing E.Sink err.old err.new) }
    ensures unfailed { result ≢ REFUSED → O.failures out.new ≡ O.failures out.old }
{
    match task {
        Task::Survey(Request::Lives(lives)) => {
            answer_lives(lives.form, lives, names, readers, out, err)
        }
        Task::Survey(request) => answer_request(alloc, request, names, readers, out, err),
        Task::Services {
            form,
            as_of,
            window,
            about,
        } => {
            let services = ServiceLivesRequest {
                form,
                as_of,
                window,
                about,
            };
            answer_lives(form, services, names, readers, out, err)
        }
        Task::Page {
            as_of,
            window,
            about,
            listeners,
        } => match Groups::new(alloc, names, listeners.as_slice()) {
            Ok(groups) => {
                let page = PageRequest {
                    names,
                    groups: &groups,
                    as_of,
                    window,
                    about,
                };
                answer_with(page, true, named(names), readers, out, err)
            }
            Err(Want) => error_lines::say_fault(
                alloc,
                "mdnsmerge",
                names,
                &SurveyFault::Memory,
                err,
            ),
        },
    }
}

// Answers a question for lives: for people, those of a few files come after warnings of these, each of which is a listener by
// itself.
fn answer_lives<
    R: Source + Drop,
    Q: Answer + Question<Collector = Filtered<MessageChronicle>> + Drop,
    O: Sink,
    E: Sink,
>(form: Form, question: Q, names: &[String], readers: Vec<R>, out: &mut O, err: &mut E) -> u8
    requires named { length names.now ≡ length readers.items }
    requires fits { Q.Fits question (length readers.items) }
    ensures status { result ≤ 2 }
    ensures answers { result ≢ REFUSED → (captures : List (List ℕ))
        → map R.remaining readers.items ≡ map Some captures
        → Reports (asked_in form (map string_bytes names.now) (Q.asked question)) true (codes "mdnsmerge")
        (map string_bytes names.now) captures (writing O.Sink out.old out.new) (writing E.Sink err.old err.new) result }
    ensures refused { result ≡ REFUSED → IsRefusedOf R.Source
        (asked_in form (map string_bytes names.now) (Q.asked question)) (codes "mdnsmerge")
        (map string_bytes names.now) readers.items
        (writing O.Sink out.old out.new) (writing E.Sink err.old err.new) }
    ensures unfailed { result ≢ REFUSED → O.failures out.new ≡ O.failures out.old }
{
    if !is_warned(form, names.len()) {
        return answer_with(question, true, named(names), readers, out, err);
    }
    let alloc = *readers.allocator();
    match Groups::new(alloc, names, &[]) {
        Ok(groups) => {
            let warned = Warned {
                question,
                groups: &groups,
            };
            answer_with(warned, true, named(names), readers, out, err)
        }
        Err(Want) => error_lines::say_fault(alloc, "mdnsmerge", names, &SurveyFault::Memory, err),
    }
}

// Checks that lives in a form, of so many files, come after warnings.
fn is_warned(form: Form, count: usize) -> bool
    ensures { result ≡ is_warned form count }
{
    match form {
        Form::Pretty => are_compared(count),
        Form::Lines | Form::Json | Form::Csv => false,
    }
}

// The program, over files of these names.
fn named(files: &[String]) -> NamedProgram<'_>
    ensures program { result.program.now ≡ codes "mdnsmerge" }
    ensures files { result.files.now ≡ files.now }
{
    NamedProgram {
        program: "mdnsmerge",
        files,
    }
}
