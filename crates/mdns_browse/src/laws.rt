//! Laws of the definitions. Each function does nothing: its contract is the law.

ghost use Rattle.std.specs.Prelude.{◌≡◌, ◌↔◌, [], List, ℕ, Some, true};
ghost use Rattle.mdns_message.specs.declared.hearing.Hearing.{Hearing};
ghost use Rattle.mdns_join.specs.declared.latest.Latest.{Latest};
ghost use Rattle.mdns_cache.specs.Live.{SameHearings};
ghost use Rattle.mdns_browse.specs.Report.{IsReport, IsReportIn};
ghost use Rattle.mdns_browse.specs.Services.{instance_given, is_instance_of, is_service_name, other_given, type_given, GivesInstance};
ghost use Rattle.mdns_browse.specs.{Services.{GivesOther, GivesType, IsInstanceOf, IsServiceName}, declared.report.Ask.{Ask}};
ghost use Rattle.mdns_browse.specs.declared.{about.Subject.{Subject}, report.Form.{Form}, report.Form.TheVariants.{Lines}};

pub use mdns_message::laws::strings_of_text;

/// The same hearings, in whatever order and however often, have the same report as of a moment: a report on one list of
/// them is a report on the other, and there is no second one.
pub fn same_report()
    ensures shared { (ask : Ask) (heard others : List Hearing) (now : ℕ) (text : List ℕ) → SameHearings heard others
        → IsReport ask heard now text → IsReport ask others now text }
    ensures same { (ask : Ask) (heard others : List Hearing) (now : ℕ) (text other : List ℕ) → SameHearings heard others
        → IsReport ask heard now text → IsReport ask others now other → text ≡ other }
{
    same_report_in();
    report_about_all();
}

/// The same hearings have one report as of a moment in each form and about each list of subjects, as `same_report` has it
/// in lines of words.
pub fn same_report_in()
    ensures shared { (about : List Subject) (form : Form) (ask : Ask) (heard others : List Hearing) (now : ℕ) (text : List ℕ)
        → SameHearings heard others → IsReportIn about form ask heard now text → IsReportIn about form ask others now text }
    ensures same { (about : List Subject) (form : Form) (ask : Ask) (heard others : List Hearing) (now : ℕ)
        (text other : List ℕ) → SameHearings heard others → IsReportIn about form ask heard now text
        → IsReportIn about form ask others now other → text ≡ other }
{}

/// A report about no subjects lists all, so in lines of words it is the report.
#[tactic(auto, using(crate::proofs::ReportLemmas::about_all))]
pub fn report_about_all()
    ensures { (ask : Ask) (heard : List Hearing) (now : ℕ) (text : List ℕ)
        → IsReportIn [] Lines ask heard now text ↔ IsReport ask heard now text }
{}

/// What the definitions find out from the bytes of a record is what RFC 6763 says of it by labels: which names are those of
/// services and of instances, and which name a record gives, if it gives one.
#[tactic(auto, using(crate::proofs::NameLemmas::for_given_by_labels))]
pub fn given_by_labels()
    ensures service_name { (name : List ℕ) → (is_service_name name ≡ true) ↔ IsServiceName name }
    ensures instance_name { (service name : List ℕ) → (is_instance_of service name ≡ true) ↔ IsInstanceOf service name }
    ensures gives_type { (row : Latest) (name : List ℕ) → (type_given row ≡ Some name) ↔ GivesType row name }
    ensures gives_instance { (row : Latest) (name : List ℕ) → (instance_given row ≡ Some name) ↔ GivesInstance row name }
    ensures gives_other { (row : Latest) (name : List ℕ) → (other_given row ≡ Some name) ↔ GivesOther row name }
{}
