//! Reports over a cache.

ghost use Rattle.std.specs.Prelude.{◌≡◌, List, IfOk, IfErr, IfSome, string_bytes};
ghost use Rattle.mdns_message.specs.declared.hearing.Hearing.{Hearing as hearing};
ghost use Rattle.mdns_cache.specs.Contents.{StandsFor};
ghost use Rattle.mdns_browse.specs.Report.{IsReport};

use mdns_browse::report::{Ask, ReportFault, report};
use mdns_cache::Cache;
use mdns_capture::Moment;
use std::alloc::Global;

/// Returns the service types that were live when the newest hearing came. That moment is never too early, so the only
/// error is a failed allocation.
pub fn types_of(alloc: Global, cache: &Cache) -> Result<String, ReportFault>
    ensures report { IfOk result (λ text. (heard : List hearing) → StandsFor cache.now heard
        → IfSome cache.now.newest (λ newest. IsReport Ask.Types heard newest.nanos (string_bytes text))) }
    ensures memory { IfErr result (λ fault. fault ≡ ReportFault.Memory) }
{
    let now = cache.newest().unwrap_or(Moment::EPOCH);
    report(alloc, cache, Ask::Types, now)
}
