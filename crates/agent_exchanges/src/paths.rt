//! The paths that are asked, each behind the path of a server's URL, which has no slash at its end.
ghost use Rattle.std.specs.Prelude.{◌≡◌, IfOk, string_bytes};
ghost use Rattle.agent_exchanges.specs.Paths.{active_path, behind as path_behind, jobs_path, join_path, list_path, range_path, range_text, reports_path, taking};

use form_urlencoded::Serializer;
use lists::Text;
use std::alloc::{AllocError, Global};

/// Where the allocator tells which jobs there are.
pub fn jobs_path(alloc: Global, base: &str) -> Result<Text, AllocError>
    ensures { IfOk result (λ t. t ≡ jobs_path base.now) }
{
    behind(alloc, base, "/jobs")
}

/// Where reports are posted.
pub fn reports_path(alloc: Global, base: &str) -> Result<Text, AllocError>
    ensures { IfOk result (λ t. t ≡ reports_path base.now) }
{
    behind(alloc, base, "/reports")
}

/// Where a collector joins.
pub fn join_path(alloc: Global, base: &str) -> Result<Text, AllocError>
    ensures { IfOk result (λ t. t ≡ join_path base.now) }
{
    behind(alloc, base, "/collectors")
}

/// Where Prometheus tells what it scrapes.
pub fn active_path(alloc: Global, base: &str) -> Result<Text, AllocError>
    ensures { IfOk result (λ t. t ≡ active_path base.now) }
{
    behind(alloc, base, "/api/v1/targets?state=active")
}

/// Where the allocator gives, or only shows, a collector's list of the job that has this link.
pub fn list_path(
    alloc: Global,
    base: &str,
    link: &str,
    name: &str,
    takes: bool,
) -> Result<Text, AllocError>
    ensures { IfOk result (λ t. t ≡ list_path base.now link.now name.now takes) }
{
    let mut query = Serializer::new(String::new(alloc));
    query.append_pair("collector_id", name)?;
    let query = query.finish();
    let mut path = String::from_str(alloc, base)?;
    path.push_str(link)?;
    path.push_str("?")?;
    path.push_str(query.as_str())?;
    path.push_str(taking(takes))?;
    Ok(Text::from_string(path))
}

/// What a query says of whether the list is taken.
fn taking(takes: bool) -> &'static str
    ensures { result.now ≡ taking takes }
{
    if takes { "" } else { "&take=false" }
}

/// Where Prometheus tells the points of a metric that it stored in the last so many milliseconds.
pub fn range_path(alloc: Global, base: &str, metric: &str, millis: u64) -> Result<Text, AllocError>
    ensures { IfOk result (λ t. t ≡ range_path base.now metric.now millis) }
{
    let range = range_text(alloc, metric, millis)?;
    let mut query = Serializer::new(String::new(alloc));
    query.append_pair("query", range.as_str())?;
    let query = query.finish();
    let mut path = String::from_str(alloc, base)?;
    path.push_str("/api/v1/query?")?;
    path.push_str(query.as_str())?;
    Ok(Text::from_string(path))
}

fn range_text(alloc: Global, metric: &str, millis: u64) -> Result<String, AllocError>
    ensures { IfOk result (λ s. string_bytes s ≡ range_text metric.now millis) }
{
    format!(in alloc; "{metric}[{millis}ms]")
}

fn behind(alloc: Global, base: &str, path: &str) -> Result<Text, AllocError>
    ensures { IfOk result (λ t. t ≡ path_behind base.now path.now) }
{
    let mut whole = String::from_str(alloc, base)?;
    whole.push_str(path)?;
    Ok(Text::from_string(whole))
}
