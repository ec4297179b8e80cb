//! Whether two contents are one.
ghost use Rattle.std.specs.Prelude.{◌≡◌};
ghost use Rattle.std.specs.Str.{bytes_eq};
ghost use Rattle.std.specs.Cmp.Lexicographic.{pointwise};
ghost use Rattle.adr_view.specs.Same.{is_same_interval, is_same_head, is_same_tail, is_same_event, is_same_about, is_same_maker, is_same_usage, is_same_report, is_same_sum, is_same_rollup, is_same_content};

use crate::view::Content;
use adr_objects::{
    ReportBody, ReportHead, Rollup, RollupInterval, ShownEvent, ShownInterval, UsageInterval,
};
use adr_text::Name;

fn is_same_head(a: &ShownEvent, b: &ShownEvent) -> bool
    ensures { result ≡ is_same_head a.now b.now }
{
    a.program == b.program && a.name == b.name && a.priority == b.priority && a.period == b.period
}

fn is_same_intervals(a: &[ShownInterval], b: &[ShownInterval]) -> bool
    ensures { result ≡ pointwise is_same_interval a.now b.now }
{
    a == b
}

fn is_same_tail(a: &ShownEvent, b: &ShownEvent) -> bool
    ensures { result ≡ is_same_tail a.now b.now }
{
    is_same_intervals(a.intervals.as_slice(), b.intervals.as_slice())
        && a.ven_name == b.ven_name
        && a.resource_name == b.resource_name
}

fn is_same_event(a: &ShownEvent, b: &ShownEvent) -> bool
    ensures { result ≡ is_same_event a.now b.now }
{
    is_same_head(a, b) && is_same_tail(a, b)
}

fn is_same_about(a: &ReportHead, b: &ReportHead) -> bool
    ensures { result ≡ is_same_about a.now b.now }
{
    a.program == b.program && a.event == b.event && a.resource == b.resource
}

fn is_same_maker(a: &ReportHead, b: &ReportHead) -> bool
    ensures { result ≡ is_same_maker a.now b.now }
{
    a.client == b.client && a.name == b.name && a.resource_name == b.resource_name
}

fn is_same_usages(a: &[UsageInterval], b: &[UsageInterval]) -> bool
    ensures { result ≡ pointwise is_same_usage a.now b.now }
{
    a == b
}

fn is_same_report(a: &ReportBody, b: &ReportBody) -> bool
    ensures { result ≡ is_same_report a.now b.now }
{
    is_same_about(&a.head, &b.head)
        && is_same_maker(&a.head, &b.head)
        && is_same_usages(a.intervals.as_slice(), b.intervals.as_slice())
}

fn is_same_names(a: &[Name], b: &[Name]) -> bool
    ensures { result ≡ pointwise bytes_eq a.now b.now }
{
    a == b
}

fn is_same_sum(a: &RollupInterval, b: &RollupInterval) -> bool
    ensures { result ≡ is_same_sum a.now b.now }
{
    a.id == b.id && a.sum == b.sum && is_same_names(a.missing.as_slice(), b.missing.as_slice())
}

fn is_same_sums(a: &[RollupInterval], b: &[RollupInterval]) -> bool
    ensures { result ≡ pointwise is_same_sum a.now b.now }
{
    let mut others = b.iter();
    for one in a {
        match others.next() {
            Some(other) if is_same_sum(one, other) => (),
            _ => return false,
        }
    }
    others.next().is_none()
}

fn is_same_rollup(a: &Rollup, b: &Rollup) -> bool
    ensures { result ≡ is_same_rollup a.now b.now }
{
    a.program == b.program && is_same_sums(a.intervals.as_slice(), b.intervals.as_slice())
}

/// Whether two contents are one.
pub(crate) fn is_same_content(a: &Content, b: &Content) -> bool
    ensures { result ≡ is_same_content a.now b.now }
{
    match (a, b) {
        (Content::Program(a), Content::Program(b)) => a == b,
        (Content::Event(a), Content::Event(b)) => is_same_event(a, b),
        (Content::Report(a), Content::Report(b)) => is_same_report(a, b),
        (Content::Rollup(a), Content::Rollup(b)) => is_same_rollup(a, b),
        _ => false,
    }
}
