//! Whether two bases hold the same vens, resources, shares, frozen ones too, reports and subscriptions.
use adr_objects::Number;
use adr_same::Same;
use adr_state::{Base, FrozenKey, Report, Resource, Resources, ShareKey, Ven, Weight};
use adr_subscription::Sub;
use adr_text::{ObjectId, Table};

fn has_ven(vens: &Table<Number, Ven>, number: &Number, ven: &Ven) -> bool {
    match vens.get(number) {
        Some(other) => ven.name == other.name && ven.stamps == other.stamps,
        None => false,
    }
}

fn are_same_vens(vens: &Table<Number, Ven>, others: &Table<Number, Ven>) -> bool {
    vens.len() == others.len()
        && vens
            .iter()
            .all(|(number, ven)| has_ven(others, number, ven))
}

fn has_resource(resources: &Resources, number: Number, resource: &Resource) -> bool {
    match resources.get(number) {
        Some(other) => {
            resource.ven == other.ven
                && resource.name == other.name
                && resource.stamps == other.stamps
        }
        None => false,
    }
}

fn are_same_resources(resources: &Resources, others: &Resources) -> bool {
    resources.len() == others.len()
        && resources.iter().all(|(number, resource)| has_resource(others, *number, resource))
}

fn are_same_shares(shares: &Table<ShareKey, Weight>, others: &Table<ShareKey, Weight>) -> bool {
    shares.len() == others.len()
        && shares
            .iter()
            .all(|(key, weight)| others.get(key) == Some(weight))
}

fn has_report(reports: &Table<Number, Report>, number: &Number, report: &Report) -> bool {
    match reports.get(number) {
        Some(other) => { report.revision == other.revision && report.body.is_same(&other.body) }
        None => false,
    }
}

fn are_same_reports(reports: &Table<Number, Report>, others: &Table<Number, Report>) -> bool {
    reports.len() == others.len()
        && reports
            .iter()
            .all(|(number, report)| has_report(others, number, report))
}

fn has_sub(subs: &Table<Number, Sub>, number: &Number, sub: &Sub) -> bool {
    match subs.get(number) {
        Some(other) => {
            sub.owner == other.owner && sub.stamps == other.stamps && sub.body.is_same(&other.body)
        }
        None => false,
    }
}

fn are_same_subs(subs: &Table<Number, Sub>, others: &Table<Number, Sub>) -> bool {
    subs.len() == others.len()
        && subs
            .iter()
            .all(|(number, sub)| has_sub(others, number, sub))
}

fn are_same_events(events: &Table<ObjectId, ()>, others: &Table<ObjectId, ()>) -> bool {
    events.len() == others.len() && events.iter().all(|(id, _)| others.get(id).is_some())
}

fn are_same_frozen(shares: &Table<FrozenKey, Weight>, others: &Table<FrozenKey, Weight>) -> bool {
    shares.len() == others.len()
        && shares
            .iter()
            .all(|(key, weight)| others.get(key) == Some(weight))
}

/// Whether both hold the same vens, resources, shares, reports and subscriptions, have frozen the same events with the same
/// shares, and drew as many numbers.
pub fn is_same_portfolio(base: &Base, other: &Base) -> bool {
    base.serial == other.serial
        && are_same_vens(&base.portfolio.vens, &other.portfolio.vens)
        && are_same_resources(&base.portfolio.resources, &other.portfolio.resources)
        && are_same_shares(&base.portfolio.shares, &other.portfolio.shares)
        && are_same_reports(&base.portfolio.reports, &other.portfolio.reports)
        && are_same_subs(&base.portfolio.subs, &other.portfolio.subs)
        && are_same_events(&base.portfolio.frozen, &other.portfolio.frozen)
        && are_same_frozen(
            &base.portfolio.frozen_shares,
            &other.portfolio.frozen_shares,
        )
}
