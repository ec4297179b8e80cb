//! Edits are made.
use crate::edit::Edit;
use crate::scene::Scene;
use adr_db::Meta;
use adr_mirror::put_evidence;
use adr_objects::{Found, Kind, Number, ReportIn, ResourceName};
use adr_portfolio::{
    resource_add, resource_put, resource_remove, share_set, ven_add, ven_put, ven_remove,
};
use adr_reports::{delete, post, put};
use adr_state::MirrorKey;
use adr_text::{Name, ObjectId, Refusal, Rows};
use adr_view::Sight;
use sqlite::{Alter, Transaction};
use std::alloc::Global;

/// The id of the object of that letter and number.
pub fn id_of(alloc: Global, letter: char, number: Number) -> Result<ObjectId, Refusal> {
    ObjectId::new(
        alloc,
        format!(in alloc; "{letter}{}", number.get())?.as_str(),
    )
}

fn evidence<S: Alter>(
    alloc: Global,
    tx: &mut Transaction<'_, S>,
    scene: &Scene<'_>,
    meta: &mut Meta,
    page: &[Found],
) -> Result<Rows<MirrorKey>, Refusal> {
    put_evidence(alloc, tx, scene.limits, meta, page, false)
}

// The key of what is gone, where its mark rose.
fn gone<S: Alter>(
    alloc: Global,
    tx: &mut Transaction<'_, S>,
    scene: &Scene<'_>,
    meta: &mut Meta,
    kind: Kind,
    id: &ObjectId,
) -> Result<Rows<MirrorKey>, Refusal> {
    let mut risen = Rows::new(alloc);
    if adr_mirror::gone(alloc, tx, scene.limits, meta, kind, id)? {
        let id = id.copy(alloc)?;
        risen.push(MirrorKey { kind, id })?;
    }
    Ok(risen)
}

fn add_ven<S: Alter>(
    alloc: Global,
    tx: &mut Transaction<'_, S>,
    scene: &Scene<'_>,
    meta: &mut Meta,
    name: &Name,
) -> Result<(), Refusal> {
    ven_add(alloc, tx, scene.limits, meta, scene.now, scene.number, name)?;
    Ok(())
}

fn put_ven<S: Alter>(
    alloc: Global,
    tx: &mut Transaction<'_, S>,
    scene: &Scene<'_>,
    meta: &mut Meta,
    ven: Number,
    name: &Name,
) -> Result<(), Refusal> {
    let ven = id_of(alloc, 'v', ven)?;
    ven_put(alloc, tx, meta, scene.now, &ven, name)?;
    Ok(())
}

fn remove_ven<S: Alter>(
    alloc: Global,
    tx: &mut Transaction<'_, S>,
    meta: &mut Meta,
    ven: Number,
) -> Result<(), Refusal> {
    let ven = id_of(alloc, 'v', ven)?;
    ven_remove(alloc, tx, meta, &ven)?;
    Ok(())
}

fn add_resource<S: Alter>(
    alloc: Global,
    tx: &mut Transaction<'_, S>,
    scene: &Scene<'_>,
    meta: &mut Meta,
    ven: Number,
    name: &ResourceName,
) -> Result<(), Refusal> {
    let ven = id_of(alloc, 'v', ven)?;
    resource_add(
        alloc,
        tx,
        scene.limits,
        meta,
        scene.now,
        scene.number,
        &ven,
        name,
    )?;
    Ok(())
}

fn put_resource<S: Alter>(
    alloc: Global,
    tx: &mut Transaction<'_, S>,
    scene: &Scene<'_>,
    meta: &mut Meta,
    ven: Number,
    resource: Number,
    name: &ResourceName,
) -> Result<(), Refusal> {
    let ven = id_of(alloc, 'v', ven)?;
    let resource = id_of(alloc, 'r', resource)?;
    resource_put(alloc, tx, meta, scene.now, &ven, &resource, name)?;
    Ok(())
}

fn remove_resource<S: Alter>(
    alloc: Global,
    tx: &mut Transaction<'_, S>,
    meta: &mut Meta,
    ven: Number,
    resource: Number,
) -> Result<(), Refusal> {
    let ven = id_of(alloc, 'v', ven)?;
    let resource = id_of(alloc, 'r', resource)?;
    resource_remove(alloc, tx, meta, &ven, &resource)?;
    Ok(())
}

fn set_share<S: Alter>(
    alloc: Global,
    tx: &mut Transaction<'_, S>,
    scene: &Scene<'_>,
    meta: &mut Meta,
    program: &ObjectId,
    resource: Number,
    share: u32,
) -> Result<(), Refusal> {
    let resource = id_of(alloc, 'r', resource)?;
    share_set(alloc, tx, scene.limits, meta, program, &resource, share)?;
    Ok(())
}

fn post_report<S: Alter>(
    alloc: Global,
    tx: &mut Transaction<'_, S>,
    scene: &Scene<'_>,
    meta: &mut Meta,
    report: &ReportIn,
) -> Result<(), Refusal> {
    post(
        alloc,
        tx,
        scene.limits,
        meta,
        Sight::All,
        scene.number,
        report,
    )?;
    Ok(())
}

fn put_report<S: Alter>(
    alloc: Global,
    tx: &mut Transaction<'_, S>,
    scene: &Scene<'_>,
    meta: &mut Meta,
    number: Number,
    report: &ReportIn,
) -> Result<(), Refusal> {
    let id = id_of(alloc, 'p', number)?;
    put(alloc, tx, meta, Sight::All, scene.number, &id, report)?;
    Ok(())
}

fn delete_report<S: Alter>(
    alloc: Global,
    tx: &mut Transaction<'_, S>,
    meta: &mut Meta,
    number: Number,
) -> Result<(), Refusal> {
    let id = id_of(alloc, 'p', number)?;
    delete(alloc, tx, meta, Sight::All, &id)?;
    Ok(())
}

// Makes an edit of the portfolio.
fn make_in_portfolio<S: Alter>(
    alloc: Global,
    tx: &mut Transaction<'_, S>,
    scene: &Scene<'_>,
    meta: &mut Meta,
    edit: &Edit,
) -> Result<(), Refusal> {
    match edit {
        Edit::Page(_) | Edit::Gone(_, _) => Ok(()),
        Edit::AddVen(name) => add_ven(alloc, tx, scene, meta, name),
        Edit::PutVen(ven, name) => put_ven(alloc, tx, scene, meta, *ven, name),
        Edit::RemoveVen(ven) => remove_ven(alloc, tx, meta, *ven),
        Edit::AddResource(ven, name) => add_resource(alloc, tx, scene, meta, *ven, name),
        Edit::PutResource(ven, resource, name) => {
            put_resource(alloc, tx, scene, meta, *ven, *resource, name)
        }
        Edit::RemoveResource(ven, resource) => remove_resource(alloc, tx, meta, *ven, *resource),
        Edit::SetShare(program, resource, share) => {
            set_share(alloc, tx, scene, meta, program, *resource, *share)
        }
        Edit::PostReport(report) => post_report(alloc, tx, scene, meta, report),
        Edit::PutReport(number, report) => put_report(alloc, tx, scene, meta, *number, report),
        Edit::DeleteReport(number) => delete_report(alloc, tx, meta, *number),
    }
}

/// Makes an edit, and answers the upstream keys whose mark rose by it.
pub fn make<S: Alter>(
    alloc: Global,
    tx: &mut Transaction<'_, S>,
    scene: &Scene<'_>,
    meta: &mut Meta,
    edit: &Edit,
) -> Result<Rows<MirrorKey>, Refusal> {
    match edit {
        Edit::Page(page) => evidence(alloc, tx, scene, meta, page),
        Edit::Gone(kind, id) => gone(alloc, tx, scene, meta, *kind, id),
        _ => {
            make_in_portfolio(alloc, tx, scene, meta, edit)?;
            Ok(Rows::new(alloc))
        }
    }
}
