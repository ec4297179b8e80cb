//! The tables are made in a transaction.
ghost use Rattle.std.specs.Prelude.{[], ◌∷◌, OnOk, IfErr};
ghost use Rattle.sqlite.specs.Held.{state};
ghost use Rattle.sqlite.specs.State.{HasCleanDisk};
ghost use Rattle.adr_sql.specs.Contents.{Holds};
ghost use Rattle.adr_sql.specs.Schemas.{no_schema};
ghost use Rattle.adr_sql.specs.Calls.{LeavesLent};
ghost use Rattle.adr_db.specs.Kept.{Keeps, nothing_kept, first_meta};
ghost use Rattle.adr_db.specs.Calls.{IsOfStore};
ghost use Rattle.adr_db.specs.Refusals.{RefusesToRunAll};
ghost use Rattle.adr_db.specs.declared.meta.TheConstants.{PUT};
ghost use Rattle.adr_db.specs.Rows.{meta_numbers};

use crate::meta::{Meta, write_meta};
use crate::statement::refusal_of;
use adr_sql::create_tables;
use adr_text::Refusal;
use sqlite::{Alter, Transaction};

pub(crate) const META: &str =
    "CREATE TABLE meta (k INT NOT NULL, version INT NOT NULL, serial INT NOT NULL, scan INT NOT NULL, made INT NOT NULL, sent INT NOT NULL, given_up INT NOT NULL, dropped INT NOT NULL, pending INT NOT NULL, keys INT NOT NULL, vens INT NOT NULL, resources INT NOT NULL, shares INT NOT NULL, reports INT NOT NULL, subs INT NOT NULL, frozen INT NOT NULL, PRIMARY KEY (k)) STRICT";

pub(crate) const MIRROR: &str =
    "CREATE TABLE mirror (kind INT NOT NULL, id TEXT NOT NULL, state INT NOT NULL, moment INT NOT NULL, body TEXT NOT NULL, program TEXT, PRIMARY KEY (kind, id), UNIQUE (program, kind, id)) STRICT";

pub(crate) const POLLED: &str =
    "CREATE TABLE polled (kind INT NOT NULL, id TEXT NOT NULL, PRIMARY KEY (kind, id)) STRICT";

pub(crate) const VEN: &str =
    "CREATE TABLE ven (id INT NOT NULL, name TEXT NOT NULL, created INT NOT NULL, modified INT NOT NULL, PRIMARY KEY (id), UNIQUE (name)) STRICT";

pub(crate) const RESOURCE: &str =
    "CREATE TABLE resource (id INT NOT NULL, ven INT NOT NULL REFERENCES ven (id) ON DELETE CASCADE, name TEXT NOT NULL, created INT NOT NULL, modified INT NOT NULL, PRIMARY KEY (id), UNIQUE (name), UNIQUE (ven, id)) STRICT";

pub(crate) const SHARE: &str =
    "CREATE TABLE share (program TEXT NOT NULL, resource INT NOT NULL REFERENCES resource (id) ON DELETE CASCADE, weight INT NOT NULL CHECK (weight >= 1 AND weight <= 1000000), PRIMARY KEY (program, resource), UNIQUE (resource, program)) STRICT";

pub(crate) const STAMP: &str =
    "CREATE TABLE stamp (kind INT NOT NULL, a TEXT NOT NULL, b INT NOT NULL, created INT NOT NULL, modified INT NOT NULL, PRIMARY KEY (kind, a, b)) STRICT";

pub(crate) const REPORT: &str =
    "CREATE TABLE report (id INT NOT NULL, event TEXT NOT NULL, resource INT NOT NULL REFERENCES resource (id) ON DELETE CASCADE, program TEXT NOT NULL, client TEXT NOT NULL, name TEXT, resource_name TEXT NOT NULL, revision INT NOT NULL, PRIMARY KEY (id), UNIQUE (revision), UNIQUE (event, id), UNIQUE (resource, id)) STRICT";

pub(crate) const REPORT_VALUE: &str =
    "CREATE TABLE report_value (report INT NOT NULL REFERENCES report (id) ON DELETE CASCADE, pos INT NOT NULL, interval INT NOT NULL, value INT, PRIMARY KEY (report, pos)) STRICT";

pub(crate) const SUB: &str =
    "CREATE TABLE sub (id INT NOT NULL, ven INT REFERENCES ven (id) ON DELETE CASCADE, body TEXT NOT NULL, created INT NOT NULL, modified INT NOT NULL, PRIMARY KEY (id), UNIQUE (ven, id)) STRICT";

pub(crate) const REMOTE: &str =
    "CREATE TABLE remote (event TEXT NOT NULL, id TEXT NOT NULL, PRIMARY KEY (event)) STRICT";

pub(crate) const OUTBOX: &str =
    "CREATE TABLE outbox (id INT NOT NULL, dest INT NOT NULL, event TEXT, operation INT NOT NULL, url TEXT NOT NULL, token TEXT, body TEXT NOT NULL, failed INT NOT NULL, leases INT NOT NULL, leased INT NOT NULL, until INT NOT NULL, due INT NOT NULL, PRIMARY KEY (id), UNIQUE (dest, id)) STRICT";

pub(crate) const SHOWN: &str =
    "CREATE TABLE shown (event TEXT NOT NULL, resource INT NOT NULL, program TEXT NOT NULL, ven INT NOT NULL, ven_name TEXT NOT NULL, resource_name TEXT NOT NULL, body TEXT NOT NULL, PRIMARY KEY (event, resource), UNIQUE (ven, event, resource), UNIQUE (program, event, resource)) STRICT";

pub(crate) const ROLLUP: &str =
    "CREATE TABLE rollup (event TEXT NOT NULL, program TEXT NOT NULL, body TEXT NOT NULL, PRIMARY KEY (event)) STRICT";

pub(crate) const HEAD: &str =
    "CREATE TABLE head (dest INT NOT NULL, entry INT NOT NULL, PRIMARY KEY (dest)) STRICT";

pub(crate) const FROZEN: &str =
    "CREATE TABLE frozen (event TEXT NOT NULL, PRIMARY KEY (event)) STRICT";

pub(crate) const FROZEN_SHARE: &str =
    "CREATE TABLE frozen_share (event TEXT NOT NULL, resource INT NOT NULL REFERENCES resource (id) ON DELETE CASCADE, weight INT NOT NULL CHECK (weight >= 1 AND weight <= 1000000), PRIMARY KEY (event, resource), UNIQUE (resource, event)) STRICT";

/// Makes the tables of a new node, which keep nothing, in an empty database.
pub fn create<S: Alter>(tx: &mut Transaction<'_, S>) -> Result<(), Refusal>
    ensures lent { LeavesLent S.Store tx.old.conn tx.new.conn result }
    ensures made { HasCleanDisk (state S.Store tx.new.conn.now) → OnOk result (Holds no_schema [] (state S.Store tx.old.conn.now) → Keeps nothing_kept (state S.Store tx.new.conn.now)) }
    ensures refused { IfErr result IsOfStore }
    ensures fails { RefusesToRunAll S.Store tx.old.conn.now tx.new.conn.now (META.now ∷ MIRROR.now ∷ POLLED.now ∷ VEN.now ∷ RESOURCE.now ∷ SHARE.now ∷ STAMP.now ∷ REPORT.now ∷ REPORT_VALUE.now ∷ SUB.now ∷ REMOTE.now ∷ OUTBOX.now ∷ SHOWN.now ∷ ROLLUP.now ∷ HEAD.now ∷ FROZEN.now ∷ FROZEN_SHARE.now ∷ []) PUT.now (meta_numbers first_meta) result }
{
    let texts = [
        META,
        MIRROR,
        POLLED,
        VEN,
        RESOURCE,
        SHARE,
        STAMP,
        REPORT,
        REPORT_VALUE,
        SUB,
        REMOTE,
        OUTBOX,
        SHOWN,
        ROLLUP,
        HEAD,
        FROZEN,
        FROZEN_SHARE,
    ];
    match create_tables(tx, &texts) {
        Ok(()) => write_meta(tx, &Meta::first()),
        Err(error) => Err(refusal_of(error)),
    }
}
