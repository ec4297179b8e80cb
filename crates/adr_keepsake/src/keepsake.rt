//! What a database held at some moment. A contract can speak of it later, and a running program keeps no byte of it.
ghost use Rattle.std.specs.Prelude.{◌≡◌, List};
ghost use Rattle.std.specs.Borrow.{ftrue};
ghost use Rattle.std.specs.Coded.{coded×, coded_list};
ghost use Rattle.sqlite_value.specs.Order.{Row as SqlRow};
ghost use Rattle.sqlite_value.specs.contracts.row.Row as row;
ghost use Rattle.sqlite_schema.specs.declared.schema.Schema.{Schema};
ghost use Rattle.sqlite_schema.specs.contracts.schema.Schema.{the_row as schema_row};

use std::marker::{Model, PhantomData};

/// A schema, and the rows that were stored in each of some tables.
#[derive(Drop)]
pub struct Keepsake {
    marker: PhantomData<u8>,
    pub ghost kept: { Schema × List (List SqlRow) } by { coded× schema_row.coded (coded_list (coded_list row.the_row.coded)) },
}

impl Model for Keepsake {
    ghost also_owns = { λ _. ftrue };
}

impl Keepsake {
    /// Keeps what the proof of its caller names.
    pub fn new() -> Keepsake
        ghost kept: { Schema × List (List SqlRow) }
        ensures { result.kept ≡ kept }
    {
        Keepsake {
            marker: PhantomData,
        }
    }
}
