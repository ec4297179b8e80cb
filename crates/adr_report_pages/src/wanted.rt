//! Which reports are wanted, by their columns.
ghost use Rattle.std.specs.Prelude.{◌≡◌};
ghost use Rattle.adr_report_pages.specs.Columns.{wants_columns};

use adr_db::ReportColumns;
use adr_lent::Wanting;
use adr_objects::Number;
use adr_queries::{ReportFilter, is_from, is_of};

// Whether a report of these columns is wanted.
fn wants_columns(filter: &ReportFilter, columns: &ReportColumns) -> bool
    ensures { result ≡ wants_columns filter.now columns.now }
{
    let head = &columns.head;
    is_of(&filter.programs, &head.program) && is_from(&filter.clients, &head.client)
}

/// The reports that a filter wants, by the program and the client in their columns.
#[derive(Drop)]
pub(crate) struct ByColumns<'f> {
    pub filter: &'f ReportFilter,
}

impl Wanting<(Number, ReportColumns)> for ByColumns<'_> {
    ghost wanted = { λ by e. wants_columns by.filter.now e.1 };

    fn is_wanted(&self, e: &(Number, ReportColumns)) -> bool {
        wants_columns(self.filter, &e.1)
    }
}
