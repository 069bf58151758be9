//! The built store: a memory that it owns, and a catalog.

use crate::medium::Medium;
use catalog::catalog::Catalog;

#[derive(Drop)]
pub struct Built<M: Medium> {
    pub(crate) medium: M,
    pub(crate) catalog: Catalog,
    ghost held: { M.layout.Holds medium catalog.table } by { M.layout.one medium catalog.table },
}
