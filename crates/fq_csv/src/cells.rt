//! Fields as cells, and records as rows.

pub(crate) mod fields;
pub(crate) mod layouts;
pub(crate) mod projections;
pub(crate) mod readings;
pub(crate) mod rows;
