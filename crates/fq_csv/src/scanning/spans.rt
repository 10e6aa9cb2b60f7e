//! The rows that one batch may take.
ghost use Rattle.std.specs.Prelude.{◌≤◌, ◌<◌};
ghost use Rattle.fq_csv.specs.declared.scanning.scanners.TheConstants.{MAX_ROWS};

/// The rows that one batch may take: those after row `from`, up to the limit, at most `size`.
#[derive(Clone, Copy)]
pub(crate) struct Span {
    pub(crate) from: u32,
    pub(crate) limit: u32,
    pub(crate) size: u32,
    pub ghost in_limit: { from ≤ limit },
    pub ghost small: { limit ≤ MAX_ROWS },
    pub ghost some: { 0 < size },
}
