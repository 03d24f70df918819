//! What a closed set or map held, and where.
use crate::report::Report;

/// A report with the slot of each key, or of each entry of a map: slot number i belongs to item number
/// i of the report. A program that keeps records beside the slots finds each record by it.
#[derive(Debug, Drop)]
pub struct ReportWithSlots<R = Report> {
    /// The report.
    pub report: R,
    /// The slots, below those of the shape; no two are the same.
    pub slots: Vec<u32>,
}
