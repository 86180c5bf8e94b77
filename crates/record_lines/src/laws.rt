//! Laws of records, each on the contract of a function that does nothing.
ghost use Rattle.record_lines.specs.Laws.{OneRecord, PrintedRecord};

/// Bytes spell at most one record.
pub fn one_record_law()
    ensures { OneRecord }
{}

/// The JSON that is printed of a record stands for that record.
pub fn printed_record_law()
    ensures { PrintedRecord }
{}
