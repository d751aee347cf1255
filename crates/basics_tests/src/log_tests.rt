//! A log's records, by its list and by its map.

use std::alloc::{AllocError, Global};
use words::{Kind, Word};
use write_log::WriteLog;

/// Whether a log has just these records, in this order.
fn has_records(
    alloc: Global,
    log: &WriteLog,
    wanted: &[((u32, u32), Word)],
) -> Result<bool, AllocError> {
    let records = log.records(alloc)?;
    Ok(records.as_slice() == wanted)
}

/// Whether a run of words and one word behind it are recorded.
fn records_a_run(alloc: Global) -> Result<bool, AllocError> {
    let mut log = WriteLog::new(alloc);
    log.note_run(0, 3, Kind::Uint, &[4; 2])?;
    log.note(1, 2, Word::Uint(8))?;
    let wanted = [
        ((0, 3), Word::Uint(4)),
        ((0, 4), Word::Uint(4)),
        ((1, 2), Word::Uint(8)),
    ];
    has_records(alloc, &log, &wanted)
}

/// Whether words that do not rise are recorded in order, the last one of each element.
fn records_in_order(alloc: Global) -> Result<bool, AllocError> {
    let mut log = WriteLog::new(alloc);
    log.reserve(2)?;
    log.note(0, 3, Word::Int(7))?;
    log.note(1, 2, Word::Uint(8))?;
    log.note(0, 5, Word::Int(-1))?;
    log.note(0, 3, Word::Int(9))?;
    let wanted = [
        ((0, 3), Word::Int(9)),
        ((0, 5), Word::Int(-1)),
        ((1, 2), Word::Uint(8)),
    ];
    has_records(alloc, &log, &wanted)
}

#[test]
fn records_rise(rt: HostRuntime) -> Result<(), AllocError> {
    let by_list = records_a_run(rt.alloc())?;
    let by_map = records_in_order(rt.alloc())?;
    assert!(rt; by_list && by_map);
    Ok(())
}
