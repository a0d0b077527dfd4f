//! `fault_lines`: the line of an error that needs more records than a case can state.

use fault_lines::records_line;
use records_import::RecordError;
use std::alloc::AllocError;

#[test]
fn too_many_records_are_reported_by_a_line(rt: HostRuntime) -> Result<(), AllocError> {
    let line = records_line(rt.alloc(), &RecordError::TooMany { row: 65_537 })?;
    assert_eq!(rt;
        line.as_slice(),
        b"records: record 65537 too many\n".as_slice()
    );
    Ok(())
}
