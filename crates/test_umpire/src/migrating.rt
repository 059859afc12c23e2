//! Migrating a file to version 2, with scripted readers and writers.

use crate::devices::{any_write_may_fail, reads_that_may_fail, writes};
use crate::support::Call;
use std::test::Fail;

/// A file of version 1 with a line that could be an order in version 2, and with line ends that
/// stay.
const FILE: &str = "
game  1830 01\r
PLAYERS ANN BOB CYD
SHEET ANN PR1
TURN
IF PHASE 2 BUY SV\r
BUY SV
SHEET BOB PR1
SHEET CYD PR1";

/// The file that it migrates to.
const NEW_FILE: &str = "
GAME 1830 2\r
PLAYERS ANN BOB CYD
SHEET ANN PR1
TURN
X\r
BUY SV
SHEET BOB PR1
SHEET CYD PR1";

#[test]
fn migrate_takes_any_pieces(rt: HostRuntime) {
    let (file, owed) = (FILE.as_bytes(), NEW_FILE.as_bytes());
    for &most in &[1, 7, 1_000] {
        assert!(rt; writes(rt.alloc(), Call::Migrate, file, most, owed));
        assert!(rt; writes(rt.alloc(), Call::Migrate, owed, most, owed));
    }
}

#[test]
fn migrate_stops_where_a_device_fails(rt: HostRuntime) -> Result<(), Fail> {
    let (file, owed) = (FILE.as_bytes(), NEW_FILE.as_bytes());
    let reads = reads_that_may_fail(rt.alloc(), Call::Migrate, file);
    assert_eq!(rt; reads, file.len() + 1);
    assert!(rt; any_write_may_fail(rt.alloc(), Call::Migrate, file, owed));
    assert!(rt; any_write_may_fail(rt.alloc(), Call::Migrate, owed, owed));
    Ok(())
}
