//! What a listener does after an error of `accept`, by the error's number.

use outside_net::{Remedy, remedy_of};
use std::io;

const REMEDIES: [(i32, Remedy); 9] = [
    (4, Remedy::TryAgain),
    (103, Remedy::TryAgain),
    (104, Remedy::TryAgain),
    (23, Remedy::PauseFirst),
    (24, Remedy::PauseFirst),
    (105, Remedy::PauseFirst),
    (12, Remedy::PauseFirst),
    (9, Remedy::GiveUp),
    (22, Remedy::GiveUp),
];

/// Whether each error has its remedy.
fn are_remedied(rows: &[(i32, Remedy)]) -> bool {
    rows.iter().all(|(number, remedy)| remedy_of(&io::Error::from_raw_os_error(*number)) == *remedy)
}

#[test]
fn an_error_of_one_link_ends_no_listener(rt: HostRuntime) {
    assert!(rt; are_remedied(&REMEDIES));
}
