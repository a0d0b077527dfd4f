//! `share_register`: the limit of live sessions.

use item_model::{Batch, Edits};
use share_history::MAX_EDITS;
use share_register::Register;
use std::alloc::{AllocError, Global};
use std::test::Fail;

fn opened(alloc: Global) -> Result<Register, AllocError> {
    let batch = Batch {
        edits: Edits::new(alloc),
    };
    if batch.edits.as_slice().len() > MAX_EDITS {
        return Err(AllocError);
    }
    Register::open(alloc, batch)
}

/// Logs in `count` times, up to the limit on entries.
fn log_in(register: &mut Register, count: usize) -> Result<(), AllocError> {
    for _ in 0..count {
        if register.is_stopped() || !register.is_below_entry_limit() {
            break;
        }
        register.login(7)?;
    }
    Ok(())
}

fn with_logins(alloc: Global, count: usize) -> Result<Register, AllocError> {
    let mut register = opened(alloc)?;
    register.reserve()?;
    log_in(&mut register, count)?;
    Ok(register)
}

/// Returns the history's length and the last-answered lengths of the sessions 1, 2, 64 and 65.
fn shown_marks(alloc: Global, register: &Register) -> Result<String, AllocError> {
    let (first, second) = (register.seen(1), register.seen(2));
    let (third, fourth) = (register.seen(64), register.seen(65));
    format!(in alloc;
        "{} {first:?} {second:?} {third:?} {fourth:?}",
        register.len()
    )
}

/// Returns the same after `count` logins.
fn marks(alloc: Global, count: usize) -> Result<String, AllocError> {
    let register = with_logins(alloc, count)?;
    shown_marks(alloc, &register)
}

#[test]
fn the_65th_login_ends_the_first_session(rt: HostRuntime) -> Result<(), Fail> {
    assert_eq!(rt;
        marks(rt.alloc(), 65)?.as_str(),
        "65 None Some(2) Some(64) Some(65)"
    );
    Ok(())
}
