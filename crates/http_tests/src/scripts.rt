//! `share_replay`: the lines of a script.

use share_asks::Role;
use share_replay::{Delivery, Script, laws};
use std::test::Fail;

#[test]
fn a_script_is_its_lines(rt: HostRuntime) -> Result<(), Fail> {
    let text = b"open 7 edit\ntext 7 a ~\\r\\n\\\\\\x00\\xfF\nclose 7\n";
    let is_read = match Script::read(rt.alloc(), text) {
        Ok(script) => is_sample(&script),
        Err(_) => false,
    };
    assert!(rt; is_read);
    Ok(())
}

fn is_sample(script: &Script) -> bool {
    match script.lines() {
        [
            Delivery::Open { number: 7, role },
            Delivery::Text { number: 7, bytes },
            Delivery::Close { number: 7 },
        ] => { *role == Role::Edit && bytes.as_slice() == b"a ~\r\n\\\0\xff".as_slice() }
        _ => false,
    }
}

#[test]
fn laws_can_be_cited() {
    laws::nothing_is_played();
    laws::histories_go_on();
    laws::outputs_go_on();
    laws::ended_connections_rest();
    laws::lines_by_the_byte();
}
