//! `daapshare_words`: whole command lines, and numbers.
//!
//! The cases are lines of texts, each a constant, so that the proof of a test need not read them.

use daapshare_words::{number_word, read_words};
use std::alloc::{AllocError, Global};
use std::process::Abort;
use std::test::Fail;

/// Lines that are commands, each with what `Debug` shows of the command.
const COMMANDS: &str = "\
list => Ok(Local(List(ListWords { query: None, meta: None, list: None })))\n\
list --query x --meta y => Ok(Local(List(ListWords { query: Some(Text { text: \"x\" }), meta: Some(Text { text: \"y\" }), list: None })))\n\
list --query  => Ok(Local(List(ListWords { query: Some(Text { text: \"\" }), meta: None, list: None })))\n\
list --query=-x => Ok(Local(List(ListWords { query: Some(Text { text: \"-x\" }), meta: None, list: None })))\n\
list -- => Ok(Local(List(ListWords { query: None, meta: None, list: None })))\n\
list --list=4294967295 --meta y => Ok(Local(List(ListWords { query: None, meta: Some(Text { text: \"y\" }), list: Some(4294967295) })))\n\
list --query x --list 0007 => Ok(Local(List(ListWords { query: Some(Text { text: \"x\" }), meta: None, list: Some(7) })))\n\
show --back => Ok(Local(Show(ShowWords { back: true })))\n\
json --back => Ok(Local(Json(JsonWords { back: true })))\n\
check => Ok(Local(Check))\n\
codes => Ok(Local(Codes(CodesWords { learn: false })))\n\
codes --learn => Ok(Local(Codes(CodesWords { learn: true })))\n\
rehearse 2147483647 65536 256 --keep 65536 => Ok(Local(Rehearse(RehearseWords { number: 2147483647, batches: 65536, size: 256, keep: 65536 })))\n\
replay => Ok(Local(Replay(ReplayWords { keep: 256, name: Text { text: \"daapshare\" } })))\n\
replay --name=-- --keep 65536 => Ok(Local(Replay(ReplayWords { keep: 65536, name: Text { text: \"--\" } })))\n\
serve :3689 127.0.0.1:3688 => Ok(Net(Serve(ServeWords { listen: Text { text: \":3689\" }, edit: Text { text: \"127.0.0.1:3688\" }, name: Text { text: \"daapshare\" }, keep: 256, workers: 16, editors: 2, file: None })))\n\
serve --workers 64 a --editors=8 b --name Attic --keep 1 => Ok(Net(Serve(ServeWords { listen: Text { text: \"a\" }, edit: Text { text: \"b\" }, name: Text { text: \"Attic\" }, keep: 1, workers: 64, editors: 8, file: None })))\n\
serve a b --file F => Ok(Net(Serve(ServeWords { listen: Text { text: \"a\" }, edit: Text { text: \"b\" }, name: Text { text: \"daapshare\" }, keep: 256, workers: 16, editors: 1, file: Some(Text { text: \"F\" }) })))\n\
edit --stop h:1 => Ok(Net(Edit(EditWords { place: Text { text: \"h:1\" }, stop: true })))\n\
edit !~ => Ok(Net(Edit(EditWords { place: Text { text: \"!~\" }, stop: false })))\n\
follow h 16384 --query x --meta=y --list 2 => Ok(Net(Follow(FollowWords { place: Text { text: \"h\" }, rounds: 16384, query: Some(Text { text: \"x\" }), meta: Some(Text { text: \"y\" }), list: Some(2) })))\n\
relay --workers=64 a --name Attic b --keep 1 16384 => Ok(Net(Relay(RelayWords { upstream: Text { text: \"a\" }, listen: Text { text: \"b\" }, rounds: 16384, name: Text { text: \"Attic\" }, keep: 1, workers: 64 })))";

/// Lines that are not commands. A blank at an end makes an empty argument, and so does the empty line.
const NONE: &str = "\
\n\
lists\n\
List\n\
--query x list\n\
--help\n\
list -h\n\
list --none\n\
list --quer x\n\
list --query\n\
list --query -x\n\
list --query x --query y\n\
list --query x y\n\
list -- --query x\n\
list \n\
list --list 0\n\
list --list 4294967296\n\
list --list +1\n\
list --list 00000000001\n\
show --back=\n\
check extra\n\
rehearse 1 1\n\
rehearse 1 1 1 1\n\
rehearse 2147483648 1 1\n\
rehearse 1 65537 1\n\
rehearse 1 1 257\n\
rehearse 1 1 1 --keep 0\n\
replay script\n\
serve a\n\
serve a \n\
serve a caf\u{e9}\n\
serve a b --workers 65\n\
serve a b --editors 9\n\
serve a b --file F --editors 2\n\
edit a\u{7f}\n\
follow a 16385\n\
follow a 1 --keep 1\n\
relay a b 0\n\
relay a b 1 --file F";

/// Texts, each with what `Debug` shows of the number.
const NUMBERS: &str = "\
007 => Some(7)\n\
4294967295 => Some(4294967295)\n\
4294967296 => None\n\
00000000001 => None\n\
\x20=> None\n\
+7 => None\n\
7a => None";

/// Returns the two halves of a case: what is read, and what it is read as.
fn halves(case: &str) -> (&str, &str) {
    case.split_once(" => ").unwrap_or((case, ""))
}

/// Checks what `Debug` shows of the result of reading `words`.
fn are_read(rt: &impl Abort, alloc: Global, words: &[&str], wanted: &str) -> Result<(), Fail> {
    let answer = read_words(alloc, words);
    let shown = format!(in alloc; "{answer:?}")?;
    assert_eq!(rt; shown.as_str(), wanted);
    Ok(())
}

/// Checks it for the arguments of a line, with one space between two.
fn is_read(rt: &impl Abort, alloc: Global, line: &str, wanted: &str) -> Result<(), Fail> {
    let words = words_of(alloc, line)?;
    are_read(rt, alloc, words.as_slice(), wanted)
}

fn words_of<'a>(alloc: Global, line: &'a str) -> Result<Vec<&'a str>, AllocError> {
    line.split(' ').collect(alloc)
}

#[test]
fn lines_that_are_commands(rt: HostRuntime) -> Result<(), Fail> {
    for case in COMMANDS.split('\n') {
        let (line, wanted) = halves(case);
        is_read(&rt, rt.alloc(), line, wanted)?;
    }
    Ok(())
}

#[test]
fn lines_that_are_none(rt: HostRuntime) -> Result<(), Fail> {
    for line in NONE.split('\n') {
        is_read(&rt, rt.alloc(), line, "Err(Usage)")?;
    }
    are_read(&rt, rt.alloc(), &[], "Err(Usage)")
}

#[test]
fn number_words(rt: HostRuntime) -> Result<(), Fail> {
    for case in NUMBERS.split('\n') {
        let (word, wanted) = halves(case);
        let shown = format!(in rt.alloc(); "{:?}", number_word(word))?;
        assert_eq!(rt; shown.as_str(), wanted, "{word}");
    }
    Ok(())
}
