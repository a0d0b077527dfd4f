//! Parses texts as queries.

ghost use Rattle.std.specs.Prelude.{◌≡◌, ◌≤◌, ℕ, List, true, Some, Err, OnOk, IfOk, IfErr, length};
ghost use Rattle.item_model.specs.Proper.{is_proper};
ghost use Rattle.item_model.specs.QuerySeen.{tree_of};
ghost use Rattle.song_query.specs.Answers.{Answers, IsComplete, IsShallow};
ghost use Rattle.song_query.specs.Limits.{query_bytes};
ghost use Rattle.song_query.specs.Machine.{run, start};
ghost use Rattle.song_query.specs.Seen.{refused_at, state_of};

use crate::limits::QUERY_BYTES;
use crate::parts::{Reader, Refusal};
use item_model::{Query, QueryError, QueryWhy};
use std::alloc::Global;

/// Returns the query that a text reads as. An error has its cause and its offset in bytes. An open parenthesis
/// does not deepen the recursion.
pub fn read(alloc: Global, text: &str) -> Result<Query, QueryError>
    ensures answer { Answers text.now result }
    ensures complete { IsComplete text.now result }
    ensures proper { IfOk result (λ q. is_proper (tree_of q) ≡ true) }
{
    if text.len() > QUERY_BYTES {
        return Err(QueryError::TooLong);
    }
    read_short(alloc, text)
}

// Parses a text that is not too long.
fn read_short(alloc: Global, text: &str) -> Result<Query, QueryError>
    requires { length text.now ≤ query_bytes }
    ensures { Answers text.now result }
{
    let mut reader = Reader::new(alloc);
    take_all(&mut reader, text)?;
    ended(reader, text.len() as u64)
}

// Reads all characters of a text.
fn take_all(reader: &mut Reader, text: &str) -> Result<(), QueryError>
    requires start { state_of reader.old ≡ start }
    requires short { length text.now ≤ query_bytes }
    ensures ok { OnOk result (run start text.now ≡ Some (state_of reader.new)) }
    ensures shallow { OnOk result (IsShallow text.now (length text.now)) }
    ensures err { IfErr result (λ e. Answers text.now (Err e)) }
{
    let mut place = 0u64;
    let mut rest = text.chars();
    while let Some(c) = rest.next() {
        match reader.take(c) {
            Ok(()) => place += c.len_utf8() as u64,
            Err(refusal) => return Err(refused(refusal, place)),
        }
    }
    Ok(())
}

// Returns the query of a text of which all characters were read, if a query may end there.
fn ended(reader: Reader, end: u64) -> Result<Query, QueryError>
    ensures { (text : List ℕ) → length text ≡ end → run start text ≡ Some (state_of reader)
        → IsShallow text (length text)
        → length text ≤ query_bytes → Answers text result }
{
    if !reader.is_end() {
        return Err(QueryError::At {
            place: end,
            why: QueryWhy::End,
        });
    }
    Ok(reader.into_query()?)
}

// Returns the error for a character that is refused at offset `place`.
fn refused(refusal: Refusal, place: u64) -> QueryError
    ensures { result ≡ refused_at place refusal }
{
    match refusal {
        Refusal::Byte => QueryError::At {
            place,
            why: QueryWhy::Byte,
        },
        Refusal::Deep => QueryError::TooDeep { place },
        Refusal::Memory => QueryError::Memory,
    }
}
