//! Patterns over texts.

ghost use Rattle.std.specs.Prelude.{◌≡◌, ◌<◌, ◌≤◌, ℕ, List, [], ◌∷◌, map, length, take, drop, slice_index, Decides, MatchOption, false, ◌≢◌};
ghost use Rattle.std.specs.Char.{to_ascii_lowercase};
ghost use Rattle.item_model.specs.Folding.{lowered, IsSearchedFor};
ghost use Rattle.song_query.specs.Glob.{Glob, glob, joins, from_some};

use dmap_tags::Text;
use item_model::Pattern;

/// Returns whether the pattern matches the text for which `searched` is searched (`Item::sought`). It does if the
/// text, folded, is the folded parts in order, with any characters between each two. Tries no offset twice and does
/// not allocate.
pub fn is_glob(pattern: &Pattern, searched: &str) -> bool
    ensures joined { (text : List ℕ) → IsSearchedFor text searched.now
        → Decides result (Glob pattern.now text) }
    ensures test { (text : List ℕ) → IsSearchedFor text searched.now
        → result ≡ glob pattern.now text }
{
    is_described(pattern.folded(), searched.as_bytes())
}

// Returns whether the lowered text is the lowered parts, in order, with any bytes between each two.
fn is_described(pieces: &[Text], text: &[u8]) -> bool
    ensures { result ≡ joins (map lowered pieces.now) (lowered text.now) }
{
    match pieces {
        [] => false,
        [first, others @ ..] => is_joined(first.as_str().as_bytes(), others, text),
    }
}

// Returns whether the text is the first part, any bytes, the next part, and so on.
fn is_joined(first: &[u8], others: &[Text], text: &[u8]) -> bool
    ensures { result ≡ joins (lowered first.now ∷ map lowered others.now) (lowered text.now) }
{
    if others.is_empty() {
        return text.eq_ignore_ascii_case(first);
    }
    match behind_front(text, first) {
        Some(rest) => are_behind(others, rest),
        None => false,
    }
}

// Returns the text after `piece`, if the text begins with it.
fn behind_front<'a>(text: &'a [u8], piece: &[u8]) -> Option<&'a [u8]>
    ensures { MatchOption result
        (take (length piece.now) (lowered text.now) ≢ lowered piece.now)
        (λ rest. (take (length piece.now) (lowered text.now) ≡ lowered piece.now)
        × (lowered rest.now ≡ drop (length piece.now) (lowered text.now))) }
{
    if text.len() < piece.len() {
        return None;
    }
    let (front, rest) = text.split_at(piece.len());
    if !front.eq_ignore_ascii_case(piece) {
        return None;
    }
    Some(rest)
}

// Returns the text after the first occurrence of `piece`. If the parts after `piece` are found after any occurrence,
// they are found after the first one.
fn behind_first<'a>(text: &'a [u8], piece: &[u8]) -> Option<&'a [u8]>
    ensures { MatchOption result
        ((q : List ℕ) (ps : List (List ℕ)) → from_some (joins (lowered piece.now ∷ q ∷ ps)) (lowered text.now) ≡ false)
        (λ rest. (q : List ℕ) (ps : List (List ℕ)) →
        from_some (joins (lowered piece.now ∷ q ∷ ps)) (lowered text.now) ≡ from_some (joins (q ∷ ps)) (lowered rest.now)) }
{
    if piece.is_empty() {
        return Some(text);
    }
    let first = piece[0].to_ascii_lowercase();
    let mut left = text;
    while piece.len() <= left.len() {
        if let Some(rest) = behind_first_byte(left, first, piece) {
            return Some(rest);
        }
        let (_, tail) = left.split_at(1);
        left = tail;
    }
    None
}

// Returns the text after `piece`, if the text begins with it. `first` is the lowered first byte of `piece`: most texts
// begin with another byte, and then no other bytes are compared.
#[inline(always)]
fn behind_first_byte<'a>(text: &'a [u8], first: u8, piece: &[u8]) -> Option<&'a [u8]>
    requires some { 0 < length piece.now }
    requires long { length piece.now ≤ length text.now }
    requires first { first ≡ to_ascii_lowercase (slice_index piece.now 0) }
    ensures { MatchOption result
        (take (length piece.now) (lowered text.now) ≢ lowered piece.now)
        (λ rest. (take (length piece.now) (lowered text.now) ≡ lowered piece.now)
        × (lowered rest.now ≡ drop (length piece.now) (lowered text.now))) }
{
    if text[0].to_ascii_lowercase() != first {
        return None;
    }
    behind_front(text, piece)
}

// Returns whether the text has the parts in order, the last one at its end.
fn are_behind(pieces: &[Text], text: &[u8]) -> bool
    ensures { result ≡ from_some (joins (map lowered pieces.now)) (lowered text.now) }
{
    let mut left = pieces;
    let mut rest = text;
    while let [piece, others @ ..] = left {
        if others.is_empty() {
            return is_end(rest, piece.as_str().as_bytes());
        }
        match behind_first(rest, piece.as_str().as_bytes()) {
            Some(behind) => rest = behind,
            None => return false,
        }
        left = others;
    }
    false
}

// Returns whether the text ends with `piece`.
fn is_end(text: &[u8], piece: &[u8]) -> bool
    ensures { result ≡ from_some (joins (lowered piece.now ∷ [])) (lowered text.now) }
{
    if text.len() < piece.len() {
        return false;
    }
    let (_, end) = text.split_at(text.len() - piece.len());
    end.eq_ignore_ascii_case(piece)
}
