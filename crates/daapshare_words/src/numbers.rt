//! Numbers among the arguments of the command line.

ghost use Rattle.std.specs.Prelude.{◌≡◌, true, IfSome, option_map};
ghost use Rattle.std.specs.Char.{is_ascii_digit};
ghost use Rattle.std.specs.List.{list_all};
ghost use Rattle.daapshare_words.specs.Numbers.{IsWithin, number_of_word, number_within, keep_of, workers_of, editors_of, most_editors, list_of};

/// Returns the number that `word`, of 1 to 10 decimal digits, represents, if it is at most 4,294,967,295.
pub fn number_word(word: &str) -> Option<u32>
    ensures { result ≡ number_of_word word.now }
{
    // `parse` would also take a sign.
    if word.len() > 10 || !are_digits(word.as_bytes()) {
        return None;
    }
    word.parse::<u32>().ok()
}

fn are_digits(word: &[u8]) -> bool
    ensures { result ≡ list_all is_ascii_digit word.now }
{
    word.iter().all(|byte| byte.is_ascii_digit())
}

/// The delta window, in revisions, without `--keep`.
const DEFAULT_KEEP: u32 = 256;

/// The numbers of threads that serve the connections of players, and of editors, without `--workers` and `--editors`.
const DEFAULT_WORKERS: u32 = 16;

const DEFAULT_EDITORS: u32 = 2;

/// Returns the number that `word` represents, if it is from `least` to `most`.
pub fn number_of(word: Option<&str>, least: u32, most: u32) -> Option<u32>
    ensures read { result ≡ number_within least most (option_map (λ s. s.now) word.entry) }
    ensures within { IfSome result (IsWithin least most) }
{
    let number = number_word(word?)?;
    if least <= number && number <= most {
        Some(number)
    } else {
        None
    }
}

/// Returns the delta window, in revisions; `word` is the value of `--keep`.
pub fn keep_of(word: Option<&str>) -> Option<u32>
    ensures read { result ≡ keep_of (option_map (λ s. s.now) word.entry) }
    ensures within { IfSome result (IsWithin 1 65536) }
{
    match word {
        Some(_) => number_of(word, 1, 65_536),
        None => Some(DEFAULT_KEEP),
    }
}

/// Returns how many threads serve the connections of players; `word` is the value of `--workers`.
pub fn workers_of(word: Option<&str>) -> Option<u32>
    ensures read { result ≡ workers_of (option_map (λ s. s.now) word.entry) }
    ensures within { IfSome result (IsWithin 1 64) }
{
    match word {
        Some(_) => number_of(word, 1, 64),
        None => Some(DEFAULT_WORKERS),
    }
}

/// Returns how many threads serve the connections of editors; `word` is the value of `--editors`. One, if `is_kept`: a
/// file keeps the edits.
pub fn editors_of(word: Option<&str>, is_kept: bool) -> Option<u32>
    ensures read { result ≡ editors_of is_kept (option_map (λ s. s.now) word.entry) }
    ensures within { IfSome result (IsWithin 1 (most_editors is_kept)) }
{
    if is_kept {
        return one_editor(word);
    }
    match word {
        Some(_) => number_of(word, 1, 8),
        None => Some(DEFAULT_EDITORS),
    }
}

/// Returns one, the number of threads for editors of a share with a file, unless `word` says another number.
fn one_editor(word: Option<&str>) -> Option<u32>
    ensures read { result ≡ editors_of true (option_map (λ s. s.now) word.entry) }
    ensures within { IfSome result (IsWithin 1 1) }
{
    match word {
        Some(_) => number_of(word, 1, 1),
        None => Some(1),
    }
}

/// Returns the id of a container, 1 to 4,294,967,295; `word` is the value of `--list`. Without it, returns
/// `Some(None)`.
pub fn list_of(word: Option<&str>) -> Option<Option<u32>>
    ensures read { result ≡ list_of (option_map (λ s. s.now) word.entry) }
    ensures within { IfSome result (λ list. IfSome list (IsWithin 1 4294967295)) }
{
    match word {
        Some(_) => Some(Some(number_of(word, 1, u32::MAX)?)),
        None => Some(None),
    }
}
