//! Splitting bytes at a byte.

ghost use Rattle.std.specs.Prelude.{◌≡◌, ◌==◌, [], is_some};
ghost use Rattle.std.specs.List.{before_first, after_first, list_any, position};
ghost use Rattle.std.specs.Option.{option_map_or};

/// Returns the bytes before the first `at`, and those after it if there is one.
pub fn split_at_first(bytes: &[u8], at: u8) -> (&[u8], Option<&[u8]>)
    ensures before { result.0.now ≡ before_first (λ b. b == at) bytes.now }
    ensures found { is_some result.1 ≡ list_any (λ b. b == at) bytes.now }
    ensures behind { option_map_or (λ rest. rest.now) result.1 []
        ≡ after_first (λ b. b == at) bytes.now }
{
    match offset_of(bytes, at) {
        Some(i) => {
            let (before, _) = bytes.split_at(i);
            let (_, behind) = bytes.split_at(i + 1);
            (before, Some(behind))
        }
        None => (bytes, None),
    }
}

fn offset_of(bytes: &[u8], at: u8) -> Option<usize>
    ensures { result ≡ position (λ b. b == at) bytes.now }
{
    bytes.iter().position(|byte| *byte == at)
}
