//! Looks at bytes.
ghost use Rattle.std.specs.Prelude.{◌≡◌, ◌==◌, ◌<◌, false, All, IfNone, IfSome, length, map, slice_index, take};
ghost use Rattle.std.specs.Option.{option_map};
ghost use Rattle.std.specs.Str.{bytes_eq};
ghost use Rattle.script_grammar.specs.TokenReading.{behind, beside};

/// Where the byte stands first.
pub fn place_of(bytes: &[u8], wanted: u8) -> Option<usize>
    ensures none { IfNone result (All (λ b. (b == wanted) ≡ false) bytes.now) }
    ensures inside { IfSome result (λ at. at < length bytes.now) }
    ensures found { IfSome result (λ at. slice_index bytes.now at ≡ wanted) }
    ensures first { IfSome result (λ at. All (λ b. (b == wanted) ≡ false) (take at bytes.now)) }
{
    for (i, b) in bytes.iter().enumerate() {
        if *b == wanted {
            return Some(i);
        }
    }
    None
}

// Whether the text is the word.
#[inline(always)]
pub(crate) fn is_word(text: &[u8], word: &[u8]) -> bool
    ensures { result ≡ bytes_eq text.now word.now }
{
    text == word
}

// What follows the prefix.
#[inline(always)]
pub(crate) fn bytes_behind<'a>(text: &'a [u8], prefix: &[u8]) -> Option<&'a [u8]>
    ensures { option_map (λ rest. rest.now) result ≡ behind prefix.now text.now }
{
    text.strip_prefix(prefix)
}

// What stands beside the word in a table.
pub(crate) fn beside<T: Copy>(word: &[u8], table: &[(&[u8], T)]) -> Option<T>
    ensures { result ≡ beside word.now (map (λ entry. (entry.0.now, entry.1)) table.now) }
{
    for entry in table {
        if is_word(word, entry.0) {
            return Some(entry.1);
        }
    }
    None
}
