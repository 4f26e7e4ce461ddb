//! Looks at the bytes of a token.
ghost use Rattle.std.specs.Prelude.{◌≡◌, map};
ghost use Rattle.std.specs.List.{list_all, list_any};
ghost use Rattle.std.specs.Option.{option_map};
ghost use Rattle.std.specs.Str.{bytes_eq};
ghost use Rattle.board_model.specs.LineGrammar.{is_name, is_name_byte, is_visible, is_visible_byte};
ghost use Rattle.script_grammar.specs.TokenReading.{behind};
ghost use Rattle.script_model.specs.ScriptGrammar.{is_event_byte, is_event_name};
ghost use Rattle.script_answers.specs.AnswerReading.{is_number};

use script_parse::number_of;

// Whether the text is the word.
pub(crate) fn is_word(text: &[u8], word: &[u8]) -> bool
    ensures { result ≡ bytes_eq text.now word.now }
{
    text == word
}

// Whether the text is one of the words.
pub(crate) fn is_among(text: &[u8], words: &[&[u8]]) -> bool
    ensures { result ≡ list_any (bytes_eq text.now) (map (λ word. word.now) words.now) }
{
    for word in words {
        if is_word(text, word) {
            return true;
        }
    }
    false
}

// What follows the prefix.
pub(crate) fn behind<'a>(text: &'a [u8], prefix: &[u8]) -> Option<&'a [u8]>
    ensures { option_map (λ rest. rest.now) result ≡ behind prefix.now text.now }
{
    text.strip_prefix(prefix)
}

pub(crate) fn is_number(text: &[u8]) -> bool
    ensures { result ≡ is_number text.now }
{
    number_of(text).is_some()
}

fn has_visible_bytes(text: &[u8]) -> bool
    ensures { result ≡ list_all is_visible_byte text.now }
{
    text.iter().all(|b| *b >= b'!' && *b <= b'~')
}

// Whether these are 1 to so many visible bytes.
pub(crate) fn is_visible(text: &[u8], most: usize) -> bool
    ensures { result ≡ is_visible most text.now }
{
    !text.is_empty() && text.len() <= most && has_visible_bytes(text)
}

fn has_name_bytes(text: &[u8]) -> bool
    ensures { result ≡ list_all is_name_byte text.now }
{
    text.iter().all(|b| (*b >= b'a' && *b <= b'z') || (*b >= b'0' && *b <= b'9'))
}

pub(crate) fn is_name(text: &[u8]) -> bool
    ensures { result ≡ is_name text.now }
{
    !text.is_empty() && text.len() <= 16 && has_name_bytes(text)
}

fn has_event_bytes(text: &[u8]) -> bool
    ensures { result ≡ list_all is_event_byte text.now }
{
    text.iter().all(|b| *b != b'/' && *b != b'\\')
}

pub(crate) fn is_event_name(text: &[u8]) -> bool
    ensures { result ≡ is_event_name text.now }
{
    is_visible(text, 255) && has_event_bytes(text) && !is_word(text, b".") && !is_word(text, b"..")
}
