//! What is looked at in answers.
ghost use Rattle.std.specs.Prelude.{◌≡◌, ◌+◌, ◌++◌, ◌∷◌, [], ℕ, List, true, IsNone, IsSomeAnd, length};
ghost use Rattle.script_exchanges.specs.DrivenParties.{Got};
ghost use Rattle.script_feed.specs.AnswerLooks.{EndsGet, GoesOnGet, HasGot, IsAnswerOf, lacks};
ghost use Rattle.script_model.specs.ScriptAnswers.{ScriptAnswer, is_refused};

use script_parse::{number_of, place_of};

/// Whether the line was refused to which this is the answer.
pub fn is_refusal(answer: &[u8]) -> bool
    ensures { (a : ScriptAnswer) → IsAnswerOf answer.now a → result ≡ is_refused a }
{
    answer.starts_with(b"refused ")
}

// What stands behind the first place of the byte, and so many bytes from there on.
fn behind(text: &[u8], byte: u8, skipped: usize) -> Option<&[u8]>
    ensures there { (a s b : List ℕ) → lacks byte a ≡ true → length s + 1 ≡ skipped
        → text.now ≡ a ++ byte ∷ (s ++ b) → IsSomeAnd result (λ r. r.now ≡ b) }
    ensures none { lacks byte text.now ≡ true → IsNone result }
{
    let at = place_of(text, byte)?;
    if text.len() - at < skipped {
        return None;
    }
    Some(&text[at + skipped..])
}

/// The text without its last byte.
pub fn without_last(text: &[u8]) -> Option<&[u8]>
    ensures { (a : List ℕ) (b : ℕ) → text.now ≡ a ++ b ∷ []
        → IsSomeAnd result (λ r. r.now ≡ a) }
{
    if text.is_empty() {
        return None;
    }
    Some(&text[..text.len() - 1])
}

/// What the last step of a get was told, as it is written, and the generation; none where the get goes on.
pub fn got_of(answer: &[u8]) -> Option<(&[u8], u64)>
    ensures goes_on { GoesOnGet answer.now → IsNone result }
    ensures ends { (got : Got) → EndsGet answer.now got
        → IsSomeAnd result (λ r. HasGot r.0.now r.1 got) }
{
    let told = behind(answer, b'=', 2)?;
    let text = without_last(told)?;
    let digits = behind(text, b' ', 5)?;
    let generation = number_of(digits)?;
    Some((text, generation))
}
