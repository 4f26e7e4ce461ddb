//! What is measured, and the words that name it.
ghost use Rattle.std.specs.Prelude.{ℕ, ◌≡◌, ◌^◌, ◌≤◌, ◌<◌, codes, map, Some, IsSome, IsTrue, IfOk, IfSome, string_bytes};
ghost use Rattle.std.specs.Fmt.{decimal};
ghost use Rattle.board_event_model.specs.declared.kind.EventKind.{EventKind};
ghost use Rattle.board_bench.specs.Task.{AreCallsOf, IsBenchTask, IsCount, IsTaskOf, call_word, cell_words, event_words, is_width, kind_word, spelling};

use board_event::EventKind;
use std::alloc::{AllocError, Global};

/// A call on a cell, or on the entry of a board.
#[derive(Clone, Copy, Debug, PartialEq, Eq)]
pub enum Call {
    /// Reads in as many tries as it takes.
    Get,
    /// Reads in one try.
    TryGet,
    /// Publishes a value.
    Update,
}

/// This many calls on values of so many words.
#[derive(Clone, Copy, Debug, PartialEq, Eq)]
pub struct Calls {
    /// How many words a value has.
    pub width: u64,
    /// The call.
    pub call: Call,
    /// How often it is made.
    pub count: u64,
}

/// What is measured.
#[derive(Clone, Copy, Debug, PartialEq, Eq)]
pub enum Task {
    /// Calls on a cell, in one thread.
    Solo(Calls),
    /// The same by a typed handle, on the entry of a board.
    Typed(Calls),
    /// This many round trips of an id between two threads, over two typed events.
    Event {
        /// The kind of both events.
        kind: EventKind,
        /// How many round trips.
        count: u64,
    },
    /// One thread that makes so many updates, and so many that get until they have seen the last of them.
    Shared {
        /// How many words a value has.
        width: u64,
        /// How many threads get.
        readers: u64,
        /// How many updates the other one makes.
        updates: u64,
    },
}

// The greatest count.
const GREATEST: u64 = (1 << 40) - 1;

/// The number that the word spells in decimal digits, without a sign or a leading zero, if it does.
///
/// # Errors
/// `AllocError` where memory is refused.
pub fn number(alloc: Global, word: &str) -> Result<Option<u64>, AllocError>
    ensures spelled { IfOk result (λ o. IfSome o (λ n. word.now ≡ decimal n)) }
    ensures found { (n : ℕ) → n < 2 ^ 64 → word.now ≡ decimal n → IfOk result (λ o. o ≡ Some n) }
{
    let Ok(n) = word.parse::<u64>() else {
        return Ok(None);
    };
    let text = format!(in alloc; "{n}")?;
    Ok(if text.as_str() == word { Some(n) } else { None })
}

/// The number from the least to the most that the word spells, if it does.
///
/// # Errors
/// `AllocError` where memory is refused.
pub fn number_within(
    alloc: Global,
    word: &str,
    least: u64,
    most: u64,
) -> Result<Option<u64>, AllocError>
    ensures spelled { IfOk result (λ o. IfSome o (λ n.
        (least ≤ n) × (n ≤ most) × (word.now ≡ decimal n))) }
    ensures found { (n : ℕ) → least ≤ n → n ≤ most → word.now ≡ decimal n
        → IfOk result (λ o. o ≡ Some n) }
{
    let Some(n) = number(alloc, word)? else {
        return Ok(None);
    };
    Ok(if least <= n && n <= most {
        Some(n)
    } else {
        None
    })
}

/// The width that the word spells, if it does: 1, 4 or 32.
///
/// # Errors
/// `AllocError` where memory is refused.
pub fn width_of(alloc: Global, word: &str) -> Result<Option<u64>, AllocError>
    ensures spelled { IfOk result (λ o. IfSome o (λ w.
        IsTrue (is_width w) × (word.now ≡ decimal w))) }
    ensures found { (w : ℕ) → IsTrue (is_width w) → word.now ≡ decimal w
        → IfOk result (λ o. o ≡ Some w) }
{
    let Some(width) = number(alloc, word)? else {
        return Ok(None);
    };
    Ok(if width == 1 || width == 4 || width == 32 {
        Some(width)
    } else {
        None
    })
}

/// The call that the word names, if it does.
pub fn call_of(word: &str) -> Option<Call>
    ensures spelled { IfSome result (λ call. word.now ≡ call_word call) }
    ensures found { (call : Call) → word.now ≡ call_word call → IsSome result }
{
    match word {
        "get" => Some(Call::Get),
        "try_get" => Some(Call::TryGet),
        "update" => Some(Call::Update),
        _ => None,
    }
}

/// The kind of events that the word names, if it does.
pub fn kind_of(word: &str) -> Option<EventKind>
    ensures spelled { IfSome result (λ kind. word.now ≡ kind_word kind) }
    ensures found { (kind : EventKind) → word.now ≡ kind_word kind → IsSome result }
{
    match word {
        "bits" => Some(EventKind::Bits),
        "queue" => Some(EventKind::Queue),
        _ => None,
    }
}

/// The task on events that the words after the first spell, if they do.
///
/// # Errors
/// `AllocError` where memory is refused.
pub fn event_of(alloc: Global, kind: &str, count: &str) -> Result<Option<Task>, AllocError>
    ensures spelled { IfOk result (λ o. IfSome o (IsTaskOf (event_words (codes "event") kind.now count.now))) }
    ensures found { (k : EventKind) (n : ℕ) → IsCount n → kind.now ≡ kind_word k → count.now ≡ decimal n
        → IfOk result IsSome }
{
    let Some(kind) = kind_of(kind) else {
        return Ok(None);
    };
    let Some(count) = number_within(alloc, count, 0, GREATEST)? else {
        return Ok(None);
    };
    Ok(Some(Task::Event { kind, count }))
}

/// The task with readers that the words after the first spell, if they do.
///
/// # Errors
/// `AllocError` where memory is refused.
pub fn shared_of(
    alloc: Global,
    width: &str,
    readers: &str,
    count: &str,
) -> Result<Option<Task>, AllocError>
    ensures spelled { IfOk result (λ o.
        IfSome o (IsTaskOf (cell_words (codes "shared") width.now readers.now count.now))) }
    ensures found { (w r n : ℕ) → IsTrue (is_width w) → 1 ≤ r → r ≤ 3 → IsCount n
        → width.now ≡ decimal w → readers.now ≡ decimal r → count.now ≡ decimal n → IfOk result IsSome }
{
    let Some(width) = width_of(alloc, width)? else {
        return Ok(None);
    };
    let Some(readers) = number_within(alloc, readers, 1, 3)? else {
        return Ok(None);
    };
    let Some(updates) = number_within(alloc, count, 0, GREATEST)? else {
        return Ok(None);
    };
    Ok(Some(Task::Shared {
        width,
        readers,
        updates,
    }))
}

/// The width, the call and the count that words spell, if they do.
///
/// # Errors
/// `AllocError` where memory is refused.
pub fn calls_of(
    alloc: Global,
    width: &str,
    call: &str,
    count: &str,
) -> Result<Option<Calls>, AllocError>
    ensures spelled { IfOk result (λ o. IfSome o (AreCallsOf width.now call.now count.now)) }
    ensures found { (calls : Calls) → AreCallsOf width.now call.now count.now calls → IfOk result IsSome }
{
    let Some(width) = width_of(alloc, width)? else {
        return Ok(None);
    };
    let Some(call) = call_of(call) else {
        return Ok(None);
    };
    let Some(count) = number_within(alloc, count, 0, GREATEST)? else {
        return Ok(None);
    };
    Ok(Some(Calls { width, call, count }))
}

/// The task of four words that they spell, if they do.
///
/// # Errors
/// `AllocError` where memory is refused.
pub fn cell_task_of(
    alloc: Global,
    what: &str,
    width: &str,
    how: &str,
    count: &str,
) -> Result<Option<Task>, AllocError>
    ensures spelled { IfOk result (λ o.
        IfSome o (IsTaskOf (cell_words what.now width.now how.now count.now))) }
    ensures found { (t : Task) → IsBenchTask t → cell_words what.now width.now how.now count.now ≡ spelling t
        → IfOk result IsSome }
{
    match what {
        "shared" => shared_of(alloc, width, how, count),
        "solo" => Ok(calls_of(alloc, width, how, count)?.map(Task::Solo)),
        "typed" => Ok(calls_of(alloc, width, how, count)?.map(Task::Typed)),
        _ => Ok(None),
    }
}

/// The task of three words that they spell, if they do.
///
/// # Errors
/// `AllocError` where memory is refused.
pub fn event_task_of(
    alloc: Global,
    what: &str,
    kind: &str,
    count: &str,
) -> Result<Option<Task>, AllocError>
    ensures spelled { IfOk result (λ o.
        IfSome o (IsTaskOf (event_words what.now kind.now count.now))) }
    ensures found { (t : Task) → IsBenchTask t → event_words what.now kind.now count.now ≡ spelling t
        → IfOk result IsSome }
{
    if what != "event" {
        return Ok(None);
    }
    event_of(alloc, kind, count)
}

/// The task that the words spell, if they do.
///
/// # Errors
/// `AllocError` where memory is refused.
pub fn task_of(alloc: Global, words: &[String]) -> Result<Option<Task>, AllocError>
    ensures spelled { IfOk result (λ o. IfSome o (IsTaskOf (map string_bytes words.now))) }
    ensures found { (t : Task) → IsBenchTask t → map string_bytes words.now ≡ spelling t
        → IfOk result IsSome }
{
    if words.len() == 3 {
        let (what, kind, count) = (words[0].as_str(), words[1].as_str(), words[2].as_str());
        return event_task_of(alloc, what, kind, count);
    }
    if words.len() != 4 {
        return Ok(None);
    }
    let (what, width) = (words[0].as_str(), words[1].as_str());
    let (how, count) = (words[2].as_str(), words[3].as_str());
    cell_task_of(alloc, what, width, how, count)
}
