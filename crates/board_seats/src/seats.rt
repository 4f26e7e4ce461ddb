//! The calls: each asks whether the handle is held and its entry is the one that was found, looks for its cell among the words of its board, and makes all accesses.
ghost use Rattle.std.specs.Prelude.{◌≡◌, length, is_some, option_map, true, IfNone, IfSome, OnSome, OnOk, OnErr, Some};
ghost use Rattle.std.specs.Bool.{OnTrue};
ghost use Rattle.board_layout.specs.Bytes.{details};
ghost use Rattle.board_cell.specs.WholeCalls.{LiesAmong, PublishesIn};
ghost use Rattle.board_service.specs.Domain.{Stands};
ghost use Rattle.board_service.specs.Told.{found_of};
ghost use Rattle.board_seats.specs.Seats as seats;

use crate::update_error::UpdateError;
use board_cell::{SeatWords, Words, fresh_on, get_on, update_on};
use board_layout::{BoardKey, CellShape};
use board_model::ThingKind;
use board_service::{DomainCore, Found};

// Whether the cell lies among the words.
fn lies_among(words: &SeatWords, shape: CellShape) -> bool
    ensures value { result ≡ seats.lies_among shape words.now }
    ensures lies { result ≡ true → LiesAmong shape words.now }
{
    let count = words.len();
    if shape.head == 0 || count < shape.first {
        return false;
    }
    let behind = count - shape.first;
    if behind < shape.head {
        return false;
    }
    (behind - shape.head) / 2 >= shape.words
}

// Reads the cell among the words, where it lies there.
fn get_in(words: &mut SeatWords, shape: CellShape, out: &mut Vec<u64>) -> Option<u64>
    requires { length out.old.items ≡ shape.words }
    ensures found { is_some result ≡ is_some (seats.words_with shape (Some words.old)) }
    ensures got { IfSome result
        (λ g. seats.IsRead shape (seats.words_with shape (Some words.old)) g out.new.items) }
    ensures none { IfNone result (out.new.items ≡ out.old.items) }
    ensures same { words.new ≡ words.old }
    ensures width { length out.new.items ≡ shape.words }
{
    if !lies_among(words, shape) {
        return None;
    }
    Some(get_on(words, shape, out))
}

fn fresh_in(words: &mut SeatWords, shape: CellShape, generation: u64) -> Option<bool>
    ensures answer { result
        ≡ option_map (seats.is_at shape generation) (seats.words_with shape (Some words.old)) }
    ensures same { words.new ≡ words.old }
{
    if !lies_among(words, shape) {
        return None;
    }
    Some(fresh_on(words, shape, generation))
}

fn update_in(words: &mut SeatWords, shape: CellShape, value: &Vec<u64>) -> Result<u64, UpdateError>
    requires { length value.now.items ≡ shape.words }
    ensures answer { result
        ≡ seats.update_answer shape (seats.words_with shape (Some words.old)) }
    ensures ok { OnOk result (PublishesIn shape value.now.items words.old words.new) }
    ensures err { OnErr result (words.new ≡ words.old) }
{
    if !lies_among(words, shape) {
        return Err(UpdateError::HandleUnknown);
    }
    let generation = words.load(shape.first);
    if generation == u64::MAX {
        return Err(UpdateError::GenerationsSpent);
    }
    Ok(update_on(words, shape, value))
}

// Whether the handle is held, and its entry is the one that was found: another entry's cell is never touched.
fn is_found<K: BoardKey>(domain: &DomainCore<SeatWords>, entry: &Found, kind: ThingKind) -> bool
    ensures value { let keys = details K.type_bytes K.SIZE K.ALIGNMENT in
        result ≡ seats.is_found domain.now keys entry.now kind }
    ensures stands { OnTrue result (Stands domain.now entry.now.thing) }
    ensures tied { OnTrue result (found_of domain.now entry.now.thing ≡ Some entry.now) }
{
    if !domain.is_held::<K>(entry.thing, kind) {
        return false;
    }
    let Some(found) = domain.found_of(entry.thing) else {
        return false;
    };
    let (one, other) = (found.shape, entry.shape);
    found.entry == entry.entry
        && found.place == entry.place
        && one.first == other.first
        && one.head == other.head
        && one.words == other.words
}

/// Reads the value of the entry of a read handle. Gives its generation, and its words in `out`, which has as many words as a value of the entry. `None` where the handle isn't held by who has keys of type `K`, `entry` isn't what was found for it, or the words of its board have no such cell; then `out` stays as it was.
pub fn get<K: BoardKey>(
    domain: &mut DomainCore<SeatWords>,
    entry: &Found,
    out: &mut Vec<u64>,
) -> Option<u64>
    requires { length out.old.items ≡ entry.now.shape.words }
    ensures found { let keys = details K.type_bytes K.SIZE K.ALIGNMENT in
        is_some result
        ≡ is_some (seats.words_for domain.old keys entry.now ThingKind.ReadHandle) }
    ensures got { let keys = details K.type_bytes K.SIZE K.ALIGNMENT in
        let words = seats.words_for domain.old keys entry.now ThingKind.ReadHandle in
        IfSome result (λ g. seats.IsRead entry.now.shape words g out.new.items) }
    ensures tied { OnSome result (found_of domain.old entry.now.thing ≡ Some entry.now) }
    ensures none { IfNone result (out.new.items ≡ out.old.items) }
    ensures same { domain.new ≡ domain.old }
    ensures width { length out.new.items ≡ entry.now.shape.words }
{
    if !is_found::<K>(domain, entry, ThingKind::ReadHandle) {
        return None;
    }
    let board = domain.board_of(entry.thing);
    match domain.cells_mut(board) {
        Some(words) => get_in(words, entry.shape, out),
        None => None,
    }
}

/// Whether the entry of a read handle is at this generation. `None` is as for `get`.
pub fn fresh<K: BoardKey>(
    domain: &mut DomainCore<SeatWords>,
    entry: &Found,
    generation: u64,
) -> Option<bool>
    ensures answer { let keys = details K.type_bytes K.SIZE K.ALIGNMENT in
        let words = seats.words_for domain.old keys entry.now ThingKind.ReadHandle in
        result ≡ option_map (seats.is_at entry.now.shape generation) words }
    ensures tied { OnSome result (found_of domain.old entry.now.thing ≡ Some entry.now) }
    ensures same { domain.new ≡ domain.old }
{
    if !is_found::<K>(domain, entry, ThingKind::ReadHandle) {
        return None;
    }
    let board = domain.board_of(entry.thing);
    match domain.cells_mut(board) {
        Some(words) => fresh_in(words, entry.shape, generation),
        None => None,
    }
}

/// Publishes a value of the entry of a write handle, which has as many words as the entry's values. Gives its generation.
///
/// # Errors
/// `HandleUnknown` where the handle isn't held by who has keys of type `K`, `entry` isn't what was found for it, or the words of its board have no such cell; `GenerationsSpent` where the entry has had 2^64 - 1 values. All stays as it was.
pub fn update<K: BoardKey>(
    domain: &mut DomainCore<SeatWords>,
    entry: &Found,
    value: &Vec<u64>,
) -> Result<u64, UpdateError>
    requires { length value.now.items ≡ entry.now.shape.words }
    ensures answer { let keys = details K.type_bytes K.SIZE K.ALIGNMENT in
        let words = seats.words_for domain.old keys entry.now ThingKind.WriteHandle in
        result ≡ seats.update_answer entry.now.shape words }
    ensures ok { let keys = details K.type_bytes K.SIZE K.ALIGNMENT in
        let words = seats.words_for domain.old keys entry.now ThingKind.WriteHandle in
        let board = seats.board_of domain.old entry.now in
        let published = value.now.items in
        OnOk result (seats.Updates entry.now.shape published words domain.old domain.new board) }
    ensures tied { OnOk result (found_of domain.old entry.now.thing ≡ Some entry.now) }
    ensures err { OnErr result (domain.new ≡ domain.old) }
{
    if !is_found::<K>(domain, entry, ThingKind::WriteHandle) {
        return Err(UpdateError::HandleUnknown);
    }
    let board = domain.board_of(entry.thing);
    match domain.cells_mut(board) {
        Some(words) => update_in(words, entry.shape, value),
        None => Err(UpdateError::HandleUnknown),
    }
}
