//! Looking up what a call uses.
ghost use Rattle.std.specs.Prelude.{◌≡◌, IfOk, length};
ghost use Rattle.board_model.specs.declared.line.Call.TheVariants as call;
ghost use Rattle.board_model.specs.LawfulSession as session;
ghost use Rattle.board_model.specs.Tables as model;
ghost use Rattle.script_board_tables.specs.Calls.{Finds, lent_found, lent_of, plain_of};
ghost use Rattle.script_board_tables.specs.declared.calls.BoardCall.TheVariants as board_call;
ghost use Rattle.script_board_tables.specs.Tables.{published_of, standing_of, tables_of};

use crate::calls::{BoardCall, Fetch, Lent, Look, Publishing, TableCall};
use crate::tables::{BoardTables, LoanWords};
use board_layout::TypeDetail;
use board_model::{
    AddedEntries, AttributeKeys, Attributes, BoardName, Call, Entry, Key, KeyType, Limits,
    LongName, Name, NewLimits, Requirements, ThingKind, Value, ValueType, Words, have_key_type,
    key_detail, same_type, type_of, type_of_key, value_detail, value_type_of, value_words,
};
use script_board_rows::Reading;
use script_things::Held;
use std::alloc::{AllocError, Global};

/// A call that was looked up, and what else is to hold of it.
#[derive(Drop)]
pub struct Found {
    /// The call.
    pub call: BoardCall,
    /// Whether its keys are of the type of the board's keys, and its value is of the entry's type.
    pub typed: bool,
    /// Whether the word that it puts is one of the entry.
    pub indexed: bool,
    /// Whether each word of the loan that it publishes was put.
    pub filled: bool,
}

// A call of which nothing else is to hold.
fn plain(call: BoardCall) -> Found
    ensures { result ≡ plain_of call }
{
    Found {
        call,
        typed: true,
        indexed: true,
        filled: true,
    }
}

fn on_table(call: TableCall) -> Found
    ensures { result ≡ plain_of (board_call.Table call) }
{
    plain(BoardCall::Table(call))
}

fn copied_name(alloc: Global, name: &LongName) -> Result<LongName, AllocError>
    ensures { IfOk result (λ copy. copy ≡ name.now) }
{
    LongName::new(alloc, *name.as_text())
}

fn copied_words(alloc: Global, words: &LoanWords) -> Result<LoanWords, AllocError>
    ensures { IfOk result (λ copy. copy ≡ words.now) }
{
    Ok(LoanWords::from_vec(Vec::from_slice(alloc, words.as_slice())?))
}

fn copied_entries(alloc: Global, entries: &AddedEntries) -> Result<AddedEntries, AllocError>
    ensures { IfOk result (λ copy. copy ≡ entries.now) }
{
    Ok(AddedEntries::from_vec(Vec::from_slice(alloc, entries.as_slice())?))
}

fn copied_attributes(alloc: Global, attributes: &Attributes) -> Result<Attributes, AllocError>
    ensures { IfOk result (λ copy. copy ≡ attributes.now) }
{
    Ok(Attributes::from_vec(Vec::from_slice(alloc, attributes.as_slice())?))
}

fn copied_needs(alloc: Global, needs: &Requirements) -> Result<Requirements, AllocError>
    ensures { IfOk result (λ copy. copy ≡ needs.now) }
{
    Ok(Requirements {
        pairs: copied_attributes(alloc, &needs.pairs)?,
        keys: AttributeKeys::from_vec(Vec::from_slice(alloc, needs.keys.as_slice())?),
    })
}

fn all_put(words: &[Option<u64>]) -> bool
    ensures { result ≡ session.all_put words.now }
{
    for word in words {
        match word {
            Some(_) => {}
            None => return false,
        }
    }
    true
}

impl BoardTables {
    // Whether a key is of the type of the board's keys.
    fn is_typed_key(&self, board: u64, key: &Key) -> bool
        ensures { result ≡ session.is_typed_key
            (model.board_at (tables_of self.now) board) key.now }
    {
        match self.board(board) {
            Some(found) => same_type(&found.key, &key_detail(type_of_key(key))),
            None => false,
        }
    }

    // How many values of an entry were published.
    pub(crate) fn generation(&self, board: u64, entry: u64) -> u64
        ensures { result ≡ length (published_of self.now board entry) }
    {
        match self.rows.get(&board) {
            Some(row) => match row.published.get(entry as usize) {
                Some(list) => list.len() as u64,
                None => 0,
            },
            None => 0,
        }
    }

    fn find_create(
        &self,
        party: &Name,
        factory: Name,
        name: &BoardName,
        key_type: KeyType,
        limits: NewLimits,
        attributes: &Attributes,
        entries: &AddedEntries,
    ) -> Result<Option<Found>, AllocError>
        ensures { IfOk result (Finds self.now party.now
            (call.Create factory name.now key_type limits attributes.now entries.now)) }
    {
        let mut found = on_table(TableCall::Create {
            factory,
            name: copied_name(self.alloc, name)?,
            key_type,
            limits,
            attributes: copied_attributes(self.alloc, attributes)?,
            entries: copied_entries(self.alloc, entries)?,
        });
        found.typed = have_key_type(key_type, entries.as_slice());
        Ok(Some(found))
    }

    fn find_open(
        &self,
        party: &Name,
        factory: Name,
        name: &BoardName,
        key_type: KeyType,
        limits: Limits,
        needs: &Requirements,
    ) -> Result<Option<Found>, AllocError>
        ensures { IfOk result (Finds self.now party.now
            (call.Open factory name.now key_type limits needs.now)) }
    {
        Ok(Some(on_table(TableCall::Open {
            factory,
            name: copied_name(self.alloc, name)?,
            key_type,
            limits,
            needs: copied_needs(self.alloc, needs)?,
        })))
    }

    fn find_reader(&self, party: &Name, reader: Name, factory: &Name) -> Option<Found>
        ensures { Finds self.now party.now (call.Reader reader factory.now) result }
    {
        let factory = self.held(ThingKind::Factory, party, factory)?;
        Some(on_table(TableCall::Reader { reader, factory }))
    }

    fn find_writer(&self, party: &Name, writer: Name, factory: &Name) -> Option<Found>
        ensures { Finds self.now party.now (call.Writer writer factory.now) result }
    {
        let factory = self.held(ThingKind::Factory, party, factory)?;
        Some(on_table(TableCall::Writer { writer, factory }))
    }

    fn find_entry(
        &self,
        party: &Name,
        handle: Name,
        reader: &Name,
        key: Key,
        value_type: ValueType,
    ) -> Option<Found>
        ensures { Finds self.now party.now (call.Entry handle reader.now key value_type) result }
    {
        let reader = self.held(ThingKind::Reader, party, reader)?;
        let typed = self.is_typed_key(reader.board, &key);
        let mut found = on_table(TableCall::Entry {
            handle,
            reader,
            key,
            value_type,
        });
        found.typed = typed;
        Some(found)
    }

    fn find_entry_mut(
        &self,
        party: &Name,
        handle: Name,
        writer: &Name,
        key: Key,
        value_type: ValueType,
    ) -> Option<Found>
        ensures { Finds self.now party.now
            (call.EntryMut handle writer.now key value_type) result }
    {
        let writer = self.held(ThingKind::Writer, party, writer)?;
        let typed = self.is_typed_key(writer.board, &key);
        let mut found = on_table(TableCall::EntryMut {
            handle,
            writer,
            key,
            value_type,
        });
        found.typed = typed;
        Some(found)
    }

    fn find_get(&self, party: &Name, handle: &Name, value: Option<Name>) -> Option<Found>
        ensures { Finds self.now party.now (call.Get handle.now value) result }
    {
        let thing = self.held(ThingKind::ReadHandle, party, handle)?;
        let entry = self.entry(&thing)?;
        Some(plain(BoardCall::Get {
            fetch: Fetch {
                board: thing.board,
                entry: thing.kind.entry(),
                shape: entry.cell.shape(),
                value_type: value_type_of(&entry.value),
                value,
            },
            reading: Reading::Opening,
        }))
    }

    fn find_fresh(&self, party: &Name, handle: &Name, value: &Name) -> Option<Found>
        ensures { Finds self.now party.now (call.Fresh handle.now value.now) result }
    {
        let thing = self.held(ThingKind::ReadHandle, party, handle)?;
        let entry = self.entry(&thing)?;
        let kept = self.kept(party, value)?;
        let mut found = plain(BoardCall::Fresh(Look {
            board: thing.board,
            entry: thing.kind.entry(),
            shape: entry.cell.shape(),
            generation: kept.generation,
        }));
        found.typed = same_type(&value_detail(kept.value_type), &entry.value);
        Some(found)
    }

    fn find_update(
        &self,
        party: &Name,
        handle: &Name,
        value: Value,
    ) -> Result<Option<Found>, AllocError>
        ensures { IfOk result (Finds self.now party.now (call.Update handle.now value)) }
    {
        let Some(thing) = self.write_handle(party, handle) else {
            return Ok(None);
        };
        let Some(entry) = self.entry(&thing) else {
            return Ok(None);
        };
        let words = Words::from_vec(value_words(self.alloc, value)?);
        let at = thing.kind.entry();
        let mut found = plain(BoardCall::Update(Publishing {
            board: thing.board,
            entry: at,
            shape: entry.cell.shape(),
            generation: self.generation(thing.board, at),
            words,
            written: 0,
        }));
        found.typed = same_type(&value_detail(type_of(value)), &entry.value);
        Ok(Some(found))
    }

    // What a call on a loan of this entry uses.
    fn lent(&self, thing: &Held, entry: &Entry, loan: Name, handle: Name, words: LoanWords) -> Lent
        ensures { result ≡ lent_of (published_of self.now) thing.now entry.now loan handle words }
    {
        let at = thing.kind.entry();
        Lent {
            board: thing.board,
            entry: at,
            shape: entry.cell.shape(),
            generation: self.generation(thing.board, at),
            loan,
            handle,
            words,
        }
    }

    fn find_loan(&self, party: &Name, loan: Name, handle: Name) -> Option<Found>
        ensures { Finds self.now party.now (call.Loan loan handle) result }
    {
        let thing = self.write_handle(party, &handle)?;
        let entry = self.entry(&thing)?;
        let words = LoanWords::from_vec(Vec::new(self.alloc));
        Some(plain(BoardCall::Loan(self.lent(&thing, entry, loan, handle, words))))
    }

    // A loan of the party as it is used by a call that names its handle so, and the entry's value type.
    fn find_lent(
        &self,
        party: &Name,
        loan: Name,
        handle: Name,
    ) -> Result<Option<(Lent, TypeDetail)>, AllocError>
        ensures { IfOk result (λ found. found ≡ lent_found (standing_of self.now)
            (published_of self.now) party.now loan handle) }
    {
        let Some(thing) = self.held(ThingKind::WriteHandle, party, &loan) else {
            return Ok(None);
        };
        let Some(words) = self.loan_words(party, &loan) else {
            return Ok(None);
        };
        let Some(entry) = self.entry(&thing) else {
            return Ok(None);
        };
        let words = copied_words(self.alloc, words)?;
        Ok(Some((self.lent(&thing, entry, loan, handle, words), entry.value)))
    }

    fn find_discard(
        &self,
        party: &Name,
        loan: Name,
        handle: Name,
    ) -> Result<Option<Found>, AllocError>
        ensures { IfOk result (Finds self.now party.now (call.Discard loan handle)) }
    {
        match self.find_lent(party, loan, handle)? {
            Some((lent, _)) => Ok(Some(plain(BoardCall::Discard(lent)))),
            None => Ok(None),
        }
    }

    fn find_put(
        &self,
        party: &Name,
        loan: Name,
        index: u64,
        word: u64,
    ) -> Result<Option<Found>, AllocError>
        ensures { IfOk result (Finds self.now party.now (call.Put loan index word)) }
    {
        match self.find_lent(party, loan, loan)? {
            Some((lent, _)) => {
                let indexed = index < lent.shape.words;
                let mut found = plain(BoardCall::Put { lent, index, word });
                found.indexed = indexed;
                Ok(Some(found))
            }
            None => Ok(None),
        }
    }

    fn find_publish(
        &self,
        party: &Name,
        loan: Name,
        handle: Name,
    ) -> Result<Option<Found>, AllocError>
        ensures { IfOk result (Finds self.now party.now (call.Publish loan handle)) }
    {
        match self.find_lent(party, loan, handle)? {
            Some((lent, _)) => {
                let filled = all_put(lent.words.as_slice());
                let mut found = plain(BoardCall::Publish(lent));
                found.filled = filled;
                Ok(Some(found))
            }
            None => Ok(None),
        }
    }

    fn find_fill(
        &self,
        party: &Name,
        loan: Name,
        handle: Name,
        value: Value,
    ) -> Result<Option<Found>, AllocError>
        ensures { IfOk result (Finds self.now party.now (call.Fill loan handle value)) }
    {
        match self.find_lent(party, loan, handle)? {
            Some((lent, detail)) => {
                let words = Words::from_vec(value_words(self.alloc, value)?);
                let mut found = plain(BoardCall::Fill {
                    publishing: Publishing {
                        board: lent.board,
                        entry: lent.entry,
                        shape: lent.shape,
                        generation: lent.generation,
                        words,
                        written: 0,
                    },
                    loan: lent.loan,
                    handle: lent.handle,
                });
                found.typed = same_type(&value_detail(type_of(value)), &detail);
                Ok(Some(found))
            }
            None => Ok(None),
        }
    }

    fn find_keys(&self, party: &Name, factory: &Name) -> Option<Found>
        ensures { Finds self.now party.now (call.Keys factory.now) result }
    {
        let factory = self.held(ThingKind::Factory, party, factory)?;
        Some(on_table(TableCall::Keys { factory }))
    }

    fn find_nodes(&self, party: &Name, factory: &Name) -> Option<Found>
        ensures { Finds self.now party.now (call.Nodes factory.now) result }
    {
        let factory = self.held(ThingKind::Factory, party, factory)?;
        Some(on_table(TableCall::Nodes { factory }))
    }

    fn find_info(&self, party: &Name, factory: &Name) -> Option<Found>
        ensures { Finds self.now party.now (call.Info factory.now) result }
    {
        let factory = self.held(ThingKind::Factory, party, factory)?;
        Some(on_table(TableCall::Info { factory }))
    }

    fn find_id(&self, party: &Name, thing: &Name) -> Option<Found>
        ensures { Finds self.now party.now (call.Id thing.now) result }
    {
        let thing = self.identified(party, thing)?;
        Some(on_table(TableCall::Id { thing }))
    }

    fn find_gen(&self, party: &Name, handle: &Name) -> Option<Found>
        ensures { Finds self.now party.now (call.Gen handle.now) result }
    {
        let handle = self.write_handle(party, handle)?;
        Some(on_table(TableCall::Gen { handle }))
    }

    /// The call of a party with all that it uses, or nothing where something isn't held or is of another kind.
    ///
    /// # Errors
    /// `AllocError` where memory is refused.
    pub fn find(&self, party: &Name, call: &Call) -> Result<Option<Found>, AllocError>
        ensures { IfOk result (Finds self.now party.now call.now) }
    {
        match call {
            Call::Create {
                factory,
                name,
                key_type,
                limits,
                attributes,
                entries,
            } => self.find_create(
                party, *factory, name, *key_type, *limits, attributes, entries,
            ),
            Call::Open {
                factory,
                name,
                key_type,
                limits,
                needs,
            } => self.find_open(party, *factory, name, *key_type, *limits, needs),
            Call::Reader { reader, factory } => Ok(self.find_reader(party, *reader, factory)),
            Call::Writer { writer, factory } => Ok(self.find_writer(party, *writer, factory)),
            Call::Entry {
                handle,
                reader,
                key,
                value_type,
            } => Ok(self.find_entry(party, *handle, reader, *key, *value_type)),
            Call::EntryMut {
                handle,
                writer,
                key,
                value_type,
            } => Ok(self.find_entry_mut(party, *handle, writer, *key, *value_type)),
            Call::Get { handle, value } => Ok(self.find_get(party, handle, *value)),
            Call::Fresh { handle, value } => Ok(self.find_fresh(party, handle, value)),
            Call::Update { handle, value } => self.find_update(party, handle, *value),
            Call::Loan { loan, handle } => Ok(self.find_loan(party, *loan, *handle)),
            Call::Discard { loan, handle } => self.find_discard(party, *loan, *handle),
            Call::Put { loan, index, word } => self.find_put(party, *loan, *index, *word),
            Call::Publish { loan, handle } => self.find_publish(party, *loan, *handle),
            Call::Fill {
                loan,
                handle,
                value,
            } => self.find_fill(party, *loan, *handle, *value),
            Call::Keys { factory } => Ok(self.find_keys(party, factory)),
            Call::Nodes { factory } => Ok(self.find_nodes(party, factory)),
            Call::Info { factory } => Ok(self.find_info(party, factory)),
            Call::Id { thing } => Ok(self.find_id(party, thing)),
            Call::Gen { handle } => Ok(self.find_gen(party, handle)),
        }
    }
}
