//! Calls on the tables: what they are told, and what they leave.
ghost use Rattle.std.specs.Prelude.{◌≡◌, ◌<◌, ◌++◌, ◌∷◌, [], None, find, if◌then◌else◌, IfOk, OnOk, Some, ℕ, nat_eq, nat_le, option_map};
ghost use Rattle.std.specs.HashMap.{get};
ghost use Rattle.board_model.specs.Memory.{with_board};
ghost use Rattle.board_model.specs.declared.tables.Kind.TheVariants as kind;
ghost use Rattle.std.specs.Str.{bytes_eq};
ghost use Rattle.board_model.specs.Replies as replies;
ghost use Rattle.board_model.specs.Requests as requests;
ghost use Rattle.board_model.specs.TableCalls as calls;
ghost use Rattle.board_model.specs.Tables as model;
ghost use Rattle.board_model.specs.TypeTable as types;
ghost use Rattle.script_board_tables.specs.Calls.{IsEntryFound, place_and_id, table_in};
ghost use Rattle.script_board_tables.specs.Steps.{Asks, CanAsk};
ghost use Rattle.script_board_tables.specs.NewBoards.{board_of};
ghost use Rattle.script_board_tables.specs.Tables.{Has, memory_of, published_of, standing_of, tables_of, with_lists};

use crate::calls::TableCall;
use crate::tables::{BoardRow, BoardTables};
use board_layout::Text;
use board_model::{
    AddedEntry, Attributes, Board, Entries, Entry, Info, Key, KeyType, Keys, Kind, Limits,
    LongName, Name, NewLimits, Reply, Requirements, ValueType, Words, key_detail, key_type_of,
    same_type, value_detail,
};
use board_names::{
    BlackboardCreateError, BlackboardOpenError, EntryHandleError, EntryHandleMutError,
    ReaderCreateError, WriterCreateError,
};
use script_board_rows::{find, has_equal_keys, meets, open};
use script_things::{Held, NamedThings, info_of, keys_of};
use std::alloc::AllocError;
use std::collections::HashMap;

// The limit that was asked for, raised to 1, or a default.
fn limit_of(default: u64, asked: Option<u64>) -> u64
    ensures { result ≡ model.limit_of default asked }
{
    match asked {
        Some(n) => n.max(1),
        None => default,
    }
}

fn asks_above(asked: Option<u64>, limit: u64) -> bool
    ensures { result ≡ calls.asks_above asked limit }
{
    match asked {
        Some(n) => limit < n,
        None => false,
    }
}

// The number of a board that was found; 0 where none was.
fn number_of(board: Option<&Board>) -> u64
    ensures { result ≡ calls.number_of (option_map (λ b. b.now) board.entry) }
{
    match board {
        Some(board) => board.number,
        None => 0,
    }
}

// Why a board isn't opened for a party.
fn open_refusal(
    party: &Name,
    board: Option<&Board>,
    key_type: KeyType,
    limits: Limits,
    needs: &Requirements,
    things: &NamedThings,
) -> Option<BlackboardOpenError>
    ensures { result ≡ calls.first_of (calls.open_refusals bytes_eq things.now party.now
        (option_map (λ b. b.now) board.entry) (types.key_detail key_type) limits needs.now) }
{
    let Some(board) = board else {
        return Some(BlackboardOpenError::DoesNotExist);
    };
    if !same_type(&board.key, &key_detail(key_type)) {
        return Some(BlackboardOpenError::IncompatibleKeys);
    }
    if !meets(needs, board.attributes.as_slice()) {
        return Some(BlackboardOpenError::IncompatibleAttributes);
    }
    if asks_above(limits.max_readers, board.max_readers) {
        return Some(BlackboardOpenError::DoesNotSupportRequestedAmountOfReaders);
    }
    if asks_above(limits.max_nodes, board.max_nodes) {
        return Some(BlackboardOpenError::DoesNotSupportRequestedAmountOfNodes);
    }
    if !things.is_node(board.number, party) && board.max_nodes <= things.nodes_taken(board.number) {
        return Some(BlackboardOpenError::ExceedsMaxNumberOfNodes);
    }
    None
}

// A new board, with its limits settled.
fn board_of(
    number: u64,
    name: &Text<255>,
    key_type: KeyType,
    limits: NewLimits,
    attributes: Attributes,
    entries: Vec<Entry>,
) -> Board
    ensures { result ≡ board_of number name.now (types.key_detail key_type) limits attributes
        entries.items }
{
    Board {
        number,
        name: *name,
        key: key_detail(key_type),
        max_readers: limit_of(8, limits.shared.max_readers),
        max_nodes: limit_of(20, limits.shared.max_nodes),
        max_writers: limit_of(1, limits.max_writers),
        attributes,
        entries: Entries::from_vec(entries),
    }
}

// The row is that of the number.
fn put_row(rows: &mut HashMap<u64, BoardRow>, number: u64, row: BoardRow) -> Result<(), AllocError>
    ensures { OnOk result ((n : ℕ) → get nat_eq rows.new n
        ≡ (if nat_eq number n then Some row else get nat_eq rows.old n)) }
{
    let _ = rows.insert(number, row)?;
    Ok(())
}

impl BoardTables {
    // A new board with its first factory, its words, and what is published of it at first.
    fn make_board(
        &mut self,
        party: &Name,
        factory: Name,
        board: Board,
        words: Vec<u64>,
        published: Vec<Vec<Words>>,
    ) -> Result<(), AllocError>
        requires above { (tables_of self.old).last_board < board.number }
        requires free { find (model.has_name board.name) (tables_of self.old).boards ≡ None }
        ensures { OnOk result (Has self.new
            (record (standing_of self.old) {
              tables = calls.with_thing
                  (record (tables_of self.old) {
                    boards = (tables_of self.old).boards ++ board ∷ [];
                    last_board = board.number;
                  })
                  (record {
                    holder = party.now;
                    name = factory;
                    board = board.number;
                    kind = kind.Factory;
                  });
            })
            (with_board (memory_of self.old) board.number words.items)
            (with_lists (published_of self.old) board.number published.items)) }
    {
        let number = board.number;
        put_row(&mut self.rows, number, BoardRow { words, published })?;
        self.boards.push(board)?;
        self.things.push(Held {
            holder: *party,
            name: factory,
            board: number,
            kind: Kind::Factory,
        })?;
        Ok(())
    }

    fn create(
        &mut self,
        party: &Name,
        factory: Name,
        name: &Text<255>,
        key_type: KeyType,
        limits: NewLimits,
        attributes: Attributes,
        entries: &[AddedEntry],
    ) -> Result<Reply, AllocError>
        requires { CanAsk self.old }
        ensures { IfOk result (Asks self.old self.new party.now (requests.table
            (requests.create factory name.now key_type limits attributes entries.now))) }
    {
        if self.boards.named(name).is_some() {
            return Ok(Reply::CreateError(BlackboardCreateError::AlreadyExists));
        }
        if entries.is_empty() {
            return Ok(Reply::CreateError(BlackboardCreateError::NoEntriesProvided));
        }
        if has_equal_keys(key_type, entries) {
            return Ok(Reply::CreateError(BlackboardCreateError::ServiceInCorruptedState));
        }
        let laid = open(self.alloc, entries)?;
        match laid {
            None => Ok(Reply::CreateError(BlackboardCreateError::ServiceInCorruptedState)),
            Some(opening) => {
                let number = self.boards.last() + 1;
                let board = board_of(number, name, key_type, limits, attributes, opening.entries);
                self.make_board(party, factory, board, opening.words, opening.published)?;
                Ok(Reply::Number(number))
            }
        }
    }

    // The thing stands behind the others.
    fn hold(&mut self, thing: Held) -> Result<(), AllocError>
        ensures { OnOk result (Has self.new
            (record (standing_of self.old) { tables = calls.with_thing (tables_of self.old) thing })
            (memory_of self.old) (published_of self.old)) }
    {
        self.things.push(thing)?;
        Ok(())
    }

    fn open_board(
        &mut self,
        party: &Name,
        factory: Name,
        name: &Text<255>,
        key_type: KeyType,
        limits: Limits,
        needs: &Requirements,
    ) -> Result<Reply, AllocError>
        ensures { IfOk result (Asks self.old self.new party.now (requests.table
            (requests.open_ factory name.now key_type limits needs.now))) }
    {
        let found = self.boards.named(name);
        let number = number_of(found);
        match open_refusal(party, found, key_type, limits, needs, &self.things) {
            Some(error) => Ok(Reply::OpenError(error)),
            None => {
                self.hold(Held {
                    holder: *party,
                    name: factory,
                    board: number,
                    kind: Kind::Factory,
                })?;
                Ok(Reply::Number(number))
            }
        }
    }

    // Whether all reader slots of the board are taken.
    fn has_all_readers(&self, number: u64) -> bool
        ensures { result ≡ model.holds_at (model.board_at (tables_of self.now) number)
            (λ b. nat_le b.max_readers (model.reader_slots b.number (tables_of self.now).things)) }
    {
        match self.board(number) {
            Some(board) => board.max_readers <= self.things.reader_slots(board.number),
            None => false,
        }
    }

    // Whether all writer slots of the board are taken.
    fn has_all_writers(&self, number: u64) -> bool
        ensures { result ≡ model.holds_at (model.board_at (tables_of self.now) number)
            (λ b. nat_le b.max_writers (model.writer_slots b.number (tables_of self.now).things)) }
    {
        match self.board(number) {
            Some(board) => board.max_writers <= self.things.writer_slots(board.number),
            None => false,
        }
    }

    // A port of the factory's holder, with the next number.
    fn make_port(
        &mut self,
        name: Name,
        factory: &Held,
        kind: Kind,
        port: u64,
    ) -> Result<(), AllocError>
        ensures { OnOk result (Has self.new
            (record (standing_of self.old) {
              tables = calls.with_thing
                  (record (tables_of self.old) { last_port = port })
                  (record {
                    holder = factory.now.holder;
                    name = name;
                    board = factory.now.board;
                    kind = kind;
                  });
            })
            (memory_of self.old) (published_of self.old)) }
    {
        self.hold(Held {
            holder: factory.holder,
            name,
            board: factory.board,
            kind,
        })?;
        self.last_port = port;
        Ok(())
    }

    fn make_reader(&mut self, party: &Name, name: Name, factory: &Held) -> Result<Reply, AllocError>
        requires { CanAsk self.old }
        ensures { IfOk result (Asks self.old self.new party.now (requests.table
            (requests.reader name factory.now))) }
    {
        if self.has_all_readers(factory.board) {
            return Ok(Reply::ReaderError(ReaderCreateError::ExceedsMaxSupportedReaders));
        }
        let port = self.last_port + 1;
        self.make_port(name, factory, Kind::Reader { port }, port)?;
        Ok(Reply::Number(port))
    }

    fn make_writer(&mut self, party: &Name, name: Name, factory: &Held) -> Result<Reply, AllocError>
        requires { CanAsk self.old }
        ensures { IfOk result (Asks self.old self.new party.now (requests.table
            (requests.writer name factory.now))) }
    {
        if self.has_all_writers(factory.board) {
            return Ok(Reply::WriterError(WriterCreateError::ExceedsMaxSupportedWriters));
        }
        let port = self.last_port + 1;
        self.make_port(name, factory, Kind::Writer { port }, port)?;
        Ok(Reply::Number(port))
    }

    // The place and the id of the entry of a board with a key and a value type.
    fn entry_found(&self, number: u64, key: &Key, value_type: ValueType) -> Option<(u64, u64)>
        ensures { result ≡ option_map place_and_id (model.entry_found
            (model.board_at (tables_of self.now) number) (replies.keeps_key key.now)
            (types.value_detail value_type)) }
    {
        let board = self.board(number)?;
        let entries = board.entries.as_slice();
        let place = find(key, &value_detail(value_type), entries)?;
        let entry = entries.get(place)?;
        Some((place as u64, entry.cell.place))
    }

    fn make_entry(
        &mut self,
        party: &Name,
        name: Name,
        reader: &Held,
        key: &Key,
        value_type: ValueType,
    ) -> Result<Reply, AllocError>
        ensures { IfOk result (Asks self.old self.new party.now (requests.table
            (requests.entry name reader.now key.now value_type))) }
    {
        match self.entry_found(reader.board, key, value_type) {
            None => Ok(Reply::EntryError(EntryHandleError::EntryDoesNotExist)),
            Some(found) => {
                self.hold(Held {
                    holder: reader.holder,
                    name,
                    board: reader.board,
                    kind: Kind::ReadHandle { entry: found.0 },
                })?;
                Ok(Reply::Number(found.1))
            }
        }
    }

    fn make_entry_mut(
        &mut self,
        party: &Name,
        name: Name,
        writer: &Held,
        key: &Key,
        value_type: ValueType,
    ) -> Result<Reply, AllocError>
        ensures { IfOk result (Asks self.old self.new party.now (requests.table
            (requests.entry_mut name writer.now key.now value_type))) }
    {
        match self.entry_found(writer.board, key, value_type) {
            None => Ok(Reply::EntryMutError(EntryHandleMutError::EntryDoesNotExist)),
            Some(found) => self.make_write_handle(party, name, writer, key, value_type, found),
        }
    }

    // A write handle of the entry that was found, unless it has one.
    fn make_write_handle(
        &mut self,
        party: &Name,
        name: Name,
        writer: &Held,
        key: &Key,
        value_type: ValueType,
        found: (u64, u64),
    ) -> Result<Reply, AllocError>
        requires { IsEntryFound self.old writer.now.board key.now value_type found }
        ensures { IfOk result (Asks self.old self.new party.now (requests.table
            (requests.entry_mut name writer.now key.now value_type))) }
    {
        if self.things.has_write_handle(writer.board, found.0) {
            return Ok(Reply::EntryMutError(EntryHandleMutError::HandleAlreadyExists));
        }
        self.hold(Held {
            holder: writer.holder,
            name,
            board: writer.board,
            kind: Kind::WriteHandle {
                entry: found.0,
                port: writer.kind.port(),
            },
        })?;
        Ok(Reply::Number(found.1))
    }

    // The keys of a board.
    fn keys(&self, number: u64) -> Result<Keys, AllocError>
        requires { CanAsk self.now }
        ensures { IfOk result (λ keys. keys
            ≡ replies.keys_in (model.board_at (tables_of self.now) number)) }
    {
        match self.board(number) {
            Some(board) => {
                let key_type = key_type_of(&board.key);
                let keys = keys_of(self.alloc, key_type, board.entries.as_slice())?;
                Ok(keys)
            }
            None => Ok(Keys::from_vec(Vec::new(self.alloc))),
        }
    }

    // What is told of a board.
    fn info(&self, number: u64) -> Result<Info, AllocError>
        ensures { IfOk result (λ info. info ≡ replies.info_of self.now.things
            (model.board_at (tables_of self.now) number)) }
    {
        if let Some(board) = self.board(number) {
            return info_of(self.alloc, board, &self.things);
        }
        let name = LongName::new(self.alloc, Text::of(b""))?;
        Ok(Info {
            name,
            key_type: KeyType::U64,
            max_readers: 0,
            max_nodes: 0,
            max_writers: 0,
            entries: 0,
            attributes: 0,
            readers: 0,
            writers: 0,
            nodes: 0,
        })
    }

    // The port number of a reader or writer, the entry id of a handle.
    fn id(&self, thing: &Held) -> u64
        ensures { result ≡ replies.id_number (standing_of self.now) thing.now thing.now.kind }
    {
        match thing.kind {
            Kind::Reader { port } => port,
            Kind::Writer { port } => port,
            _ => match self.entry(thing) {
                Some(entry) => entry.cell.place,
                None => 0,
            },
        }
    }

    // Makes the call, and gives what it is told.
    pub(crate) fn ask(&mut self, party: &Name, call: TableCall) -> Result<Reply, AllocError>
        requires { CanAsk self.old }
        ensures { IfOk result (Asks self.old self.new party.now
            (requests.table (table_in call))) }
    {
        match call {
            TableCall::Create {
                factory,
                name,
                key_type,
                limits,
                attributes,
                entries,
            } => self.create(
                party,
                factory,
                name.as_text(),
                key_type,
                limits,
                attributes,
                entries.as_slice(),
            ),
            TableCall::Open {
                factory,
                name,
                key_type,
                limits,
                needs,
            } => self.open_board(party, factory, name.as_text(), key_type, limits, &needs),
            TableCall::Reader { reader, factory } => self.make_reader(party, reader, &factory),
            TableCall::Writer { writer, factory } => self.make_writer(party, writer, &factory),
            TableCall::Entry {
                handle,
                reader,
                key,
                value_type,
            } => self.make_entry(party, handle, &reader, &key, value_type),
            TableCall::EntryMut {
                handle,
                writer,
                key,
                value_type,
            } => self.make_entry_mut(party, handle, &writer, &key, value_type),
            TableCall::Keys { factory } => Ok(Reply::Keys(self.keys(factory.board)?)),
            TableCall::Nodes { factory } => {
                let nodes = self.things.nodes_at(self.alloc, factory.board)?;
                Ok(Reply::Nodes(nodes))
            }
            TableCall::Info { factory } => Ok(Reply::Info(self.info(factory.board)?)),
            TableCall::Id { thing } => Ok(Reply::Id(self.id(&thing))),
            TableCall::Gen { handle } => Ok(Reply::Generation(self.generation(
                handle.board,
                handle.kind.entry(),
            ))),
        }
    }
}
