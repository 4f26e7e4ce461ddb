//! Lines `begin P CALL`.
ghost use Rattle.std.specs.Prelude.{◌≡◌, ◌+◌, ◌<◌, ◌≤◌, ◌^◌, ◌||◌, true, Some, None, IfOk, OnErr, OnOk, find, is_some, not, option_map};
ghost use Rattle.board_layout.specs.Layout.{cell_shape};
ghost use Rattle.board_model.specs.Tables as tables;
ghost use Rattle.board_model.specs.TypeTable as types;
ghost use Rattle.board_model.specs.declared.answer.Reason.TheVariants as reason;
ghost use Rattle.board_model.specs.declared.line.Call.TheVariants as call;
ghost use Rattle.board_model.specs.declared.line.Line.TheVariants as line;
ghost use Rattle.script_parties.specs.Shown.{found_of};
ghost use Rattle.script_boards.specs.Machine.{IsLed, Serves, kept, tables_of};
ghost use Rattle.script_boards.specs.Begins.{Checks, HasGeneration, HasNoTask, IsFoundHandle, IsHandle, IsRequired, IsUsed, handle_held, has_id, holds, holds_any, thing_held, written_by};
ghost use Rattle.script_boards.specs.Loans.{lent_words};
ghost use Rattle.script_boards.specs.ShortBegins.{begun_unless};
ghost use Rattle.script_boards.specs.Wants.{MayWant};

use crate::machine::{BoardMachine, TableTask, Task};
use crate::not_begun::NotBegun;
use crate::value_update::ValueUpdate;
use board_model::{
    AddedEntries, Answer, Attributes, BoardName, Call, Key, KeyType, Kind, Limits, Name, Reason,
    Requirements, ThingKind, Value, ValueType, have_key_type, type_of,
};
use board_ports::{CellShape, ReadCore};
use board_service::{BoardWords, EntryRow, KeptType};
use script_parties::{FoundThing, Held};
use std::alloc::AllocError;

/// Nothing where it holds, else the refusal.
pub(crate) fn require(holds: bool, why: Reason) -> Result<(), Reason>
    ensures { IsRequired holds why result }
{
    if !holds {
        return Err(why);
    }
    Ok(())
}

// What a call uses, where it was found.
fn used(found: Option<Held>) -> Result<Held, Reason>
    ensures { IsUsed found result }
{
    found.ok_or(Reason::Unknown)
}

// Which of a script's value types a board keeps here.
fn value_type_of(kept: &KeptType) -> ValueType
    ensures { result ≡ types.value_type_of kept.now }
{
    if kept.is_of::<bool>() {
        ValueType::Bool
    } else if kept.is_of::<u64>() {
        ValueType::U64
    } else {
        ValueType::Q4
    }
}

// Whether an entry has values of this type.
#[inline(always)]
fn is_type_of(value_type: ValueType, entry: &EntryRow) -> bool
    ensures { result ≡ types.same_type (types.value_detail value_type) entry.now.value }
{
    match value_type {
        ValueType::Bool => entry.value.is_of::<bool>(),
        ValueType::U64 => entry.value.is_of::<u64>(),
        ValueType::Q4 => entry.value.is_of::<[u64; 4]>(),
    }
}

/// Whether a value is of an entry's type.
#[inline(always)]
pub(crate) fn is_value_of(value: Value, entry: &EntryRow) -> bool
    ensures { result ≡ types.same_type (types.value_detail (types.type_of value)) entry.now.value }
{
    is_type_of(type_of(value), entry)
}

// What a handle of an entry knows, but for what was written.
fn read_core(entry: &EntryRow) -> ReadCore
    ensures { result.shape ≡ cell_shape entry.now.cell }
{
    ReadCore {
        shape: entry.cell.shape(),
        entry_id: entry.cell.place,
    }
}

// Whether a thing of this kind has an id. A factory has none, nor has a loan.
fn has_id(kind: &Kind, is_lent: bool) -> bool
    ensures { result ≡ has_id kind.now is_lent }
{
    match kind {
        Kind::Factory => false,
        Kind::WriteHandle { entry: _, port: _ } => !is_lent,
        _ => true,
    }
}

impl<C: BoardWords + Drop> BoardMachine<C> {
    /// Whether the party has a thing or a value of this name.
    pub(crate) fn holds(&self, party: &Name, name: &Name) -> bool
        ensures { result ≡ holds self.now party.now name.now }
    {
        self.domain.holds(party, name) || self.value_of(party, name).is_some()
    }

    // The same, where there is a name.
    fn holds_any(&self, party: &Name, name: &Option<Name>) -> bool
        ensures { result ≡ holds_any self.now party.now name.now }
    {
        match name {
            Some(name) => self.holds(party, name),
            None => false,
        }
    }

    // Whether the party has a loan of this name.
    fn is_lent(&self, party: &Name, name: &Name) -> bool
        ensures { result ≡ is_some (lent_words self.now party.now name.now) }
    {
        self.words_lent(party, name).is_some()
    }

    /// The write handle that a party holds under a name, where it isn't lent.
    pub(crate) fn handle_held(&self, party: &Name, name: &Name) -> Option<Held>
        ensures { result ≡ handle_held self.now party.now name.now }
    {
        if self.is_lent(party, name) {
            return None;
        }
        self.domain
            .held_of_kind(ThingKind::WriteHandle, party, name)
    }

    // The same, without the names.
    #[inline(always)]
    fn handle_found(&self, party: &Name, name: &Name) -> Option<FoundThing>
        ensures { result ≡ option_map found_of (handle_held self.now party.now name.now) }
    {
        if self.is_lent(party, name) {
            return None;
        }
        self.domain
            .found_of_kind(ThingKind::WriteHandle, party, name)
    }

    /// The entry of a handle that a party holds.
    pub(crate) fn entry_held(&self, handle: &Held) -> &EntryRow
        requires led { IsLed self.now }
        requires held { IsHandle self.now handle.now }
        ensures { tables.entry_at (tables_of self.now) handle.now.board
            (tables.entry_of handle.now.kind) ≡ Some result.now }
    {
        self.entry_found(&FoundThing {
            board: handle.board,
            kind: handle.kind,
        })
    }

    // The same, where its names don't matter.
    #[inline(always)]
    fn entry_found(&self, handle: &FoundThing) -> &EntryRow
        requires led { IsLed self.now }
        requires held { IsFoundHandle self.now handle.now }
        ensures { tables.entry_at (tables_of self.now) handle.now.board
            (tables.entry_of handle.now.kind) ≡ Some result.now }
    {
        match self.domain.entry_at(handle.board, handle.kind.entry()) {
            Some(entry) => entry,
            // `IsLed` and `IsFoundHandle`: the entry of a handle stands.
            None => unreachable!(),
        }
    }

    // The thing of this kind that the party holds under the name.
    fn thing_used(&self, kind: ThingKind, party: &Name, name: &Name) -> Result<Held, Reason>
        ensures { IsUsed (thing_held self.now kind party.now name.now) result }
    {
        used(self.domain.held_of_kind(kind, party, name))
    }

    // The write handle that the party holds under the name, where it isn't lent.
    fn handle_used(&self, party: &Name, name: &Name) -> Result<Held, Reason>
        ensures { IsUsed (handle_held self.now party.now name.now) result }
    {
        self.handle_held(party, name).ok_or(Reason::Unknown)
    }

    /// That the party holds nothing under a name, which its call is to make.
    pub(crate) fn require_free(&self, party: &Name, name: &Name) -> Result<(), Reason>
        ensures { IsRequired (not (holds self.now party.now name.now)) reason.Taken result }
    {
        require(!self.holds(party, name), Reason::Taken)
    }

    #[inline(always)]
    fn check_get(&self, party: &Name, handle: &Name, value: Option<Name>) -> Result<Task, NotBegun>
        requires { IsLed self.now }
        ensures { Checks self.now party.now (call.Get handle.now value) result }
    {
        let Some(found) = self
            .domain
            .found_of_kind(ThingKind::ReadHandle, party, handle)
        else {
            return Err(NotBegun::Refused(Reason::Unknown));
        };
        let entry = self.entry_found(&found);
        require(!self.holds_any(party, &value), Reason::Taken)?;
        let core = read_core(entry);
        let buffer = Vec::from_elem(self.alloc, 0, core.shape.words as usize)?;
        Ok(Task::Get {
            board: found.board,
            call: core.get(buffer),
            value_type: value_type_of(&entry.value),
            value,
        })
    }

    fn check_fresh(&self, party: &Name, handle: &Name, value: &Name) -> Result<Task, NotBegun>
        requires { IsLed self.now }
        ensures { Checks self.now party.now (call.Fresh handle.now value.now) result }
    {
        let found = self.thing_used(ThingKind::ReadHandle, party, handle)?;
        let entry = self.entry_held(&found);
        let Some(kept) = self.value_of(party, value) else {
            return Err(NotBegun::Refused(Reason::Unknown));
        };
        require(is_type_of(kept.value_type, entry), Reason::Type)?;
        Ok(Task::Fresh {
            board: found.board,
            call: read_core(entry).fresh(kept.generation),
        })
    }

    // `found` is what the party holds under the handle's name.
    #[inline(always)]
    fn check_update(
        &self,
        party: &Name,
        handle: &Name,
        found: Option<Held>,
        value: Value,
        generation: u64,
    ) -> Result<Task, NotBegun>
        requires led { IsLed self.now }
        requires found { found ≡ handle_held self.now party.now handle.now }
        requires generation { HasGeneration self.now party.now (call.Update handle.now value)
            generation }
        ensures { Checks self.now party.now (call.Update handle.now value) result }
    {
        let found = used(found)?;
        let entry = self.entry_held(&found);
        require(is_value_of(value, entry), Reason::Type)?;
        Ok(Task::Update {
            board: found.board,
            call: ValueUpdate::new(entry.cell.shape(), generation, value),
        })
    }

    fn check_loan(&self, party: &Name, loan: Name, handle: Name) -> Result<Task, NotBegun>
        requires { IsLed self.now }
        ensures { Checks self.now party.now (call.Loan loan handle) result }
    {
        let found = self.handle_used(party, &handle)?;
        let entry = self.entry_held(&found);
        self.require_free(party, &loan)?;
        Ok(Task::Table(TableTask::Loan {
            handle,
            loan,
            words: entry.cell.words,
        }))
    }

    fn check_id(&self, party: &Name, name: &Name) -> Result<Task, NotBegun>
        ensures { Checks self.now party.now (call.Id name.now) result }
    {
        let Some(thing) = self.domain.thing_of(party, name) else {
            return Err(NotBegun::Refused(Reason::Unknown));
        };
        require(
            has_id(&thing.kind, self.is_lent(party, name)),
            Reason::Unknown,
        )?;
        Ok(Task::Table(TableTask::Id { thing }))
    }

    // The handle or the loan whose entry the call writes, where the party has it.
    fn written_by(&self, party: &Name, call: &Call) -> Option<Held>
        ensures { result ≡ written_by self.now party.now call.now }
    {
        match call {
            Call::Update { handle, value: _ } => self.handle_held(party, handle),
            Call::Put {
                loan,
                index: _,
                word: _,
            } => self.thing_of_loan(party, loan),
            Call::Publish { loan, handle: _ } => self.thing_of_loan(party, loan),
            Call::Fill {
                loan,
                handle: _,
                value: _,
            } => self.thing_of_loan(party, loan),
            _ => None,
        }
    }

    // The counter of the entry that the call writes. 0 where the party has no such handle or loan.
    pub(crate) fn generation_for(&mut self, party: &Name, call: &Call) -> u64
        requires { IsLed self.old }
        ensures generation { HasGeneration self.old party.now call.now result }
        ensures same { self.new ≡ self.old }
    {
        match self.written_by(party, call) {
            Some(found) => self.counter(found.board, found.kind.entry()),
            None => 0,
        }
    }

    // What the call has to do, where it may begin.
    pub(crate) fn check(&self, party: &Name, call: Call, generation: u64) -> Result<Task, NotBegun>
        requires led { IsLed self.now }
        requires free { HasNoTask self.now party.now }
        requires generation { HasGeneration self.now party.now call generation }
        ensures { Checks self.now party.now call result }
    {
        match call {
            Call::Create {
                factory,
                name,
                key_type,
                limits,
                attributes,
                entries,
            } => {
                self.require_free(party, &factory)?;
                require(have_key_type(key_type, entries.as_slice()), Reason::Type)?;
                Ok(Task::Table(TableTask::Create {
                    factory,
                    name,
                    key_type,
                    limits,
                    attributes,
                    entries,
                }))
            }
            Call::Open {
                factory,
                name,
                key_type,
                limits,
                needs,
            } => {
                self.require_free(party, &factory)?;
                Ok(Task::Table(TableTask::Open {
                    factory,
                    name,
                    key_type,
                    limits,
                    needs,
                }))
            }
            Call::Reader { reader, factory } => {
                let factory = self.thing_used(ThingKind::Factory, party, &factory)?;
                self.require_free(party, &reader)?;
                Ok(Task::Table(TableTask::Reader { reader, factory }))
            }
            Call::Writer { writer, factory } => {
                let factory = self.thing_used(ThingKind::Factory, party, &factory)?;
                self.require_free(party, &writer)?;
                Ok(Task::Table(TableTask::Writer { writer, factory }))
            }
            Call::Entry {
                handle,
                reader,
                key,
                value_type,
            } => {
                let reader = self.thing_used(ThingKind::Reader, party, &reader)?;
                self.require_free(party, &handle)?;
                require(self.domain.is_key_of(reader.board, &key), Reason::Type)?;
                Ok(Task::Table(TableTask::Entry {
                    handle,
                    reader,
                    key,
                    value_type,
                }))
            }
            Call::EntryMut {
                handle,
                writer,
                key,
                value_type,
            } => {
                let writer = self.thing_used(ThingKind::Writer, party, &writer)?;
                self.require_free(party, &handle)?;
                require(self.domain.is_key_of(writer.board, &key), Reason::Type)?;
                Ok(Task::Table(TableTask::EntryMut {
                    handle,
                    writer,
                    key,
                    value_type,
                }))
            }
            Call::Get { handle, value } => self.check_get(party, &handle, value),
            Call::Fresh { handle, value } => self.check_fresh(party, &handle, &value),
            Call::Update { handle, value } => {
                let found = self.handle_held(party, &handle);
                self.check_update(party, &handle, found, value, generation)
            }
            Call::Loan { loan, handle } => self.check_loan(party, loan, handle),
            Call::Discard { loan, handle } => self.check_discard(party, loan, handle),
            Call::Put { loan, index, word } => self.check_put(party, loan, index, word, generation),
            Call::Publish { loan, handle } => self.check_publish(party, loan, handle, generation),
            Call::Fill {
                loan,
                handle,
                value,
            } => self.check_fill(party, loan, handle, value, generation),
            Call::Keys { factory } => {
                let factory = self.thing_used(ThingKind::Factory, party, &factory)?;
                Ok(Task::Table(TableTask::Keys { factory }))
            }
            Call::Nodes { factory } => {
                let factory = self.thing_used(ThingKind::Factory, party, &factory)?;
                Ok(Task::Table(TableTask::Nodes { factory }))
            }
            Call::Info { factory } => {
                let factory = self.thing_used(ThingKind::Factory, party, &factory)?;
                Ok(Task::Table(TableTask::Info { factory }))
            }
            Call::Id { thing } => self.check_id(party, &thing),
            Call::Gen { handle } => {
                let handle = self.handle_used(party, &handle)?;
                Ok(Task::Table(TableTask::Gen { handle }))
            }
        }
    }

    // What a free party's call has to do is its task from now on, or the call is refused.
    #[inline(always)]
    fn begin_checked(
        &mut self,
        party: Name,
        checked: Result<Task, NotBegun>,
    ) -> Result<Option<Reason>, AllocError>
        requires { HasNoTask self.old party }
        ensures serves { IfOk result (λ why. (call : Call) → Checks self.old party call checked
            → Serves self.old self.new (line.Begin party call) (begun_unless why)) }
        ensures memory { OnErr result ((call : Call) → Checks self.old party call checked
            → MayWant self.old (line.Begin party call)) }
        ensures drawn { OnOk result (self.new.domain.drawn ≡ self.old.domain.drawn) }
    {
        match checked {
            Ok(task) => {
                self.parties.put(party, task)?;
                Ok(None)
            }
            Err(NotBegun::Refused(why)) => Ok(Some(why)),
            Err(NotBegun::OutOfMemory) => Err(AllocError),
        }
    }

    // A line `begin P CALL` of a free party.
    fn begin_free(&mut self, party: Name, call: Call) -> Result<Answer, AllocError>
        requires led { IsLed self.old }
        requires free { HasNoTask self.old party }
        ensures serves { IfOk result (λ a. Serves self.old self.new (line.Begin party call) a) }
        ensures memory { OnErr result (MayWant self.old (line.Begin party call)) }
        ensures drawn { OnOk result (self.new.domain.drawn ≤ self.old.domain.drawn + 1) }
    {
        let generation = self.generation_for(&party, &call);
        let checked = self.check(&party, call, generation);
        match self.begin_checked(party, checked)? {
            Some(why) => Ok(Answer::Refused(why)),
            None => Ok(Answer::Begun),
        }
    }

    // What an update has to do. The handle is looked for once, and so is its entry.
    #[inline(always)]
    fn start_update(&mut self, party: &Name, handle: &Name, value: Value) -> Result<Task, NotBegun>
        requires { IsLed self.old }
        ensures checks { Checks self.old party.now (call.Update handle.now value) result }
        ensures same { self.new ≡ self.old }
    {
        let Some(found) = self.handle_found(party, handle) else {
            return Err(NotBegun::Refused(Reason::Unknown));
        };
        let entry = self.entry_found(&found);
        require(is_value_of(value, entry), Reason::Type)?;
        let shape = entry.cell.shape();
        let generation = self.domain.load(found.board, shape.first);
        Ok(Task::Update {
            board: found.board,
            call: ValueUpdate::new(shape, generation, value),
        })
    }

    // A line `begin P update M VAL` of a free party.
    #[inline(always)]
    fn begin_free_update(
        &mut self,
        party: Name,
        handle: Name,
        value: Value,
    ) -> Result<Option<Reason>, AllocError>
        requires led { IsLed self.old }
        requires free { HasNoTask self.old party }
        ensures serves { IfOk result (λ why. Serves self.old self.new
            (line.Begin party (call.Update handle value)) (begun_unless why)) }
        ensures memory { OnErr result (MayWant self.old
            (line.Begin party (call.Update handle value))) }
        ensures drawn { OnOk result (self.new.domain.drawn ≤ self.old.domain.drawn + 1) }
    {
        let checked = self.start_update(&party, &handle, value);
        self.begin_checked(party, checked)
    }

    /// A line `begin P update M VAL`: why it is refused, if it is. Else the call has begun.
    ///
    /// # Errors
    /// `AllocError` where memory is refused, and the line isn't. Of the machine nothing is said then.
    pub fn begin_update(
        &mut self,
        party: Name,
        handle: Name,
        value: Value,
    ) -> Result<Option<Reason>, AllocError>
        requires { IsLed self.old }
        ensures serves { IfOk result (λ why. Serves self.old self.new
            (line.Begin party (call.Update handle value)) (begun_unless why)) }
        ensures memory { OnErr result (MayWant self.old
            (line.Begin party (call.Update handle value))) }
        ensures drawn { OnOk result (self.new.domain.drawn ≤ self.old.domain.drawn + 1) }
    {
        match self.refusal_of_party(&party) {
            Some(why) => Ok(Some(why)),
            None => self.begin_free_update(party, handle, value),
        }
    }

    // A line `begin P get H` of a free party.
    #[inline(always)]
    fn begin_free_get(&mut self, party: Name, handle: Name) -> Result<Option<Reason>, AllocError>
        requires led { IsLed self.old }
        requires free { HasNoTask self.old party }
        ensures serves { IfOk result (λ why. Serves self.old self.new
            (line.Begin party (call.Get handle None)) (begun_unless why)) }
        ensures memory { OnErr result (MayWant self.old (line.Begin party (call.Get handle None))) }
        ensures drawn { OnOk result (self.new.domain.drawn ≤ self.old.domain.drawn + 1) }
    {
        let checked = self.check_get(&party, &handle, None);
        self.begin_checked(party, checked)
    }

    /// A line `begin P get H`: why it is refused, if it is. Else the call has begun.
    ///
    /// # Errors
    /// `AllocError` where memory is refused, and the line isn't. Of the machine nothing is said then.
    pub fn begin_get(&mut self, party: Name, handle: Name) -> Result<Option<Reason>, AllocError>
        requires { IsLed self.old }
        ensures serves { IfOk result (λ why. Serves self.old self.new
            (line.Begin party (call.Get handle None)) (begun_unless why)) }
        ensures memory { OnErr result (MayWant self.old (line.Begin party (call.Get handle None))) }
        ensures drawn { OnOk result (self.new.domain.drawn ≤ self.old.domain.drawn + 1) }
    {
        match self.refusal_of_party(&party) {
            Some(why) => Ok(Some(why)),
            None => self.begin_free_get(party, handle),
        }
    }

    /// A line `begin P CALL`.
    ///
    /// # Errors
    /// `AllocError` where memory is refused, and the line isn't. Of the machine nothing is said then.
    pub fn begin(&mut self, party: Name, call: Call) -> Result<Answer, AllocError>
        requires { IsLed self.old }
        ensures serves { IfOk result (λ a. Serves self.old self.new (line.Begin party call) a) }
        ensures memory { OnErr result (MayWant self.old (line.Begin party call)) }
        ensures drawn { OnOk result (self.new.domain.drawn ≤ self.old.domain.drawn + 1) }
    {
        match self.refusal_of_party(&party) {
            Some(why) => Ok(Answer::Refused(why)),
            None => self.begin_free(party, call),
        }
    }
}
