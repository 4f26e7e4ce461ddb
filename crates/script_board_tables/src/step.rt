//! The next access of a call.
ghost use Rattle.std.specs.Prelude.{◌≡◌, ◌<◌, ◌≤◌, IfOk, OnOk, Some, false, length, map, slice_set, true};
ghost use Rattle.board_model.specs.Memory.{IsStanding, after_access};
ghost use Rattle.board_model.specs.Replies as replies;
ghost use Rattle.board_model.specs.Requests as requests;
ghost use Rattle.board_model.specs.Requests.{Request};
ghost use Rattle.board_model.specs.TypeTable as types;
ghost use Rattle.script_board_tables.specs.Calls.{IsGet};
ghost use Rattle.script_board_tables.specs.Steps.{Asks, CanLook, CanPublish, CanPut, CanRaise, CanRead, CanStep, Steps, WritesNext};
ghost use Rattle.script_board_tables.specs.Tables.{Has, memory_of, published_of, standing_of};
ghost use Rattle.script_board_tables.specs.declared.calls.BoardCall.TheVariants as call;

use crate::calls::{BoardCall, Fetch, Lent, Look, Publishing};
use crate::tables::{BoardTables, KeptValue, LoanWords};
use board_cell_model::Access;
use board_model::{Name, Reply, Words};
use script_board_rows::{Reading, heard, spare_at, word_to_read, word_to_write};
use std::alloc::{AllocError, Global};

/// What a step of a call came to: its access, and the call where it goes on, or else what it is told.
#[derive(Drop)]
pub enum Stepped {
    /// The call goes on.
    GoesOn {
        /// The access that was made.
        access: Access,
        /// The call after it.
        call: BoardCall,
    },
    /// The call has ended.
    Ends {
        /// The access that was made.
        access: Access,
        /// What the call is told.
        reply: Reply,
    },
}

// A loan of which no word was put.
fn none_put(alloc: Global, words: u64) -> Result<LoanWords, AllocError>
    ensures { IfOk result (λ list. list ≡ replies.none_put words) }
{
    Ok(LoanWords::from_vec(Vec::from_elem(alloc, None, words as usize)?))
}

// The words of a loan as they are published.
fn words_put(alloc: Global, words: &[Option<u64>]) -> Result<Words, AllocError>
    ensures { IfOk result (λ list. list ≡ map replies.word_put words.now) }
{
    let list = words.iter().map(|word| word.unwrap_or(0)).collect(alloc)?;
    Ok(Words::from_vec(list))
}

// The words with one more put.
fn with_put(
    alloc: Global,
    words: &LoanWords,
    index: u64,
    word: u64,
) -> Result<LoanWords, AllocError>
    ensures { IfOk result (λ list. list ≡ slice_set words.now index (Some word)) }
{
    let mut list = Vec::from_slice(alloc, words.as_slice())?;
    if index < list.len() as u64 {
        list[index as usize] = Some(word);
    }
    Ok(LoanWords::from_vec(list))
}

// Whether a word of the publication is still to be written, before its counter.
fn is_unwritten(publishing: &Publishing) -> bool
    ensures some { result ≡ true → publishing.now.written < length publishing.now.words }
    ensures none { result ≡ false → length publishing.now.words ≤ publishing.now.written }
{
    publishing.written < publishing.words.as_slice().len()
}

impl BoardTables {
    // The last value of an entry.
    fn latest(&self, board: u64, entry: u64) -> Result<Words, AllocError>
        ensures { IfOk result (λ words. words
            ≡ replies.latest (published_of self.now board entry)) }
    {
        if let Some(row) = self.rows.get(&board) {
            if let Some(list) = row.published.get(entry as usize) {
                if let Some(words) = list.last() {
                    return Ok(Words::from_vec(Vec::from_slice(self.alloc, words.as_slice())?));
                }
            }
        }
        Ok(Words::from_vec(Vec::new(self.alloc)))
    }

    // The value that a get reads is kept under its name, if it has one.
    fn keep_fetched(&mut self, party: &Name, fetch: &Fetch) -> Result<(), AllocError>
        ensures { OnOk result ((f : requests.Fetch) → fetch.now.value_type ≡ types.value_type_of f.type
            → Has self.new
            (replies.with_fetched (standing_of self.old) party.now f
            (replies.latest (published_of self.old fetch.now.board fetch.now.entry))
            (length (published_of self.old fetch.now.board fetch.now.entry)) fetch.now.value)
            (memory_of self.old) (published_of self.old)) }
    {
        let Some(name) = fetch.value else {
            return Ok(());
        };
        let words = self.latest(fetch.board, fetch.entry)?;
        let value = KeptValue {
            value_type: fetch.value_type,
            words,
            generation: self.generation(fetch.board, fetch.entry),
        };
        self.keep(party, name, value)?;
        Ok(())
    }

    // The value that a get tells, kept under its name if it has one.
    fn fetched(&mut self, party: &Name, fetch: &Fetch) -> Result<Reply, AllocError>
        ensures { IfOk result (λ told. (q : Request) → IsGet fetch.now q
            → Asks self.old self.new party.now q told) }
    {
        self.keep_fetched(party, fetch)?;
        let words = self.latest(fetch.board, fetch.entry)?;
        let generation = self.generation(fetch.board, fetch.entry);
        Ok(Reply::Got {
            value_type: fetch.value_type,
            words,
            generation,
        })
    }

    fn step_get(
        &mut self,
        party: &Name,
        fetch: Fetch,
        reading: Reading,
    ) -> Result<Stepped, AllocError>
        requires { CanRead self.old fetch reading }
        ensures { IfOk result (Steps self.old self.new party.now
            (call.Get fetch reading)) }
    {
        let word = word_to_read(&fetch.shape, reading);
        let value = self.read(fetch.board, word);
        let access = Access::Read {
            board: fetch.board,
            word,
            value,
        };
        match heard(&fetch.shape, reading, value) {
            Some(reading) => Ok(Stepped::GoesOn {
                access,
                call: BoardCall::Get { fetch, reading },
            }),
            None => {
                let reply = self.fetched(party, &fetch)?;
                Ok(Stepped::Ends { access, reply })
            }
        }
    }

    fn step_fresh(&mut self, party: &Name, look: &Look) -> Stepped
        requires { CanLook self.old look.now }
        ensures { Steps self.old self.new party.now (call.Fresh look.now) result }
    {
        let word = look.shape.first;
        let value = self.read(look.board, word);
        Stepped::Ends {
            access: Access::Read {
                board: look.board,
                word,
                value,
            },
            reply: Reply::Fresh(look.generation == self.generation(look.board, look.entry)),
        }
    }

    // Writes the next word of a publication, and gives the access.
    fn write_next(&mut self, publishing: &Publishing) -> Access
        requires { CanPublish self.old publishing.now }
        ensures access { WritesNext publishing.now result }
        ensures stands { IsStanding (memory_of self.old) result }
        ensures has { Has self.new (standing_of self.old)
            (after_access (memory_of self.old) result) (published_of self.old) }
    {
        let written = word_to_write(
            &publishing.shape,
            publishing.generation,
            publishing.words.as_slice(),
            publishing.written,
        );
        self.write(publishing.board, written.word, written.value);
        Access::Write {
            board: publishing.board,
            word: written.word,
            value: written.value,
        }
    }

    fn step_update(
        &mut self,
        party: &Name,
        mut publishing: Publishing,
    ) -> Result<Stepped, AllocError>
        requires { CanPublish self.old publishing }
        ensures { IfOk result (Steps self.old self.new party.now (call.Update publishing)) }
    {
        let access = self.write_next(&publishing);
        if is_unwritten(&publishing) {
            publishing.written += 1;
            return Ok(Stepped::GoesOn {
                access,
                call: BoardCall::Update(publishing),
            });
        }
        self.publish(publishing.board, publishing.entry, publishing.words)?;
        Ok(Stepped::Ends {
            access,
            reply: Reply::Done,
        })
    }

    fn step_fill(
        &mut self,
        party: &Name,
        mut publishing: Publishing,
        loan: Name,
        handle: Name,
    ) -> Result<Stepped, AllocError>
        requires { CanPublish self.old publishing }
        ensures { IfOk result (Steps self.old self.new party.now
            (call.Fill publishing loan handle)) }
    {
        let access = self.write_next(&publishing);
        if is_unwritten(&publishing) {
            publishing.written += 1;
            return Ok(Stepped::GoesOn {
                access,
                call: BoardCall::Fill {
                    publishing,
                    loan,
                    handle,
                },
            });
        }
        self.publish(publishing.board, publishing.entry, publishing.words)?;
        self.give_back(party, &loan, &handle)?;
        Ok(Stepped::Ends {
            access,
            reply: Reply::Done,
        })
    }

    fn step_put(
        &mut self,
        party: &Name,
        lent: &Lent,
        index: u64,
        word: u64,
    ) -> Result<Stepped, AllocError>
        requires { CanPut self.old lent.now index }
        ensures { IfOk result (Steps self.old self.new party.now
            (call.Put lent.now index word)) }
    {
        let place = spare_at(&lent.shape, lent.generation) + index;
        self.write(lent.board, place, word);
        let words = with_put(self.alloc, &lent.words, index, word)?;
        self.set_words(party, &lent.loan, words)?;
        Ok(Stepped::Ends {
            access: Access::Write {
                board: lent.board,
                word: place,
                value: word,
            },
            reply: Reply::Done,
        })
    }

    fn step_publish(&mut self, party: &Name, lent: &Lent) -> Result<Stepped, AllocError>
        requires { CanRaise self.old lent.now }
        ensures { IfOk result (Steps self.old self.new party.now (call.Publish lent.now)) }
    {
        let words = words_put(self.alloc, lent.words.as_slice())?;
        let value = lent.generation + 1;
        self.write(lent.board, lent.shape.first, value);
        self.publish(lent.board, lent.entry, words)?;
        self.give_back(party, &lent.loan, &lent.handle)?;
        Ok(Stepped::Ends {
            access: Access::Write {
                board: lent.board,
                word: lent.shape.first,
                value,
            },
            reply: Reply::Done,
        })
    }

    fn step_loan(&mut self, party: &Name, lent: &Lent) -> Result<Stepped, AllocError>
        ensures { IfOk result (Steps self.old self.new party.now (call.Loan lent.now)) }
    {
        let words = none_put(self.alloc, lent.shape.words)?;
        self.lend(party, &lent.handle, &lent.loan, words)?;
        Ok(Stepped::Ends {
            access: Access::Table,
            reply: Reply::Done,
        })
    }

    fn step_discard(&mut self, party: &Name, lent: &Lent) -> Result<Stepped, AllocError>
        ensures { IfOk result (Steps self.old self.new party.now (call.Discard lent.now)) }
    {
        self.give_back(party, &lent.loan, &lent.handle)?;
        Ok(Stepped::Ends {
            access: Access::Table,
            reply: Reply::Done,
        })
    }

    /// Makes the next access of a party's call.
    ///
    /// # Errors
    /// `AllocError` where memory is refused; the tables are of no use then.
    pub fn step(&mut self, party: &Name, call: BoardCall) -> Result<Stepped, AllocError>
        requires { CanStep self.old call }
        ensures { IfOk result (Steps self.old self.new party.now call) }
    {
        match call {
            BoardCall::Table(call) => {
                let reply = self.ask(party, call)?;
                Ok(Stepped::Ends {
                    access: Access::Table,
                    reply,
                })
            }
            BoardCall::Loan(lent) => self.step_loan(party, &lent),
            BoardCall::Discard(lent) => self.step_discard(party, &lent),
            BoardCall::Get { fetch, reading } => self.step_get(party, fetch, reading),
            BoardCall::Fresh(look) => Ok(self.step_fresh(party, &look)),
            BoardCall::Update(publishing) => self.step_update(party, publishing),
            BoardCall::Put { lent, index, word } => self.step_put(party, &lent, index, word),
            BoardCall::Publish(lent) => self.step_publish(party, &lent),
            BoardCall::Fill {
                publishing,
                loan,
                handle,
            } => self.step_fill(party, publishing, loan, handle),
        }
    }
}
