//! Round trips of ids, and ids that were sent back, counted where that is done.
ghost use Rattle.std.specs.Prelude.{◌≡◌, ◌+◌, ◌-◌, ◌^◌, ◌<◌, OnOk, OnErr};

use anyhow::{Result, bail};
use board_event::{EventListener, EventNotifier, KindOfEvents, Listener, Notifier, TriggerId};
use std::marker::{Model, PhantomData};
use std::sync::Wait;

/// An id that was sent and came back, as what is counted.
#[derive(Clone, Copy, Debug, PartialEq, Eq)]
pub struct Round;

/// An id that came and was sent back, as what is counted.
#[derive(Clone, Copy, Debug, PartialEq, Eq)]
pub struct Echo;

/// How many rounds were made, or echoes, over events of the kind `K`.
///
/// They begin at none, and one call alone adds one: `make` to rounds, `send_back` to echoes, each over ends of this kind.
/// No other module can set the number.
#[derive(Drop)]
pub struct Count<K, What> {
    number: u64,
    of: PhantomData<(K, What)>,
}

/// How many ids were sent and came back.
pub type Rounds<K> = Count<K, Round>;

/// How many ids came and were sent back.
pub type Echoes<K> = Count<K, Echo>;

impl<K, What> Model for Count<K, What> {
    ghost use Rattle.std.specs.Prelude.{ℕ};

    ghost Value = { ℕ };

    ghost view = { λ c. c.number };
}

impl<K, What> Count<K, What> {
    /// None were made.
    pub(crate) fn none() -> Count<K, What>
        ensures { result ≡ 0 }
    {
        Count {
            number: 0,
            of: PhantomData,
        }
    }

    /// How many were made.
    pub fn number(&self) -> u64
        ensures { result ≡ self.now }
    {
        self.number
    }
}

impl<K: KindOfEvents + Drop> Count<K, Round> {
    /// One more: sends the id there, and waits until it came back.
    ///
    /// # Errors
    /// Where the notify is refused, or what comes back is no id, or another.
    pub(crate) fn make<R: Wait>(
        &mut self,
        rt: &R,
        there: &EventNotifier<K>,
        back: &EventListener<K>,
        id: TriggerId,
    ) -> Result<()>
        requires { self.old < 2 ^ 64 - 1 }
        ensures ok { OnOk result (self.new ≡ self.old + 1) }
        ensures err { OnErr result (self.new ≡ self.old) }
    {
        there.notify(rt, id)?;
        match back.blocking_wait_one(rt)? {
            Some(came) => {
                if came != id {
                    bail!("another id came back");
                }
            }
            None => bail!("no id came back"),
        }
        self.number += 1;
        Ok(())
    }
}

impl<K: KindOfEvents + Drop> Count<K, Echo> {
    /// One more: waits for an id, and sends it back.
    ///
    /// # Errors
    /// Where what comes is no id, or the notify is refused.
    pub(crate) fn send_back<R: Wait>(
        &mut self,
        rt: &R,
        there: &EventListener<K>,
        back: &EventNotifier<K>,
    ) -> Result<()>
        requires { self.old < 2 ^ 64 - 1 }
        ensures ok { OnOk result (self.new ≡ self.old + 1) }
        ensures err { OnErr result (self.new ≡ self.old) }
    {
        match there.blocking_wait_one(rt)? {
            Some(id) => back.notify(rt, id)?,
            None => bail!("no id came"),
        }
        self.number += 1;
        Ok(())
    }
}
