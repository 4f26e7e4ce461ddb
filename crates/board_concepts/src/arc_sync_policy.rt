//! How a value is shared: behind a lock, or within one thread.
ghost use Rattle.std.specs.Prelude.{◌≡◌, IfOk, IsOkUnless};
ghost use Rattle.board_names.specs.declared.errors.service.ArcSyncPolicyCreationError.TheVariants.{InsufficientResources};
ghost use denote.Bor.{Bor};

use board_names::ArcSyncPolicyCreationError;
use std::alloc::Global;
use std::rc::Rc;
use std::sync::{Arc, Mutex, Wait};

/// A way to share a value.
pub trait ArcSyncPolicy<T>: Sized {
    // What is known of the value that is shared.
    ghost shows: { Self → T → Type 0 };

    /// A policy over a value.
    ///
    /// # Errors
    /// `InsufficientResources` where memory was refused.
    fn new(alloc: Global, value: T) -> Result<Self, ArcSyncPolicyCreationError>
        ensures value { IfOk result (λ policy. shows policy value) }
        ensures memory { IsOkUnless result InsufficientResources };

    /// What a closure answers on the value, which is locked for so long where the policy has a lock.
    fn with<W: Wait, R, F: FnOnce(&T) -> R>(&self, rt: &W, f: F) -> R
        requires { F.IsAlwaysCallable f }
        ensures { (x : Bor T) × shows self.now x.now × F.post f x result };

    /// One more owner of the value.
    ///
    /// # Errors
    /// `InsufficientResources` where memory was refused.
    fn share(&self) -> Result<Self, ArcSyncPolicyCreationError>
        ensures value { IfOk result (λ policy. (x : T) → shows self.now x → shows policy x) }
        ensures memory { IsOkUnless result InsufficientResources };
}

/// A value behind a lock. What it is at a call is known by its type alone.
#[derive(Drop)]
pub struct MutexProtected<T> {
    value: Arc<Mutex<T>, Global>,
}

impl<T: Drop> ArcSyncPolicy<T> for MutexProtected<T> {
    ghost shows = { λ p v. Unit {0} };

    fn new(alloc: Global, value: T) -> Result<Self, ArcSyncPolicyCreationError> {
        match Arc::new(alloc, Mutex::new(value)) {
            Ok(value) => Ok(MutexProtected { value }),
            Err(_) => Err(ArcSyncPolicyCreationError::InsufficientResources),
        }
    }

    fn with<W: Wait, R, F: FnOnce(&T) -> R>(&self, rt: &W, f: F) -> R {
        let guard = self.value.lock(rt);
        f(&guard)
    }

    fn share(&self) -> Result<Self, ArcSyncPolicyCreationError> {
        match Arc::try_clone(&self.value) {
            Ok(value) => Ok(MutexProtected { value }),
            Err(_) => Err(ArcSyncPolicyCreationError::InsufficientResources),
        }
    }
}

/// A value of one thread. It is the value that was given.
#[derive(Drop)]
pub struct SingleThreaded<T> {
    value: Rc<T, Global>,
}

impl<T: Drop> ArcSyncPolicy<T> for SingleThreaded<T> {
    ghost shows = { λ p v. p.value.value ≡ v };

    fn new(alloc: Global, value: T) -> Result<Self, ArcSyncPolicyCreationError> {
        match Rc::new(alloc, value) {
            Ok(value) => Ok(SingleThreaded { value }),
            Err(_) => Err(ArcSyncPolicyCreationError::InsufficientResources),
        }
    }

    fn with<W: Wait, R, F: FnOnce(&T) -> R>(&self, rt: &W, f: F) -> R {
        let _ = rt;
        f(&self.value)
    }

    fn share(&self) -> Result<Self, ArcSyncPolicyCreationError> {
        match self.value.clone() {
            Ok(value) => Ok(SingleThreaded { value }),
            Err(_) => Err(ArcSyncPolicyCreationError::InsufficientResources),
        }
    }
}
