//! Files that are written once, as static storage needs them.
ghost use Rattle.std.specs.Prelude.{◌≡◌, ℕ, Option, length};
ghost use Rattle.board_files.specs.Files.{Told, Counts, Creates, Writes, Finalizes, LooksAt, Measures, ReadsFile, Removes, TellsName, CountsCall, CountsWrite};

use board_names::FilePath;
use thiserror::Error;

/// Why a call on files gave nothing.
#[derive(Clone, Copy, Debug, PartialEq, Eq, Hash, Error)]
#[error("FilesError::{:?}", self)]
pub enum FilesError {
    /// The files could not be had, or the name isn't held by one. The fault is counted.
    Failed,
    /// Memory was refused.
    OutOfMemory,
}

/// Files by their full names, which are made, written, made final, and removed.
///
/// Contracts see what is `told` of the files, where something is known of them: the held files and what was held after
/// each change so far, their moments. And they see the `counts` of calls, of faults and of short writes, which never fall.
/// A call that answers an error leaves the files as they were.
pub trait Files {
    ghost told: { Self → Option Told };

    ghost counts: { Self → Counts };

    /// Makes an empty file that isn't final, and tells whether it did: `false` where the name is held.
    ///
    /// # Errors
    /// `Failed` where the count of faults rose; `OutOfMemory`.
    fn create_exclusive(&mut self, name: &FilePath) -> Result<bool, FilesError>
        ensures files { Creates name.now (told self.old) (told self.new) result }
        ensures counts { CountsCall (counts self.old) (counts self.new) result };

    /// Adds a front of `bytes` at the end of a file, and tells its length. It is shorter than `bytes` only where the count
    /// of short writes rose.
    ///
    /// # Errors
    /// `Failed` where the count of faults rose, and always where the name isn't held; `OutOfMemory`.
    fn write(&mut self, name: &FilePath, bytes: &[u8]) -> Result<usize, FilesError>
        ensures files { Writes name.now bytes.now (told self.old) (told self.new) result }
        ensures counts { CountsWrite (length bytes.now)
            (counts self.old) (counts self.new) result };

    /// Makes a file final.
    ///
    /// # Errors
    /// `Failed` where the count of faults rose, and always where the name isn't held; `OutOfMemory`.
    fn set_final(&mut self, name: &FilePath) -> Result<(), FilesError>
        ensures files { Finalizes name.now (told self.old) (told self.new) result }
        ensures counts { CountsCall (counts self.old) (counts self.new) result };

    /// Whether a file is final; `None` where the name isn't held.
    ///
    /// # Errors
    /// `Failed` where the count of faults rose; `OutOfMemory`.
    fn is_final(&mut self, name: &FilePath) -> Result<Option<bool>, FilesError>
        ensures files { LooksAt name.now (told self.old) (told self.new) result }
        ensures counts { CountsCall (counts self.old) (counts self.new) result };

    /// How many bytes a file has.
    ///
    /// # Errors
    /// `Failed` where the count of faults rose, and always where the name isn't held; `OutOfMemory`.
    fn size(&mut self, name: &FilePath) -> Result<u64, FilesError>
        ensures files { Measures name.now (told self.old) (told self.new) result }
        ensures counts { CountsCall (counts self.old) (counts self.new) result };

    /// Fills the front of `buffer` with the first bytes of a file, as many as the shorter of the two has, and tells how many.
    ///
    /// # Errors
    /// `Failed` where the count of faults rose, and always where the name isn't held; `OutOfMemory`. The buffer then holds
    /// any bytes.
    fn read(&mut self, name: &FilePath, buffer: &mut [u8]) -> Result<usize, FilesError>
        ensures files { ReadsFile name.now buffer.old buffer.new
            (told self.old) (told self.new) result }
        ensures counts { CountsCall (counts self.old) (counts self.new) result };

    /// Removes a file, and tells whether the name was held.
    ///
    /// # Errors
    /// `Failed` where the count of faults rose; `OutOfMemory`.
    fn remove(&mut self, name: &FilePath) -> Result<bool, FilesError>
        ensures files { Removes name.now (told self.old) (told self.new) result }
        ensures counts { CountsCall (counts self.old) (counts self.new) result };

    /// The held name at an index, counted from 0 in the order of the names; `None` past the end. The names ascend by their
    /// bytes, and are fewer than 2^63.
    ///
    /// # Errors
    /// `Failed` where the count of faults rose; `OutOfMemory`.
    fn name_at(&mut self, index: usize) -> Result<Option<FilePath>, FilesError>
        ensures files { TellsName index (told self.old) (told self.new) result }
        ensures counts { CountsCall (counts self.old) (counts self.new) result };
}
