//! The words of the command line.
ghost use Rattle.std.specs.Prelude.{◌≡◌, [], ◌∷◌, drop, map, IfErr, IfOk, IsErr};
ghost use Rattle.std.specs.IoError.{error_kind};
ghost use Rattle.std.specs.declared.io.ErrorKind.TheVariants.{OutOfMemory};
ghost use Rattle.std.specs.String.{string_bytes};
ghost use Rattle.std.specs.Vec.Iter.{into_iter_items};

use std::alloc::{AllocError, Global};
use std::env::Args;
use std::{env, io};

// The words of what the process was given: all but the first, which is the program's name. Where one isn't text, one
// empty word stands for all of them, which no program takes.
fn words_of(alloc: Global, given: io::Result<Args>) -> Result<Vec<String>, AllocError>
    ensures words { IfOk given (λ args. IfOk result (λ words. words.items ≡ drop 1 (into_iter_items args))) }
    ensures not_text { IfErr given (λ _. IfOk result (λ words. map string_bytes words.items ≡ [] ∷ [])) }
    ensures memory { IfErr given (λ error. error_kind error ≡ OutOfMemory → IsErr result) }
{
    match given {
        Ok(args) => {
            let mut words = args;
            let _program = words.next();
            words.collect(alloc)
        }
        Err(error) => {
            if error.kind() == io::ErrorKind::OutOfMemory {
                return Err(AllocError);
            }
            let mut words = Vec::new(alloc);
            words.push(String::new(alloc))?;
            Ok(words)
        }
    }
}

/// The words of the process's command line, without the program's name. One that isn't text makes all of them one empty
/// word, which no program takes.
///
/// # Errors
///
/// Memory was refused.
pub fn words(rt: &HostRuntime) -> Result<Vec<String>, AllocError> {
    words_of(rt.alloc(), env::args(rt))
}
