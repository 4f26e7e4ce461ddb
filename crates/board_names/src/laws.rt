//! What the calls of this crate do together.
ghost use Rattle.std.specs.Prelude.{◌≡◌, ℕ, List, Some};

use crate::configuration::{Configuration, NamedConceptConfiguration};
use crate::file_name::FileName;

/// Spells a full name and reads it: the name comes back.
pub fn path_and_back(config: &Configuration, name: &FileName) -> Option<FileName>
    ensures { result ≡ Some name.now }
{
    let _rule = name.as_bytes();
    let path = config.path_for(name);
    config.extract_name_from_path(&path)
}
