//! How the names of one kind of things are spelled as files.
ghost use Rattle.std.specs.Prelude.{◌≡◌, ◌≢◌, ℕ, ◌+◌, ◌-◌, ◌<◌, ◌≤◌, List, [], ◌∷◌, ◌++◌, length, Some, None, IfSome, IfNone, codes};
ghost use Rattle.board_names.specs.Configuration.{full_name, file_name, started};
ghost use Rattle.board_names.specs.Extraction.{IsSpelled, IsEach};

use crate::file_name::FileName;
use crate::file_path::FilePath;
use crate::path::Path;
use board_layout::Text;

/// The parts that are put round a name: `path_hint`, a slash, `prefix`, the name, `suffix`.
#[derive(Clone, Copy, Debug, PartialEq, Eq)]
pub struct Configuration {
    /// What stands before the name.
    pub prefix: FileName,
    /// What stands behind the name. It tells the kind of things.
    pub suffix: FileName,
    /// The folder in which the files would lie.
    pub path_hint: Path,
}

impl Configuration {
    /// The prefix `iox2_`, the path hint `/tmp/iceoryx2` and this suffix.
    pub fn with_suffix(suffix: &FileName) -> Configuration
        ensures { result ≡ started suffix.now }
    {
        Configuration {
            prefix: FileName::from_valid(b"iox2_"),
            suffix: *suffix,
            path_hint: Path::from_valid(b"/tmp/iceoryx2"),
        }
    }

    fn name_in(&self, value: &[u8]) -> Option<FileName>
        ensures found { IfSome result (IsSpelled (file_name self.now) value.now) }
        ensures every { IsEach (file_name self.now) value.now result }
    {
        let rest = after(value, self.prefix.as_bytes())?;
        let name = before(rest, self.suffix.as_bytes())?;
        FileName::new(name).ok()
    }

    /// The name that this full name is of.
    pub(crate) fn name_in_path(&self, value: &[u8]) -> Option<FileName>
        ensures found { IfSome result (IsSpelled (full_name self.now) value.now) }
        ensures every { IsEach (full_name self.now) value.now result }
    {
        let rest = after(value, self.path_hint.as_bytes())?;
        let file = after(rest, b"/")?;
        self.name_in(file)
    }
}

/// The parts of a configuration, the full names that it spells, and the names that it reads back.
pub trait NamedConceptConfiguration: Sized {
    ghost use Rattle.board_names.specs.declared.configuration.Configuration.{Configuration};

    ghost parts: { Self → Configuration };

    /// The configuration with this prefix.
    fn prefix(self, value: &FileName) -> Self
        ensures { parts result ≡ record (parts self) { prefix = value.now } };

    /// The configuration with this suffix.
    fn suffix(self, value: &FileName) -> Self
        ensures { parts result ≡ record (parts self) { suffix = value.now } };

    /// The configuration with this path hint.
    fn path_hint(self, value: &Path) -> Self
        ensures { parts result ≡ record (parts self) { path_hint = value.now } };

    /// The prefix.
    fn get_prefix(&self) -> &FileName
        ensures { result.now ≡ (parts self.now).prefix };

    /// The suffix.
    fn get_suffix(&self) -> &FileName
        ensures { result.now ≡ (parts self.now).suffix };

    /// The path hint.
    fn get_path_hint(&self) -> &Path
        ensures { result.now ≡ (parts self.now).path_hint };

    /// The full name of `value`: path hint, slash, prefix, `value`, suffix.
    fn path_for(&self, value: &FileName) -> FilePath
        ensures { result ≡ full_name (parts self.now) value.now };

    /// The name that `value` is the full name of.
    fn extract_name_from_path(&self, value: &FilePath) -> Option<FileName>
        ensures found { IfSome result (IsSpelled (full_name (parts self.now)) value.now) }
        ensures every { IsEach (full_name (parts self.now)) value.now result };

    /// The name that `value` has between the prefix and the suffix.
    fn extract_name_from_file(&self, value: &FileName) -> Option<FileName>
        ensures found { IfSome result (IsSpelled (file_name (parts self.now)) value.now) }
        ensures every { IsEach (file_name (parts self.now)) value.now result };
}

impl NamedConceptConfiguration for Configuration {
    ghost parts = { λ c. c };

    fn prefix(mut self, value: &FileName) -> Configuration {
        self.prefix = *value;
        self
    }

    fn suffix(mut self, value: &FileName) -> Configuration {
        self.suffix = *value;
        self
    }

    fn path_hint(mut self, value: &Path) -> Configuration {
        self.path_hint = *value;
        self
    }

    fn get_prefix(&self) -> &FileName {
        &self.prefix
    }

    fn get_suffix(&self) -> &FileName {
        &self.suffix
    }

    fn get_path_hint(&self) -> &Path {
        &self.path_hint
    }

    fn path_for(&self, value: &FileName) -> FilePath {
        let mut text = Text::of(self.path_hint.as_bytes());
        text.push(b"/");
        text.push(self.prefix.as_bytes());
        text.push(value.as_bytes());
        text.push(self.suffix.as_bytes());
        FilePath::from_text(text)
    }

    fn extract_name_from_path(&self, value: &FilePath) -> Option<FileName> {
        self.name_in_path(value.as_bytes())
    }

    fn extract_name_from_file(&self, value: &FileName) -> Option<FileName> {
        self.name_in(value.as_bytes())
    }
}

/// What stands behind `front` in `value`, where it begins so.
fn after<'a>(value: &'a [u8], front: &[u8]) -> Option<&'a [u8]>
    ensures found { IfSome result (λ r. value.now ≡ front.now ++ r.now) }
    ensures none { IfNone result ((r : List ℕ) → value.now ≢ front.now ++ r) }
{
    if value.len() < front.len() {
        return None;
    }
    let (head, rest) = value.split_at(front.len());
    if head == front { Some(rest) } else { None }
}

/// What stands before `back` in `value`, where it ends so.
fn before<'a>(value: &'a [u8], back: &[u8]) -> Option<&'a [u8]>
    ensures found { IfSome result (λ r. value.now ≡ r.now ++ back.now) }
    ensures none { IfNone result ((r : List ℕ) → value.now ≢ r ++ back.now) }
{
    if value.len() < back.len() {
        return None;
    }
    let (rest, tail) = value.split_at(value.len() - back.len());
    if tail == back { Some(rest) } else { None }
}
