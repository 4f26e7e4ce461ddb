//! A type, as it is told to others.
ghost use Rattle.std.specs.Prelude.{◌≡◌};
ghost use Rattle.board_layout.specs.Bytes.{detail_of};

use crate::type_name::TypeName;
use crate::zero_copy_send::ZeroCopySend;

/// Whether values of a type have one size.
#[derive(Clone, Copy, Debug, PartialEq, Eq)]
pub enum TypeVariant {
    /// They do.
    FixedSize,
    /// A value is any number of elements of this type.
    Dynamic,
}

/// A type, as it is told to others. Two are equal where all four fields are.
#[derive(Clone, Copy, Debug, PartialEq, Eq)]
pub struct TypeDetail {
    /// Whether its values have one size.
    pub variant: TypeVariant,
    /// Its name.
    pub type_name: TypeName,
    /// The bytes of a value, or of an element.
    pub size: usize,
    /// The alignment of a value, in bytes.
    pub alignment: usize,
}

impl TypeDetail {
    /// The details of a type.
    pub fn new<T: ZeroCopySend>(variant: TypeVariant) -> TypeDetail
        ensures { result ≡ detail_of variant T.type_bytes T.SIZE T.ALIGNMENT }
    {
        TypeDetail {
            variant,
            type_name: TypeName::of(T::name_text().as_bytes()),
            size: T::SIZE,
            alignment: T::ALIGNMENT,
        }
    }
}
