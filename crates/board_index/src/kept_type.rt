//! A type, as it was told, by as many bytes as its name has.
ghost use Rattle.std.specs.Prelude.{◌≡◌, IfOk};
ghost use Rattle.board_layout.specs.Bytes.{details};
ghost use Rattle.board_model.specs.TypeTable as types;

use board_layout::{TypeDetail, TypeName, TypeVariant, ZeroCopySend};
use board_model::same_variant;
use std::alloc::{AllocError, Global};
use std::marker::Model;

/// A type on the heap, by as many bytes as its name has: a `TypeDetail` has room for 256. Contracts see the type's details.
#[derive(Drop, Debug)]
pub struct KeptType {
    variant: TypeVariant,
    name: Vec<u8>,
    size: usize,
    alignment: usize,
}

impl Model for KeptType {
    ghost use Rattle.board_layout.specs.Types.{IsTypeName};
    ghost use Rattle.board_layout.specs.declared.type_detail.TypeDetail.{TypeDetail};

    ghost Value = { TypeDetail };

    ghost view = { λ t. record {
      variant = t.variant;
      type_name = t.name.items;
      size = t.size;
      alignment = t.alignment;
    } };

    ghost invariant = { λ t. IsTypeName t.name.items };
}

impl KeptType {
    /// This type.
    ///
    /// # Errors
    /// `AllocError` where memory is refused.
    pub fn of(alloc: Global, detail: &TypeDetail) -> Result<KeptType, AllocError>
        ensures { IfOk result (λ kept. kept ≡ detail.now) }
    {
        Ok(KeptType {
            variant: detail.variant,
            name: Vec::from_slice(alloc, detail.type_name.as_bytes())?,
            size: detail.size,
            alignment: detail.alignment,
        })
    }

    /// The type's details.
    pub fn detail(&self) -> TypeDetail
        ensures { result ≡ self.now }
    {
        let Some(type_name) = TypeName::new(self.name.as_slice()) else {
            // A type's name is kept.
            unreachable!()
        };
        TypeDetail {
            variant: self.variant,
            type_name,
            size: self.size,
            alignment: self.alignment,
        }
    }

    /// Whether these are the details of the type.
    pub fn is(&self, detail: &TypeDetail) -> bool
        ensures { result ≡ types.same_type self.now detail.now }
    {
        same_variant(self.variant, detail.variant)
            && self.name.as_slice() == detail.type_name.as_bytes()
            && self.size == detail.size
            && self.alignment == detail.alignment
    }

    /// Whether it is the type `T`, of fixed size.
    pub fn is_of<T: ZeroCopySend>(&self) -> bool
        ensures { result ≡ types.same_type self.now (details T.type_bytes T.SIZE T.ALIGNMENT) }
    {
        same_variant(self.variant, TypeVariant::FixedSize)
            && self.name.as_slice() == T::name_text().as_bytes()
            && self.size == T::SIZE
            && self.alignment == T::ALIGNMENT
    }
}
