//! What a service is, as it is told to those who open it.
ghost use Rattle.std.specs.Prelude.{◌≡◌};

use crate::attribute_set::AttributeSet;
use board_layout::TypeDetail;
use board_names::ServiceName;

/// A service, as it is described to those who open it.
#[derive(Drop, Debug)]
pub struct Description {
    /// The version of this form. New boards have version 2.
    pub version: u32,
    /// The name of the service.
    pub name: ServiceName,
    /// The type of its keys.
    pub key: TypeDetail,
    /// How many readers it may have.
    pub max_readers: u64,
    /// How many nodes it may have.
    pub max_nodes: u64,
    /// How many writers it may have. Version 1 doesn't spell it, and there it is 1.
    pub max_writers: u64,
    /// Its attributes.
    pub attributes: AttributeSet,
}

impl Description {
    /// The same description in version 2, with all else as it was.
    pub fn upgraded(self) -> Description
        ensures { result ≡ record self { version = 2 } }
    {
        Description {
            version: 2,
            name: self.name,
            key: self.key,
            max_readers: self.max_readers,
            max_nodes: self.max_nodes,
            max_writers: self.max_writers,
            attributes: self.attributes,
        }
    }
}
