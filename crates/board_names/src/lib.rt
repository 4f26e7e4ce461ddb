//! The names that things carry, how they are spelled, the tables and registries that hold them, the traits that all named
//! things share, and the errors of every layer.
//!
//! Errors stand here, below the definitions, since the definitions answer with these very enums (`errors/`, a file a
//! subject). A file name is spelled from a name by a `Configuration`, and a name is read back from it:
//!
//! ```text
//! let config = Configuration::with_suffix(&FileName::new(b".event")?);
//! let path = config.path_for(&FileName::new(b"door")?);           // /tmp/iceoryx2/iox2_door.event
//! assert_eq!(config.extract_name_from_path(&path), Some(door));
//! ```
//!
//! What stands under such names is a `NameTable`: pairs of a full name and a value (`specs/Table`). A `Registry` shares it
//! behind a lock. `NamedConceptMgmt` has the calls on all names of a table, once for all concepts.
#![tactic(auto)]

mod base64url;
mod byte_rules;
mod configuration;
mod constants;
mod errors;
mod file_name;
mod file_path;
mod kept_path;
mod laws;
mod name_place;
mod name_table;
mod named_concept;
mod node_name;
mod path;
mod registry;
mod service_name;
mod table;
mod trigger_id;

pub use base64url::Base64Url;
pub use configuration::{Configuration, NamedConceptConfiguration};
pub use constants::{
    MAX_ATTRIBUTE_KEY_LENGTH, MAX_ATTRIBUTE_VALUE_LENGTH, MAX_ATTRIBUTES, MAX_NODE_NAME_LENGTH,
    MAX_SERVICE_NAME_LENGTH,
};
pub use errors::boards::{
    BlackboardCreateError, BlackboardOpenError, EntryHandleError, EntryHandleMutError,
    ReaderCreateError, WriterCreateError,
};
pub use errors::communication_channel::{
    CommunicationChannelCreateError, CommunicationChannelOpenError,
    CommunicationChannelReceiveError, CommunicationChannelSendError,
};
pub use errors::concept::{
    NamedConceptDoesExistError, NamedConceptListError, NamedConceptPathHintRemoveError,
    NamedConceptRemoveError, RegistryError, SemanticStringError,
};
pub use errors::event::{
    ListenerCreateError, ListenerWaitError, NotifierCreateError, NotifierNotifyError,
};
pub use errors::monitoring::{
    MonitoringCreateCleanerError, MonitoringCreateMonitorError, MonitoringCreateTokenError,
    MonitoringStateError,
};
pub use errors::service::{
    ArcSyncPolicyCreationError, AttributeError, DeserializeError, DomainError, SerializeError,
};
pub use errors::static_storage::{
    StaticStorageCreateError, StaticStorageOpenError, StaticStorageReadError,
    StaticStorageUnlockError,
};
pub use file_name::FileName;
pub use file_path::FilePath;
pub use kept_path::KeptPath;
pub use laws::path_and_back;
pub use name_place::{NamePlace, NameRequest};
pub use name_table::NameTable;
pub use named_concept::{NamedConcept, NamedConceptBuilder, NamedConceptMgmt};
pub use node_name::NodeName;
pub use path::Path;
pub use registry::Registry;
pub use service_name::ServiceName;
pub use table::{Table, list_names};
pub use trigger_id::{EventId, TriggerId};
