//! A proved blackboard for threads of one process: all that a program needs, by one crate.
//!
//! The modules are named as in iceoryx2 0.9.3, where the same things stand. `prelude` has what most programs name:
//!
//! ```text
//! use gullinsu::prelude::{Domain, Node, NodeName, ServiceName, Shared};
//!
//! let domain = Domain::new(alloc)?;
//! let node = Node::new(rt, &domain, NodeName::new("car")?)?;
//! let creator = node.service_builder(&ServiceName::new("telemetry")?)?.blackboard_creator::<u64, Shared>(alloc);
//! let factory = creator.add(1, 0u64)?.create(rt)?;
//! let writer = factory.writer_builder()?.create(rt)?;
//! let mut speed = writer.entry::<u64, _>(rt, &1)?;
//! // A publication asks for room for one more generation.
//! if speed.generation() < u64::MAX {
//!     speed.update_with_copy(7);
//! }
//! ```
#![tactic(auto)]

/// What most programs name.
pub mod prelude {
    pub use board_concepts::{AttributeSpecifier, AttributeVerifier, Shared, Single};
    pub use board_domain::{CallbackProgression, MessagingPattern, Node};
    pub use board_event::{BitEvent, QueueEvent, TriggerId};
    pub use board_handles::Domain;
    pub use board_layout::{BoardKey, ZeroCopySend};
    pub use board_names::{EventId, FileName, NodeName, ServiceName};
}

/// Nodes, and the domain that they share.
pub mod node {
    pub use board_domain::Node;
    pub use board_handles::{BoardCells, Domain, DomainState};
    pub use board_names::DomainError;
    pub use board_service::NodeId;

    /// The names of nodes.
    pub mod node_name {
        pub use board_names::NodeName;
    }
}

/// The numbers of ports.
pub mod identifiers {
    pub use board_handles::{UniqueReaderId, UniqueWriterId};
}

/// Ports of a board, and the handles that they make.
pub mod port {
    /// The ids of entries.
    pub mod event_id {
        pub use board_names::EventId;
    }

    /// Readers and read handles.
    pub mod reader {
        pub use board_cell::GetAgain;
        pub use board_handles::{BlackboardValue, EntryHandle, ReadEnd, Reader};
        pub use board_names::{EntryHandleError, ReaderCreateError};
    }

    /// Writers, write handles and loans.
    pub mod writer {
        pub use board_cell::Receipt;
        pub use board_handles::{EntryHandleMut, EntryValueUninit, SentReceipt, WriteEnd, Writer};
        pub use board_names::{EntryHandleMutError, WriterCreateError};
    }
}

/// Boards: how they are made and opened, and what is told of them.
pub mod service {
    /// The names of boards.
    pub mod service_name {
        pub use board_names::ServiceName;
    }

    /// What kind of service a board is.
    pub mod messaging_pattern {
        pub use board_domain::MessagingPattern;
    }

    /// The attributes of a board, and what an opener needs of them.
    pub mod attribute {
        pub use board_concepts::{AttributeSet, AttributeSpecifier, AttributeVerifier};
        pub use board_names::AttributeError;
    }

    /// What makes and opens boards.
    pub mod builder {
        pub use board_domain::ServiceBuilder;

        /// What makes and opens a board with keys of one type.
        pub mod blackboard {
            pub use board_domain::{AddError, Creator, Opener};
            pub use board_layout::{KeyMemory, KeyMemoryError};
            pub use board_names::{BlackboardCreateError, BlackboardOpenError};
        }
    }

    /// What makes the ports of a board.
    pub mod port_factory {
        /// Factories, which a creator or an opener gives.
        pub mod blackboard {
            pub use board_domain::PortFactory;
        }

        /// What makes a reader.
        pub mod reader {
            pub use board_handles::PortFactoryReader;
        }

        /// What makes a writer.
        pub mod writer {
            pub use board_handles::PortFactoryWriter;
        }
    }

    /// What is fixed of a board.
    pub mod static_config {
        /// What is told of the types of its keys and values.
        pub mod message_type_details {
            pub use board_layout::{TypeDetail, TypeVariant};
        }

        /// The type of its keys, its limits, and its entries, each with the type of its values.
        pub mod blackboard {
            pub use board_service::{EntryRow as Entry, KeptType, StaticConfig};
        }
    }

    /// What is taken of a board.
    pub mod dynamic_config {
        /// How many readers, writer slots and nodes.
        pub mod blackboard {
            pub use board_service::DynamicConfig;
        }
    }
}

/// Events: a notifier hands ids to a listener, as the id of an entry that changed.
pub mod event {
    pub use board_event::event::{
        Event, Listener, ListenerBuilder, Local, Notifier, NotifierBuilder,
    };
    pub use board_event::{
        BitEvent, BitRegistry, DEFAULT_TRIGGER_ID_MAX, EventListener, EventListenerBuilder,
        EventNotifier, EventNotifierBuilder, EventRegistry, EventsOf, KindOfEvents,
        ListenerCreateError, ListenerWaitError, LocalEvent, NotifierCreateError,
        NotifierNotifyError, QUEUE_CAPACITY, QueueEvent, QueueOfIds, QueueRegistry, SetOfIds,
        TriggerId,
    };
    pub use board_names::{
        Configuration, FileName, NamedConcept, NamedConceptBuilder, NamedConceptConfiguration,
        NamedConceptDoesExistError, NamedConceptListError, NamedConceptMgmt,
        NamedConceptRemoveError, Path, RegistryError, SemanticStringError,
    };
}

/// Laws of typed ports: a call of one does nothing, and its contract is a theorem over what the lent forms say.
pub mod laws {
    pub use board_domain::nodes_are_told;
    pub use board_typed::{
        calls_keep_order, calls_keep_others, handles_share_the_cell, keys_are_short,
        ports_are_known, typed_calls_alone,
    };
}

// A value between threads without keys; policies, static storage, monitoring and channels; events as plain data, with
// their calls as step machines; types as words and keys; names, and the errors of all calls; the tables of boards as plain
// data, the calls on their entries as step machines, and whole calls for a thread that has them alone.
pub use board_cell as cell;
pub use board_concepts as concepts;
pub use board_event as events;
pub use board_layout as layout;
pub use board_names as names;
pub use board_ports as ports;
pub use board_seats as seats;
pub use board_service as tables;

#[cfg(test)]
mod tests;
