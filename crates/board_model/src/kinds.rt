//! What is told of kinds.
ghost use Rattle.std.specs.Prelude.{◌≡◌, ◌==◌, ℕ};
ghost use Rattle.board_model.specs.Tables as tables;

use crate::tables::{Kind, ThingKind};

impl Kind {
    /// Whether it is of this kind.
    pub fn is(&self, kind: ThingKind) -> bool
        ensures { result ≡ tables.same_kind (tables.kind_of self.now) kind }
    {
        match (self, kind) {
            (Kind::Factory, ThingKind::Factory) => true,
            (Kind::Reader { port: _ }, ThingKind::Reader) => true,
            (Kind::Writer { port: _ }, ThingKind::Writer) => true,
            (Kind::ReadHandle { entry: _ }, ThingKind::ReadHandle) => true,
            (Kind::WriteHandle { entry: _, port: _ }, ThingKind::WriteHandle) => true,
            _ => false,
        }
    }

    /// Whether it is a reader, which takes one of its board's slots for readers.
    pub fn is_reader(&self) -> bool
        ensures { result ≡ tables.is_reader self.now }
    {
        match self {
            Kind::Reader { port: _ } => true,
            _ => false,
        }
    }

    /// The place of a handle's entry among those of its board; 0 of what is no handle.
    pub fn entry(&self) -> u64
        ensures { result ≡ tables.entry_of self.now }
    {
        match self {
            Kind::Factory => 0,
            Kind::Reader { port: _ } => 0,
            Kind::Writer { port: _ } => 0,
            Kind::ReadHandle { entry } => *entry,
            Kind::WriteHandle { entry, port: _ } => *entry,
        }
    }

    /// The number of a reader's, a writer's or a write handle's port; 0 of what has none.
    pub fn port(&self) -> u64
        ensures { result ≡ tables.port_of self.now }
    {
        match self {
            Kind::Factory => 0,
            Kind::Reader { port } => *port,
            Kind::Writer { port } => *port,
            Kind::ReadHandle { entry: _ } => 0,
            Kind::WriteHandle { entry: _, port } => *port,
        }
    }

    /// The port of a writer, or of a handle made from one: what takes one of its board's slots for writers.
    pub fn writer_port(&self) -> Option<u64>
        ensures { result ≡ tables.writer_port self.now }
    {
        match self {
            Kind::Writer { port } => Some(*port),
            Kind::WriteHandle { entry: _, port } => Some(*port),
            _ => None,
        }
    }

    /// The place of a write handle's entry.
    pub fn written_entry(&self) -> Option<u64>
        ensures { (entry : ℕ) → tables.writes_entry entry self.now
            ≡ tables.holds_at result (λ e. e == entry) }
    {
        match self {
            Kind::WriteHandle { entry, port: _ } => Some(*entry),
            _ => None,
        }
    }
}
