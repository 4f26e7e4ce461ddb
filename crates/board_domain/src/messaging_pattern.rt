//! Kinds of services.
ghost use Rattle.std.specs.Prelude.{◌≡◌, true};

use board_service::StaticConfig;

/// What kind of service a name stands for. There are blackboards alone.
#[derive(Clone, Copy, Debug, PartialEq, Eq)]
pub enum MessagingPattern {
    /// A board, and what is fixed of it.
    Blackboard(StaticConfig),
}

impl MessagingPattern {
    /// Whether both are of one kind, whatever their limits. With one kind they are.
    pub fn is_same_pattern(&self, rhs: &Self) -> bool
        ensures { result ≡ true }
    {
        match (self, rhs) {
            (MessagingPattern::Blackboard(_), MessagingPattern::Blackboard(_)) => true,
        }
    }
}
