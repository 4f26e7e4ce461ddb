//! Monitoring: whether who took a name still lives.
//!
//! `Monitors` is the table: a name is alive, dead, or owned by a cleaner (`specs/Monitors`). `Token` and `Cleaner` are
//! both a `Holder`.
//!
//! A typed call takes its registry's lock and calls its lent form, whose name ends in `_in` and whose contract says the
//! answers.
#![tactic(auto)]

mod cleaner;
mod holder;
mod monitor;
pub mod monitoring;
mod monitoring_builder;
mod monitors;
mod process_local_monitoring;
mod token;

pub use board_names::{
    Configuration, FileName, FilePath, MonitoringCreateCleanerError, MonitoringCreateMonitorError,
    MonitoringCreateTokenError, MonitoringStateError, NameTable, NamedConcept, NamedConceptBuilder,
    NamedConceptConfiguration, NamedConceptMgmt, Path, RegistryError,
};
pub use cleaner::Cleaner;
pub use monitor::Monitor;
pub use monitoring::{
    Monitoring, MonitoringBuilder, MonitoringCleaner, MonitoringMonitor, MonitoringToken, State,
};
pub use monitoring_builder::Builder;
pub use monitors::{Life, MonitoringRegistry, Monitors};
pub use process_local_monitoring::ProcessLocalMonitoring;
pub use token::Token;
