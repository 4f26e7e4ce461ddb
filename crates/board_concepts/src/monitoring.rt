//! Monitoring: whether who took a name still lives.
pub use board_monitoring::monitoring::Local;
pub use board_monitoring::{
    Builder, Cleaner, Life, Monitor, Monitoring, MonitoringBuilder, MonitoringCleaner,
    MonitoringMonitor, MonitoringRegistry, MonitoringToken, Monitors, NameTable,
    ProcessLocalMonitoring, State, Token,
};
pub use board_names::{
    Configuration, FileName, FilePath, NamedConcept, NamedConceptBuilder,
    NamedConceptConfiguration, NamedConceptMgmt, Path, RegistryError,
};
