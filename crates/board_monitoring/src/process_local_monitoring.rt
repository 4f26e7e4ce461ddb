//! The monitoring of the names of one process.
ghost use Rattle.std.specs.Prelude.{◌≡◌, ℕ, List, codes};

use crate::cleaner::Cleaner;
use crate::monitor::Monitor;
use crate::monitoring::Monitoring;
use crate::monitoring_builder::Builder;
use crate::monitors::{MonitoringRegistry, Monitors};
use crate::token::Token;
use board_names::{FileName, NamedConceptMgmt};
use std::sync::{MutexGuard, Wait};

/// The monitoring of the names of one process.
#[derive(Clone, Copy, Debug, PartialEq, Eq)]
pub struct ProcessLocalMonitoring;

impl NamedConceptMgmt for ProcessLocalMonitoring {
    type Names = Monitors;

    type Registry = MonitoringRegistry;

    fn lock<'a, R: Wait>(rt: &R, registry: &'a MonitoringRegistry) -> MutexGuard<'a, Monitors> {
        registry.lock(rt)
    }
}

impl Monitoring for ProcessLocalMonitoring {
    type Token = Token;

    type Monitor = Monitor;

    type Cleaner = Cleaner;

    type Builder = Builder;

    fn default_suffix() -> FileName {
        FileName::from_valid(b".monitor")
    }
}
