//! Why calls are refused, an enum for each call. `Display` writes `EnumName::Variant`.

pub mod boards;
pub mod communication_channel;
pub mod concept;
pub mod event;
pub mod monitoring;
pub mod service;
pub mod static_storage;
