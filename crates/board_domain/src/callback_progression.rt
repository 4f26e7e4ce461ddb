//! Whether a walk goes on.
/// Whether a walk over nodes or keys goes on after a call.
#[derive(Clone, Copy, Debug, PartialEq, Eq)]
pub enum CallbackProgression {
    /// With the next one.
    Continue,
    /// No more.
    Stop,
}
