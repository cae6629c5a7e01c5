// Which types may go to another thread.
use crate::{Core, Origin};
use sdr_machine::Tells;

// Values of the type may go to another thread.
fn is_send<T: Send>() {}

/// A core may go to another thread, if its ground may. It does nothing.
pub fn core_is_send<T: Tells + Send, J: Origin + Send>() {
    is_send::<Core<T, J>>()
}
