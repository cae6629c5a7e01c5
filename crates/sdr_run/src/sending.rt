// Which types may go to another thread.
use crate::handed::{Handed, HandedIn};
use sdr_disk::Disk;

// Values of the type may go to another thread.
fn is_send<T: Send>() {}

/// A disk that was handed in may go to another thread, if the disk may. It does nothing.
pub fn handed_is_send<D: Disk + Send, J: HandedIn + Send>() {
    is_send::<Handed<D, J>>()
}
