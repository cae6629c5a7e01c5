// Which types may go to another thread.
use crate::HeapGround;
use sdr_base::Media;
use sdr_disk::Disk;
use zco_acct::Notify;

// Values of the type may go to another thread.
fn is_send<T: Send>() {}

/// A ground may go to another thread, if its disk, its media and what it notifies may. It does nothing.
pub fn ground_is_send<D: Disk + Send, M: Media + Send, F: Notify + Drop + Send>() {
    is_send::<HeapGround<D, M, F>>()
}
