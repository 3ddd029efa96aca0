// Flushing the log.
ghost use Rattle.mover.specs.Calls.{StoreFlushes};

use super::Store;
use klog::Flushed;
use page_device::PageDevice;

impl<D: PageDevice<PAGE>, const PAGE: usize> Store<D, PAGE> {
    /// One step of flushing the log. No memory is taken.
    pub fn flush_step(&mut self) -> Flushed
        ensures { StoreFlushes D.honest D.failures D.held self.old result self.new }
    {
        self.log.flush_step(&mut self.device)
    }
}
