// What workers pass before they plan.

/// What a worker calls each time before it plans a layer, outside of the lock. It may wait, so a test can
/// hold a worker back. It answers nothing, so nothing that is planned can hang on it.
pub trait Gate {
    /// The worker of that number, from 0, is about to plan that layer, from 0.
    fn before_plan(&self, worker: u32, layer: u32);
}

/// A gate that holds nobody back.
#[derive(Clone, Copy, Debug)]
pub struct NoGate;

impl Gate for NoGate {
    fn before_plan(&self, _worker: u32, _layer: u32) {}
}
