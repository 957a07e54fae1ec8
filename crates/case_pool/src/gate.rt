/// What a worker enters when it takes up a job. Nothing is known of what a gate does; each call of `enter` returns.
pub trait Gate: Sync {
    /// Enters the gate.
    fn enter(&self);
}

/// The gate that does nothing.
#[derive(Drop)]
pub struct Open;

impl Open {
    /// The gate; it takes no memory.
    pub fn new() -> Open {
        Open
    }
}

impl Gate for Open {
    fn enter(&self) {}
}
