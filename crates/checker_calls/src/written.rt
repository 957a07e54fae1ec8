use script_names::Bytes;

/// The text that a task comes to, and the status that goes with it.
#[derive(Drop)]
pub struct Written {
    pub text: Bytes,
    pub status: u8,
}
