use script_names::Bytes;

/// What a control file says of a package (Debian Policy, 5.6.7 and 5.6.12).
#[derive(Drop)]
pub struct Control {
    pub version: Bytes,
    pub name: Bytes,
}
