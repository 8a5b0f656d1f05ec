// Why a device stays as it was.

// The device does not take on the state that a section gives.
#[derive(Clone, Copy, PartialEq, Eq, Debug)]
pub struct NotAdopted;
