/// A socket of an application, by the slot of its flow. Once it is given up, a later socket of the application may have
/// its number.
#[derive(Clone, Copy, PartialEq, Eq, Debug)]
pub struct Socket(pub u32);
