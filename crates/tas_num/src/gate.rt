//! Points that the workers of a run pass.

ghost use Rattle.std.specs.Prelude.{◌≡◌, false};

/// Points that the workers of a run pass. A gate has no meaning of its own: a test holds one worker at a point until
/// another has passed a point of its own, and so shows that both ran at once.
pub trait Gate {
    /// A worker passes this point.
    fn pass(&self, point: u32);

    /// Whether someone watches. Then work goes to threads however little it is.
    fn is_watched(&self) -> bool {
        true
    }
}

/// The gate that holds nobody, and at which nobody watches.
#[derive(Clone, Copy, Debug)]
pub struct NoGate;

impl Gate for NoGate {
    fn pass(&self, _point: u32) {}

    fn is_watched(&self) -> bool
        ensures { result ≡ false }
    {
        false
    }
}
