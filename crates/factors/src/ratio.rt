// An exact fraction from 0 to 1.
ghost use Rattle.std.specs.Prelude.{◌<◌, ◌≤◌};

#[derive(Clone, Copy)]
pub(crate) struct Ratio {
    pub(crate) top: u32,
    pub(crate) bottom: u32,
    ghost proper: { 0 < bottom },
    ghost within: { top ≤ bottom },
}
