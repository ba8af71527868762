// The credit factors, in hundredths.
ghost use Rattle.std.specs.Prelude.{◌≤◌};

#[derive(Clone, Copy)]
pub struct Factors {
    pub(crate) e1: u8,
    pub(crate) e2: u8,
    pub(crate) e3: u8,
    ghost first: { e1 ≤ 100 },
    ghost second: { e2 ≤ 100 },
    ghost third: { e3 ≤ 100 },
}
