// Yields and their ticks, which are numbers of thousandths of a percent.
ghost use Rattle.std.specs.Prelude.{Some};
ghost use Rattle.readable.specs.Rates.{thousandths, percent};

use std::fmt;

// A percentage with three decimals.
#[derive(Clone, Copy)]
pub struct Thousandths(pub u32);

impl fmt::Display for Thousandths {
    ghost output = { λ n. Some (thousandths n.0) };

    #[tactic(auto, using(crate::proofs::Places::zero_padded))]
    fn fmt<W: fmt::Write>(&self, f: &mut fmt::Formatter<W>) -> fmt::Result {
        write!(f, "{}.{:03}", self.0 / 1000, self.0 % 1000)
    }
}

// A yield: such a percentage with its sign.
#[derive(Clone, Copy)]
pub struct Rate(pub i32);

impl fmt::Display for Rate {
    ghost output = { λ y. Some (percent y.0) };

    fn fmt<W: fmt::Write>(&self, f: &mut fmt::Formatter<W>) -> fmt::Result {
        let sign = if self.0 < 0 { "-" } else { "" };
        let size = Thousandths(self.0.unsigned_abs());
        write!(f, "{sign}{size}")
    }
}
