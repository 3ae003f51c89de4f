// Numbers in at least so many decimal digits, with zeros in front.
ghost use Rattle.readable.specs.Figures.{FiguresStand};

// Read as a numeral it is its number, and it has just that many digits where the number fits.
pub fn figures_stand()
    ensures { FiguresStand }
{}
