// A stock as a caller lends it.
//   Stock      cameras, fits and lit pairs, as the questions put to a stock settle them
ghost use Rattle.pairing.specs.Table.{stock, StockTable};

use counting::Pair;

#[derive(Clone, Copy)]
pub struct Stock<'a> {
    pub cameras: usize,
    pub fits: &'a [Pair],
    pub lit: &'a [Pair],
    ghost is_table: { StockTable (stock cameras fits.now lit.now) },
}
