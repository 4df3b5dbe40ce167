//! Stock programs by name.
ghost use Rattle.std.specs.Prelude.{IfErr, IfOk};
ghost use Rattle.boddurci_c.specs.Stocks.{DeniesStock, IsStockImage};

use boddurci_handles::Status;
use std::alloc::Global;
use stock_names::Stock;

/// Makes the image of the stock program with a name. Returns `NoStock` if there is no such program, and `NoMemory` if out of
/// memory.
pub fn stock_image(alloc: Global, name: &[u8]) -> Result<Vec<u8>, Status>
    ensures ok { IfOk result (λ image. IsStockImage name.now image.items) }
    ensures err { IfErr result (DeniesStock name.now) }
{
    let Some(stock) = Stock::named(name) else {
        return Err(Status::NoStock);
    };
    match stock.image(alloc) {
        Ok(image) => Ok(image),
        Err(_) => Err(Status::NoMemory),
    }
}
