// The commands of a derivation, and their bytes.
ghost use Rattle.std.specs.Prelude.{◌≡◌};
ghost use Rattle.sequent.specs.Orders.{Orders, byte_of};

use calculus::Side;
use question::Connective;

// Close by a letter or by equal formulas, or reduce a connective on a side.
#[derive(Clone, Copy)]
pub enum Order {
    Close,
    Pair,
    Reduce(Side, Connective),
}

// A byte that is no command of a derivation.
#[derive(Clone, Copy)]
pub struct NoOrder;

impl TryFrom<u8> for Order {
    type Error = NoOrder;

    ghost try_from_gives = { Orders };

    fn try_from(b: u8) -> Result<Self, NoOrder> {
        match b {
            0x41 => Ok(Order::Close),
            0x42 => Ok(Order::Pair),
            0x52..=0x56 => Ok(Order::Reduce(Side::Left, Connective::try_from(b - 0x50).unwrap())),
            0x62..=0x66 => Ok(Order::Reduce(Side::Right, Connective::try_from(b - 0x60).unwrap())),
            _ => Err(NoOrder),
        }
    }
}

impl From<Order> for u8 {
    ghost from_gives = { λ o b. b ≡ byte_of o };

    fn from(o: Order) -> u8 {
        match o {
            Order::Close => 0x41,
            Order::Pair => 0x42,
            Order::Reduce(Side::Left, k) => 0x50 + u8::from(k),
            Order::Reduce(Side::Right, k) => 0x60 + u8::from(k),
        }
    }
}
