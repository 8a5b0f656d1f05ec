// The base board, which every panel has: a serial port at addresses 0 to 7 and a clock at 8 and 9.
#![tactic(auto)]

ghost use Rattle.std.specs.Prelude.{◌≡◌};
ghost use Rattle.base.specs.Base.{base, devices};
ghost use Rattle.tree.specs.Tree.{fresh};

use board::running::Running;
use rtc::Rtc;
use tree::bus::Bus;
use tree::leaf::Leaf;
use uart::Uart;

// The devices of the base board.
pub type BaseTree = Bus<Leaf<Uart>, Leaf<Rtc>>;

// A running base board, every device fresh.
pub fn base_board() -> Running<BaseTree>
    ensures { devices result ≡ fresh base }
{
    Running::new(Bus::new(Leaf::new(Uart::new()), Leaf::new(Rtc::new()))).unwrap()
}
