// Calls on boards, and what they answer.
use base::base_board;
use board::running::Running;
use fault::{Fault, Numbers};
use rtc::Rtc;
use std::process::Abort;
use std::test::Fail;
use tree::bus::Bus;
use tree::leaf::Leaf;
use tree::node::Node;
use uart::Uart;

type Two = Bus<Leaf<Uart>, Leaf<Uart>>;

type Four = Bus<Two, Two>;

type Eight = Bus<Four, Four>;

type Sixteen = Bus<Eight, Eight>;

fn two() -> Two {
    Bus::new(Leaf::new(Uart::new()), Leaf::new(Uart::new()))
}

fn four() -> Four {
    Bus::new(two(), two())
}

fn eight() -> Eight {
    Bus::new(four(), four())
}

fn sixteen() -> Sixteen {
    Bus::new(eight(), eight())
}

// The six numbers that a test compares; plain, as in `Numbers`.
fn numbers(number: u8, section: u32, detail: u64) -> Numbers {
    Numbers {
        number,
        layer: 1,
        section,
        subsection: 255,
        place: 0,
        detail,
    }
}

// The six numbers of a refusal; a call that is served fails the test.
fn refusal<A: Drop>(res: Result<A, Fault>) -> Result<Numbers, Fail> {
    res.err()
        .map(|fault| fault.numbers())
        .ok_or_else(|| Fail::new("the call is served"))
}

// The functions below speak of any tree: at a named one, every call of a test would be worked out in its proof.

fn addresses_of_ten<T: Node>(rt: &impl Abort, board: &mut Running<T>) -> Result<(), Fail> {
    assert_eq!(rt; board.read(9), Ok(0));
    assert_eq!(rt; refusal(board.read(10))?, numbers(1, 255, 10));
    assert_eq!(rt; refusal(board.write(10, 1))?, numbers(1, 255, 10));
    assert_eq!(rt;
        refusal(board.feed(u32::MAX, 1))?,
        numbers(1, 255, 4294967295)
    );
    Ok(())
}

fn input_below_eight<T: Node>(rt: &impl Abort, board: &mut Running<T>) -> Result<(), Fail> {
    assert_eq!(rt; board.feed(7, 0x41), Ok(()));
    assert_eq!(rt; board.read(0), Ok(0x41));
    assert_eq!(rt; refusal(board.feed(8, 0x41))?, numbers(2, 1, 0));
    assert_eq!(rt; refusal(board.feed(10, 0x41))?, numbers(1, 255, 10));
    Ok(())
}

fn counts_of_ticks<T: Node>(rt: &impl Abort, board: &mut Running<T>) -> Result<(), Fail> {
    assert_eq!(rt; board.tick(65535), Ok(()));
    assert_eq!(rt; refusal(board.tick(0))?, numbers(3, 255, 0));
    assert_eq!(rt; refusal(board.tick(65536))?, numbers(3, 255, 65536));
    Ok(())
}

// The refusal to make a board of a tree.
fn not_made<T: Node + Drop>(tree: T) -> Result<Numbers, Fail> {
    refusal(Running::new(tree).map_err(|(fault, _)| fault))
}

// The lines after a byte comes in at a serial port whose addresses begin at `address`.
fn lines_after<T: Node + Drop>(rt: &impl Abort, tree: T, address: u32) -> Result<u16, Fail> {
    let mut board = Running::new(tree).map_err(|_| Fail::new("the tree is refused"))?;
    assert_eq!(rt; board.feed(address, 0x41), Ok(()));
    assert_eq!(rt; board.write(address.saturating_add(1), 1), Ok(None));
    Ok(board.lines())
}

#[test]
fn addresses_end_at_the_width(rt: HostRuntime) -> Result<(), Fail> {
    addresses_of_ten(&rt, &mut base_board())
}

#[test]
fn only_the_serial_port_has_an_input(rt: HostRuntime) -> Result<(), Fail> {
    input_below_eight(&rt, &mut base_board())
}

#[test]
fn ticks_are_counted(rt: HostRuntime) -> Result<(), Fail> {
    counts_of_ticks(&rt, &mut base_board())
}

#[test]
fn sixteen_leaves_are_the_most(rt: HostRuntime) -> Result<(), Fail> {
    assert_eq!(rt; lines_after(&rt, sixteen(), 0)?, 0x0001);
    assert_eq!(rt; lines_after(&rt, sixteen(), 120)?, 0x8000);
    assert_eq!(rt;
        not_made(Bus::new(sixteen(), Leaf::new(Uart::new())))?,
        numbers(7, 255, 17)
    );
    Ok(())
}

// Saves a board and lets it go.
fn saved<T: Node + Drop>(
    board: Running<T>,
    edition: u32,
    buffer: &mut [u8],
) -> Result<usize, Fault> {
    let (stopped, slip) = board.stop();
    let result = stopped.save(edition, buffer);
    let _ = stopped.resume(slip);
    result
}

// The first serial port's interrupt is enabled and read away, and a byte waits in the queue of the second.
fn driven<T: Node>(rt: &impl Abort, board: &mut Running<T>) {
    assert_eq!(rt; board.write(1, 0x02), Ok(None));
    assert_eq!(rt; board.read(2), Ok(0x02));
    assert_eq!(rt; board.write(12, 0x01), Ok(None));
    assert_eq!(rt; board.feed(10, 0x41), Ok(()));
}

// Two serial ports with a clock between them, saved at edition 3: written out by hand.
const THREE_LEAVES: [u8; 219] = [
    0x51, 0x45, 0x56, 0x4d, 0, 0, 0, 3, // header
    7, 0, 0, 0, 5, b'p', b'a', b'n', b'e', b'l', // configuration
    4, 0, 0, 0, 0, 4, b'u', b'a', b'r', b't', 0, 0, 0, 0, 0, 0, 0, 1, // leaf 0, the first uart, version 1
    0, 0, 2, 0, 0, 0, 0, // DLL DLM IER LCR MCR SCR OE
    5, 10, b'u', b'a', b'r', b't', b'/', b'l', b'a', b't', b'c', b'h', 0, 0, 0, 1, 0, // TI
    0x7e, 0, 0, 0, 0, // end of leaf 0
    4, 0, 0, 0, 1, 3, b'r', b't', b'c', 0, 0, 0, 0, 0, 0, 0, 2, // leaf 1, the first rtc, version 2
    0, 0, 0, 0, 0, 0, 0, 1, 1, 1, 0, 0x26, 0x02, // index, registers 0 to 11
    0, 0, 0, 0, 0, 0, 0, 0, 0, 0, 0, 0, 0, 0, 0, 0, 0, 0, 0, 0, 0, 0, 0, 0, 0, // registers 14 to 38
    0, 0, 0, 0, 0, 0, 0, 0, 0, 0, 0, 0, 0, 0, 0, 0, 0, 0, 0, 0, 0, 0, 0, 0, 0, // registers 39 to 63
    0, 0, 0, 0, 0, // phase, flags
    0x7e, 0, 0, 0, 1, // end of leaf 1
    4, 0, 0, 0, 2, 4, b'u', b'a', b'r', b't', 0, 0, 0, 1, 0, 0, 0, 1, // leaf 2, the second uart, version 1
    0, 0, 0, 0, 0, 0, 0, // DLL DLM IER LCR MCR SCR OE
    5, 9, b'u', b'a', b'r', b't', b'/', b'f', b'i', b'f', b'o', 0, 0, 0, 1, // uart/fifo, version 1
    1, 1, 0x41, 0, 0, 0, 0, 0, 0, 0, 0, 0, 0, 0, 0, 0, 0, 0, // FE, count, bytes
    0x7e, 0, 0, 0, 2, // end of leaf 2
    0, // end
];

fn is_three_leaves<T: Node + Drop>(rt: &impl Abort, tree: T) -> Result<(), Fail> {
    let mut board = Running::new(tree).map_err(|_| Fail::new("the tree is refused"))?;
    driven(rt, &mut board);
    let mut buffer = [0xee; 256];
    assert_eq!(rt; saved(board, 3, &mut buffer), Ok(219));
    assert!(rt; buffer[0..219] == THREE_LEAVES[0..219], "the stream");
    for byte in &buffer[219..256] {
        assert_eq!(rt; *byte, 0xee);
    }
    Ok(())
}

#[test]
fn a_tree_is_its_stream(rt: HostRuntime) -> Result<(), Fail> {
    let clock_and_port = Bus::new(Leaf::new(Rtc::new()), Leaf::new(Uart::new()));
    is_three_leaves(&rt, Bus::new(Leaf::new(Uart::new()), clock_and_port))
}

fn save_refusals<T: Node + Drop>(
    rt: &impl Abort,
    first: Running<T>,
    second: Running<T>,
    third: Running<T>,
) -> Result<(), Fail> {
    let mut buffer = [0xee; 138];
    assert_eq!(rt; refusal(saved(first, 0, &mut buffer))?, numbers(4, 255, 0));
    assert_eq!(rt; refusal(saved(second, 4, &mut buffer))?, numbers(4, 255, 4));
    assert_eq!(rt;
        refusal(saved(third, 3, &mut buffer))?,
        numbers(6, 255, 139)
    );
    for byte in &buffer {
        assert_eq!(rt; *byte, 0xee);
    }
    Ok(())
}

#[test]
fn a_refused_save_leaves_the_buffer(rt: HostRuntime) -> Result<(), Fail> {
    save_refusals(&rt, base_board(), base_board(), base_board())
}
