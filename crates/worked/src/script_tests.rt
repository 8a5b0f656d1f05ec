// Lines of scripts, and what they are read as.
use board::call::Call;
use script::line::{Command, read_line};
use std::alloc::Global;
use std::process::Abort;
use std::test::Fail;

// The line is read as that call.
fn reads(rt: &impl Abort, line: &str, call: Call) -> Result<(), Fail> {
    match read_line(line) {
        Ok(Some(Command::Guest(found))) => {
            assert_eq!(rt; found, call, "{}", line);
            Ok(())
        },
        _ => Err(Fail::new(line)),
    }
}

// The line is refused, in these words.
fn refuses(rt: &impl Abort, heap: Global, line: &str, words: &str) -> Result<(), Fail> {
    let mistake = read_line(line).err().ok_or_else(|| Fail::new(line))?;
    let said = mistake.to_string(heap)?;
    assert!(rt; said.as_str() == words, "{}", line);
    Ok(())
}

#[test]
fn calls_are_read(rt: HostRuntime) -> Result<(), Fail> {
    reads(&rt, "read 9", Call::Read { address: 9 })?;
    reads(
        &rt,
        "  write\t1   0x02  # enable",
        Call::Write {
            address: 1,
            byte: 2,
        },
    )?;
    reads(
        &rt,
        "feed 0 255",
        Call::Feed {
            address: 0,
            byte: 255,
        },
    )?;
    reads(&rt, "tick 0xFFFFffff", Call::Tick { ticks: u32::MAX })?;
    reads(&rt, "lines#", Call::Lines)
}

#[test]
fn mistakes_are_named(rt: HostRuntime) -> Result<(), Fail> {
    let heap = rt.alloc();
    refuses(&rt, heap, "reed 9", "`reed` is no call")?;
    refuses(&rt, heap, "read", "the address is missing")?;
    refuses(&rt, heap, "write 1 # 2", "the byte is missing")?;
    refuses(
        &rt,
        heap,
        "write 1 256",
        "`256` is no byte: the greatest is 255",
    )?;
    refuses(
        &rt,
        heap,
        "read 0xg",
        "`0xg` is no number: write digits, or hexadecimal ones after 0x",
    )?;
    refuses(
        &rt,
        heap,
        "read +9",
        "`+9` is no number: write digits, or hexadecimal ones after 0x",
    )?;
    refuses(
        &rt,
        heap,
        "read 4294967296",
        "`4294967296` is too large: the greatest number is 4294967295",
    )?;
    refuses(&rt, heap, "lines 1", "`1` is a word too many")?;
    refuses(
        &rt,
        heap,
        "board press stopped",
        "a board is made `running`, not `stopped`",
    )
}
