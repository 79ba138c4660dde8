// The two hosts at their edges: empty memory, the last line, the last byte of room.
use host::Host;
use host::mark::Mark;
use host::tray::Tray;
use std::test::Fail;
use text_host::text::TextHost;

// Prints marks, each with whether there should be paper for it.
fn print_all<H: Host>(host: &mut H, marks: &[(Mark, bool)]) -> Result<(), Fail> {
    for &(mark, room) in marks {
        let printed = match mark {
            Mark::Number(word) => host.put(word),
            Mark::LineEnd => host.close(),
        };
        if printed.is_ok() != room {
            return Err(Fail::new("paper, or none, where it should not be"));
        }
    }
    Ok(())
}

#[test]
fn empty_hosts(rt: HostRuntime) -> Result<(), Fail> {
    let mut no_marks: [Mark; 0] = [];
    let mut tray = Tray::new(&[], &mut no_marks);
    assert_eq!(rt; tray.take(), None);
    print_all(
        &mut tray,
        &[(Mark::Number(1), false), (Mark::LineEnd, false)],
    )?;
    let mut no_bytes: [u8; 0] = [];
    let mut no_lengths: [u8; 0] = [];
    let mut text = TextHost::new(b"", &mut no_bytes, &mut no_lengths);
    assert_eq!(rt; text.take(), None);
    print_all(
        &mut text,
        &[(Mark::Number(1), false), (Mark::LineEnd, false)],
    )
}

#[test]
fn tray_lines_end_at_a_long_one(rt: HostRuntime) {
    let numbers = [5, -999_999_999_999_999_999, 1_000_000_000_000_000_000, 7];
    let mut tray = Tray::new(&numbers, &mut []);
    for line in [Some(5), Some(-999_999_999_999_999_999), None, None] {
        assert_eq!(rt; tray.take(), line);
    }
    let smallest = [i64::MIN];
    let mut other = Tray::new(&smallest, &mut []);
    assert_eq!(rt; other.take(), None);
}

#[test]
fn tray_marks(rt: HostRuntime) -> Result<(), Fail> {
    let mut marks = [Mark::Number(9); 3];
    let mut tray = Tray::new(&[], &mut marks);
    assert_eq!(rt; tray.weigh(Mark::Number(i32::MIN)), 1);
    let all = [
        (Mark::Number(36), true),
        (Mark::LineEnd, true),
        (Mark::Number(7), true),
        (Mark::LineEnd, false),
    ];
    print_all(&mut tray, &all)?;
    assert!(rt; tray.printed() == [Mark::Number(36), Mark::LineEnd, Mark::Number(7)].as_slice());
    Ok(())
}

// A text host over these bytes and lengths prints the marks, and the text is then this.
fn prints(
    output: &mut [u8],
    lengths: &mut [u8],
    marks: &[(Mark, bool)],
    text: &[u8],
) -> Result<(), Fail> {
    let mut host = TextHost::new(b"8\n", output, lengths);
    print_all(&mut host, marks)?;
    if host.take() != Some(8) || host.printed() != text {
        return Err(Fail::new("another line, or another text"));
    }
    Ok(())
}

#[test]
fn text_at_the_edge_of_its_room() -> Result<(), Fail> {
    let low = Mark::Number(i32::MIN);
    let high = Mark::Number(i32::MAX);
    let exact = [
        (low, true),
        (Mark::Number(10), false),
        (Mark::LineEnd, true),
        (Mark::LineEnd, false),
    ];
    prints(&mut [0; 12], &mut [0; 12], &exact, b"-2147483648\n")?;
    prints(
        &mut [0; 10],
        &mut [0; 12],
        &[(low, false), (high, true), (Mark::LineEnd, false)],
        b"2147483647",
    )?;
    prints(
        &mut [0; 9],
        &mut [0; 3],
        &[(Mark::Number(100), true), (Mark::LineEnd, false)],
        b"100",
    )?;
    prints(&mut [], &mut [0; 16], &[(Mark::LineEnd, false)], b"")
}
