// The form of lines: what the check answers, and what is read.
use fault::{Fault, Refusal};
use lines::check as check_lines;
use lines::reader::Reader;
use std::test::Fail;

// Lawful texts, and how many lines they have.
const LAWFUL: [(&[u8], usize); 5] = [
    (b"", 0),
    (b"0\n", 1),
    (b"-0\n", 1),
    (b"007\n-12\n", 2),
    (b"999999999999999999\n-999999999999999999\n", 2),
];

// Unlawful texts, and where they break the form.
const UNLAWFUL: [(&[u8], usize); 14] = [
    (b"5", 1),
    (b"-", 1),
    (b"5\n-", 3),
    (b"-\n", 1),
    (b"\n", 0),
    (b"--5\n", 1),
    (b"+5\n", 0),
    (b" 5\n", 0),
    (b"5 \n", 1),
    (b"5\r\n", 1),
    (b"5-\n", 1),
    (b"1234567890123456789\n", 18),
    (b"-1234567890123456789\n", 19),
    (b"1\n2\nx", 4),
];

#[test]
fn lawful_texts(rt: HostRuntime) {
    for (text, count) in LAWFUL {
        assert_eq!(rt; check_lines(text), Ok(count));
    }
}

#[test]
fn unlawful_texts(rt: HostRuntime) -> Result<(), Fail> {
    for (text, place) in UNLAWFUL {
        match check_lines(text) {
            Ok(_) => return Err(Fail::new("accepted")),
            Err(fault) => assert_eq!(rt; (fault.refusal.number(), fault.place), (17, place)),
        }
    }
    Ok(())
}

#[test]
fn lines_in_order(rt: HostRuntime) {
    let mut reader = Reader::new(b"12\n-0\n-34\n000000000000000056\n");
    for line in [Some(12), Some(0), Some(-34), Some(56), None, None] {
        assert_eq!(rt; reader.next(), line);
    }
    let mut broken = Reader::new(b"12\n34");
    assert_eq!(rt; broken.next(), None);
}

#[test]
fn faults_as_shown(rt: HostRuntime) -> Result<(), Fail> {
    let fault = Fault {
        refusal: Refusal::BadLine,
        place: 18,
    };
    let shown = format!(in rt.alloc(); "{fault}")?;
    assert!(rt; shown.as_str() == "(refused 17 18)");
    Ok(())
}
