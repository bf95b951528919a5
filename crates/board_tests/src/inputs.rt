// Inputs and their lines.
use board::lines::line_end;
use std::process::Abort;
use std::test::Fail;

fn has_lines(rt: &impl Abort, input: &[u8], lines: &[&str]) -> Result<(), Fail> {
    let mut from = 0;
    for line in lines {
        assert!(rt; from < input.len());
        let end = line_end(input, from);
        assert!(rt; &input[from..end] == line.as_bytes());
        from = end + 1;
    }
    assert!(rt; from >= input.len());
    Ok(())
}

#[test]
fn lines(rt: HostRuntime) -> Result<(), Fail> {
    has_lines(&rt, b"", &[])?;
    has_lines(&rt, b"k", &["k"])?;
    has_lines(&rt, b"k\n", &["k"])?;
    has_lines(&rt, b"\n", &[""])?;
    has_lines(&rt, b"\n\n", &["", ""])?;
    has_lines(&rt, b"m 1\nk", &["m 1", "k"])?;
    has_lines(&rt, b"m 1\n\nk\n", &["m 1", "", "k"])?;
    has_lines(&rt, b"k\r\nk\r", &["k\r", "k\r"])
}

// Past the input no line begins.
#[test]
fn past(rt: HostRuntime) {
    assert_eq!(rt; line_end(b"k\n", 2), 2);
    assert_eq!(rt; line_end(b"k\n", 3), 3);
    assert_eq!(rt; line_end(b"", 0), 0);
    assert_eq!(rt; line_end(b"", 7), 7);
}
