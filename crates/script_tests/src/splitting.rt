// Where the lines of a script and the words of a line begin and end.
use script::{Line, Lines, Token, TooLong, Word, line_at, lines_within, nth_word};
use std::process::Abort;

fn counts(rt: &impl Abort, script: &[u8], wanted: Result<usize, TooLong>) {
    assert_eq!(rt; lines_within(script), wanted);
}

#[test]
fn lines_are_counted(rt: HostRuntime) {
    counts(&rt, b"", Ok(0));
    counts(&rt, b"\n", Ok(1));
    counts(&rt, b"step", Ok(1));
    counts(&rt, b"step\n", Ok(1));
    counts(&rt, b"step\n\n", Ok(2));
    counts(&rt, b"step\ntally", Ok(2));
}

#[test]
fn a_script_has_limits(rt: HostRuntime) {
    counts(&rt, &[10; 512], Ok(512));
    counts(&rt, &[10; 513], Err(TooLong));
    counts(&rt, &[65; 32_768], Ok(1));
    counts(&rt, &[65; 32_769], Err(TooLong));
}

fn cuts(rt: &impl Abort, script: &[u8], start: usize, text: &[u8], next: usize) {
    assert_eq!(rt; line_at(script, start), Some(Line { text, next }));
}

#[test]
fn line_after_line(rt: HostRuntime) {
    let script = b"step\n\ntally";
    cuts(&rt, script, 0, b"step", 5);
    cuts(&rt, script, 5, b"", 6);
    cuts(&rt, script, 6, b"tally", 11);
    assert_eq!(rt; line_at(script, 11), None);
    assert_eq!(rt; line_at(b"step\n", 5), None);
    assert_eq!(rt; line_at(b"", 0), None);
}

#[test]
fn lines_come_in_order(rt: HostRuntime) {
    let mut lines = Lines::new(b"step\n\ntally");
    assert_eq!(rt; lines.next(), Some(b"step".as_slice()));
    assert_eq!(rt; lines.next(), Some(b"".as_slice()));
    assert_eq!(rt; lines.next(), Some(b"tally".as_slice()));
    assert_eq!(rt; lines.next(), None);
}

// Each line begins where the one before it says that the next one does.
#[test]
fn lines_are_walked(rt: HostRuntime) {
    let script = b"make 0 0 1 1\n\nstep\ntally";
    let mut start = 0;
    for text in Lines::new(script) {
        let line = line_at(script, start).expect(&rt, "a line begins there");
        assert_eq!(rt; line.text, text);
        start = line.next;
    }
    assert_eq!(rt; start, script.len());
    assert_eq!(rt; line_at(script, start), None);
    counts(&rt, script, Ok(4));
}

#[test]
fn words_are_pieces_of_their_line(rt: HostRuntime) {
    let line = b"drop  31";
    let name = Word {
        text: b"drop",
        place: 0,
    };
    let empty = Word {
        text: b"",
        place: 5,
    };
    let number = Word {
        text: b"31",
        place: 6,
    };
    assert_eq!(rt; nth_word(line, 0), Some(Token::Name(name)));
    assert_eq!(rt; nth_word(line, 1), Some(Token::Number(empty)));
    assert_eq!(rt; nth_word(line, 2), Some(Token::Number(number)));
    assert_eq!(rt; nth_word(line, 3), None);
}
