// The line that stands for an answer or a fault, and what is left alone round it.
use script::{
    Answer, LineFault, NoRoom, OtherFault, PlayerFault, Position, Refusal, Report, StepKind, Usage,
    write_answer, write_fault,
};
use std::process::Abort;

const START: usize = 3;

// The line stands from the fourth byte on, and every other byte is a 7 still.
fn stands(rt: &impl Abort, out: &[u8; 80], end: Result<usize, NoRoom>, text: &[u8]) {
    assert_eq!(rt; end, Ok(START + text.len()));
    for (i, byte) in out.iter().enumerate() {
        if i < START || i - START >= text.len() {
            assert_eq!(rt; *byte, 7);
        } else {
            assert_eq!(rt; *byte, text[i - START]);
        }
    }
}

fn answers(rt: &impl Abort, answer: Answer, text: &[u8]) {
    let mut out = [7u8; 80];
    let end = write_answer(&mut out, START, &answer);
    stands(rt, &out, end, text);
}

#[test]
fn short_answers(rt: HostRuntime) {
    answers(&rt, Answer::Done, b"0\n");
    answers(&rt, Answer::Refused(Refusal::Root), b"1\n");
    answers(&rt, Answer::Refused(Refusal::Range), b"6\n");
    answers(&rt, Answer::Value(0), b"0 0\n");
    answers(&rt, Answer::Value(10), b"0 10\n");
    answers(&rt, Answer::Value(907), b"0 907\n");
    answers(&rt, Answer::Value(4_294_967_295), b"0 4294967295\n");
    answers(&rt, Answer::Words(0), b"0 0\n");
    answers(&rt, Answer::Words(15), b"0 15\n");
    answers(&rt, Answer::Refused(Refusal::Buffer), b"7\n");
    answers(&rt, Answer::Same(true), b"0 1\n");
    answers(&rt, Answer::Same(false), b"0 0\n");
}

#[test]
fn long_answers(rt: HostRuntime) {
    let usage = Usage {
        words: 3072,
        cars: 28,
        trains: 8,
        mark: true,
    };
    answers(&rt, Answer::Tally(usage), b"0 3072 28 8 1\n");
    let report = Report {
        kind: StepKind::Car,
        out: 1,
        back: 0,
        copied: 3,
        lost: 0,
        looked: 16,
        cars: 1,
    };
    answers(&rt, Answer::Step(report), b"0 car 1 0 3 0 16 1\n");
    let largest = Report {
        kind: StepKind::Train,
        out: 255,
        back: 254,
        copied: 253,
        lost: 65_535,
        looked: 4_294_967_295,
        cars: 252,
    };
    answers(
        &rt,
        Answer::Step(largest),
        b"0 train 255 254 253 65535 4294967295 252\n",
    );
    let idle = Report {
        kind: StepKind::Idle,
        out: 0,
        back: 0,
        copied: 0,
        lost: 0,
        looked: 0,
        cars: 0,
    };
    answers(&rt, Answer::Step(idle), b"0 idle 0 0 0 0 0 0\n");
}

#[test]
fn a_fault(rt: HostRuntime) {
    let fault = PlayerFault::Reader(LineFault::Words(Position { line: 4, place: 8 }));
    let mut out = [7u8; 80];
    let end = write_fault(&mut out, START, &fault);
    stands(&rt, &out, end, b"reader 9 line 4 at 8\n");
}

fn numbered(rt: &impl Abort, number: u8, text: &[u8]) {
    let at = Position { line: 1, place: 0 };
    let fault = PlayerFault::from(LineFault::from(OtherFault { number, at }));
    let mut out = [7u8; 80];
    let end = write_fault(&mut out, START, &fault);
    stands(rt, &out, end, text);
}

#[test]
fn faults_of_any_number(rt: HostRuntime) {
    numbered(&rt, 77, b"reader 77 line 1 at 0\n");
    numbered(&rt, 0, b"reader 0 line 1 at 0\n");
    numbered(&rt, 255, b"reader 255 line 1 at 0\n");
}

#[test]
fn a_line_wants_64_bytes(rt: HostRuntime) {
    let mut out = [7u8; 66];
    assert_eq!(rt; write_answer(&mut out, START, &Answer::Done), Err(NoRoom));
    assert_eq!(rt; write_answer(&mut out, 67, &Answer::Done), Err(NoRoom));
    assert!(rt; out == [7u8; 66]);
    assert_eq!(rt; write_answer(&mut out, 2, &Answer::Done), Ok(4));
}
