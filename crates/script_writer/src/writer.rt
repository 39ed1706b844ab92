// The output line of an answer and of a fault.
ghost use Rattle.std.specs.Prelude.{◌≡◌, ◌+◌, ◌<◌, ◌≤◌, ◌∷◌, length, OnOk, OnErr};
ghost use Rattle.std.specs.Result.{result_ok};
ghost use Rattle.std.specs.Fmt.{decimal};
ghost use Rattle.calls.specs.declared.answer.Answer.TheVariants.{Refused, Done, Value, Same, Tally, Step};
ghost use Rattle.calls.specs.declared.faults.PlayerFault.TheVariants.{Reader};
ghost use Rattle.script_writer.specs.Writer.{kind_word, flag, answer_line, fault_line, value_line, Puts, WritesLineAt, WritesLine};

pub use crate::line::LINE_ROOM;
use crate::line::{NoRoom, put_number, put_text};
use calls::{Answer, LineFault, PlayerFault, Refusal, Report, StepKind, Usage};

// The code of an answer that is no refusal.
fn put_code(out: &mut [u8], at: usize) -> usize
    requires { at + 1 ≤ length out.old }
    ensures put { Puts out.old at (decimal 0) out.new result }
    ensures short { result ≤ at + 1 }
{
    put_text(out, at, b"0")
}

// Yes or no, behind a space.
fn put_flag(out: &mut [u8], at: usize, yes: bool) -> usize
    requires { at + 2 ≤ length out.old }
    ensures put { Puts out.old at (32 ∷ flag yes) out.new result }
    ensures short { result ≤ at + 2 }
{
    let digit = put_text(out, at, b" ");
    if yes {
        put_text(out, digit, b"1")
    } else {
        put_text(out, digit, b"0")
    }
}

// The kind of a step, behind a space.
fn put_kind(out: &mut [u8], at: usize, kind: StepKind) -> usize
    requires { at + 6 ≤ length out.old }
    ensures put { Puts out.old at (32 ∷ kind_word kind) out.new result }
    ensures short { result ≤ at + 6 }
{
    match kind {
        StepKind::Idle => put_text(out, at, b" idle"),
        StepKind::Train => put_text(out, at, b" train"),
        StepKind::Car => put_text(out, at, b" car"),
    }
}

fn put_done(out: &mut [u8], at: usize) -> usize
    requires { at + 64 ≤ length out.old }
    ensures { WritesLineAt out.old at (answer_line Done) out.new result }
{
    let code = put_code(out, at);
    put_text(out, code, b"\n")
}

fn put_refusal(out: &mut [u8], at: usize, refusal: Refusal) -> usize
    requires { at + 64 ≤ length out.old }
    ensures { WritesLineAt out.old at (answer_line (Refused refusal)) out.new result }
{
    // No refusal's number has two digits.
    let digit = [b'0' + refusal.number()];
    let code = put_text(out, at, &digit);
    put_text(out, code, b"\n")
}

fn put_value(out: &mut [u8], at: usize, value: u32) -> usize
    requires { at + 64 ≤ length out.old }
    ensures { WritesLineAt out.old at (value_line value) out.new result }
{
    let code = put_code(out, at);
    let part = put_number::<10>(out, code, u64::from(value));
    put_text(out, part, b"\n")
}

fn put_same(out: &mut [u8], at: usize, same: bool) -> usize
    requires { at + 64 ≤ length out.old }
    ensures { WritesLineAt out.old at (answer_line (Same same)) out.new result }
{
    let code = put_code(out, at);
    let part = put_flag(out, code, same);
    put_text(out, part, b"\n")
}

fn put_tally(out: &mut [u8], at: usize, usage: Usage) -> usize
    requires { at + 64 ≤ length out.old }
    ensures { WritesLineAt out.old at (answer_line (Tally usage)) out.new result }
{
    let code = put_code(out, at);
    let words = put_number::<10>(out, code, u64::from(usage.words));
    let cars = put_number::<10>(out, words, u64::from(usage.cars));
    let trains = put_number::<10>(out, cars, u64::from(usage.trains));
    let mark = put_flag(out, trains, usage.mark);
    put_text(out, mark, b"\n")
}

fn put_step(out: &mut [u8], at: usize, report: Report) -> usize
    requires { at + 64 ≤ length out.old }
    ensures { WritesLineAt out.old at (answer_line (Step report)) out.new result }
{
    let code = put_code(out, at);
    let kind = put_kind(out, code, report.kind);
    let carried = put_number::<3>(out, kind, u64::from(report.out));
    let back = put_number::<3>(out, carried, u64::from(report.back));
    let copied = put_number::<3>(out, back, u64::from(report.copied));
    let lost = put_number::<5>(out, copied, u64::from(report.lost));
    let looked = put_number::<10>(out, lost, u64::from(report.looked));
    let cars = put_number::<3>(out, looked, u64::from(report.cars));
    put_text(out, cars, b"\n")
}

fn put_answer(out: &mut [u8], at: usize, answer: Answer) -> usize
    requires { at + 64 ≤ length out.old }
    ensures { WritesLineAt out.old at (answer_line answer) out.new result }
{
    match answer {
        Answer::Refused(refusal) => put_refusal(out, at, refusal),
        Answer::Done => put_done(out, at),
        Answer::Value(value) | Answer::Words(value) => put_value(out, at, value),
        Answer::Same(same) => put_same(out, at, same),
        Answer::Tally(usage) => put_tally(out, at, usage),
        Answer::Step(report) => put_step(out, at, report),
    }
}

fn put_reader_fault(out: &mut [u8], at: usize, fault: LineFault) -> usize
    requires { at + 64 ≤ length out.old }
    ensures { WritesLineAt out.old at (fault_line (Reader fault)) out.new result }
{
    let position = fault.position();
    let layer = put_text(out, at, b"reader");
    let number = put_number::<3>(out, layer, u64::from(fault.number()));
    let before_line = put_text(out, number, b" line");
    let line = put_number::<10>(out, before_line, u64::from(position.line));
    let before_place = put_text(out, line, b" at");
    let place = put_number::<20>(out, before_place, position.place as u64);
    put_text(out, place, b"\n")
}

fn put_fault(out: &mut [u8], at: usize, fault: PlayerFault) -> usize
    requires { at + 64 ≤ length out.old }
    ensures { WritesLineAt out.old at (fault_line fault) out.new result }
{
    match fault {
        PlayerFault::Reader(fault) => put_reader_fault(out, at, fault),
    }
}

// The room for a line.
fn check_room(out: &[u8], at: usize) -> Result<(), NoRoom>
    ensures room { OnOk result (at + 64 ≤ length out.now) }
    ensures none { OnErr result (length out.now < at + 64) }
{
    if at > out.len() || out.len() - at < LINE_ROOM {
        return Err(NoRoom);
    }
    Ok(())
}

/// Writes an answer's line at `at` and gives the place behind it. Where fewer than 64 bytes stand there, nothing is written.
pub fn write_answer(out: &mut [u8], at: usize, answer: &Answer) -> Result<usize, NoRoom>
    ensures { WritesLine out.old at (answer_line answer.now) out.new (result_ok result) }
{
    check_room(out, at)?;
    Ok(put_answer(out, at, *answer))
}

/// Writes a fault's line as `write_answer` writes an answer's.
pub fn write_fault(out: &mut [u8], at: usize, fault: &PlayerFault) -> Result<usize, NoRoom>
    ensures { WritesLine out.old at (fault_line fault.now) out.new (result_ok result) }
{
    check_room(out, at)?;
    Ok(put_fault(out, at, *fault))
}
