//! The lines of a trace.
use ioc_alarms::Alarms;
use ioc_dbcommon::Got;
use ioc_device::{Answer, Ask};
use ioc_ledger::Outcome;
use ioc_menus::{Menu, Severity, Status, text};
use ioc_values::{ByteBuffer, Finished, Name, Value, exact_double_text};
use itoa::Buffer;

/// A line of a trace, without its line feed. A longer one is cut.
pub type Line = ByteBuffer<512>;

// How many times a line is indented at most, however many requests are open.
const MAX_DEPTH: usize = 32;

/// Begins a line of what a record does while this many requests are open. It is indented once more,
/// as no reply is.
pub fn begin_line(open: usize, record: &Name) -> Line {
    let mut line = Line::new();
    for _ in 0..open.saturating_add(1).min(MAX_DEPTH) {
        line.extend_cut(b"  ");
    }
    line.extend_cut(record.as_slice());
    line.extend_cut(b": ");
    line
}

fn add_number(line: &mut Line, number: i64) {
    line.extend_cut(Buffer::new().format(number).as_bytes());
}

/// Appends a value: a number, a double with all its digits, or a text as it is.
pub fn add_value(line: &mut Line, value: &Value) {
    match value {
        Value::Text(text) => line.extend_cut(text.as_slice()),
        Value::Double(number) => line.extend_cut(exact_double_text(*number).as_slice()),
        _ => add_number(line, value.number().unwrap_or(0)),
    }
}

/// Appends what has come through a link.
pub fn add_got(line: &mut Line, got: &Got) {
    match got {
        Got::Value(value) => add_value(line, value),
        Got::Fault | Got::Nothing => line.extend_cut(b"fault"),
    }
}

/// Appends what a device has answered late.
pub fn add_finished(line: &mut Line, finished: &Finished) {
    match finished {
        Finished::Done(value) => add_value(line, value),
        Finished::Fault => line.extend_cut(b"fault"),
    }
}

/// Appends what a device is asked.
pub fn add_ask(line: &mut Line, ask: &Ask) {
    match ask {
        Ask::Read => line.extend_cut(b"device read"),
        Ask::Write(value) => {
            line.extend_cut(b"device write ");
            add_value(line, value);
        }
    }
}

/// Appends what a device answers to this.
pub fn add_answer(line: &mut Line, ask: &Ask, answer: &Answer) {
    match (ask, answer) {
        (Ask::Read, Answer::Done(value)) => add_value(line, value),
        (Ask::Write(_), Answer::Done(_)) => line.extend_cut(b"done"),
        (_, Answer::Fault) => line.extend_cut(b"fault"),
        (_, Answer::Later) => line.extend_cut(b"later"),
    }
}

/// Appends an alarm.
pub fn add_alarm(line: &mut Line, status: Status, severity: Severity) {
    line.extend_cut(text(Menu::Status, status.number()).unwrap_or("").as_bytes());
    line.extend_cut(b" ");
    line.extend_cut(
        text(Menu::Severity, severity.number())
            .unwrap_or("")
            .as_bytes(),
    );
}

/// The alarm that a record shows.
#[derive(Clone, Copy, PartialEq, Eq)]
pub struct ShownAlarm {
    pub status: Status,
    pub severity: Severity,
}

impl ShownAlarm {
    /// Returns the alarm that is shown.
    pub fn now(alarms: &Alarms) -> Self {
        ShownAlarm {
            status: alarms.status,
            severity: alarms.severity,
        }
    }

    /// Returns the alarm that is shown once the raised one is.
    pub fn raised(alarms: &Alarms) -> Self {
        ShownAlarm {
            status: alarms.new_status,
            severity: alarms.new_severity,
        }
    }

    /// Appends a change of this alarm to another one.
    pub fn add_change(self, line: &mut Line, after: Self) {
        line.extend_cut(b"alarm ");
        add_alarm(line, self.status, self.severity);
        line.extend_cut(b" -> ");
        add_alarm(line, after.status, after.severity);
    }
}

/// Returns the word for an outcome.
pub fn word_of(outcome: Outcome) -> &'static [u8] {
    match outcome {
        Outcome::Processed => b"processed",
        Outcome::Disabled => b"disabled",
        Outcome::Active => b"active",
        Outcome::Reprocess => b"reprocess",
    }
}
