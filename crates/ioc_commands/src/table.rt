//! The table of commands: how each is written, and what it does.
use crate::verb::Verb;
use std::fmt;

/// A form of a command.
#[derive(Clone, Copy)]
pub struct Form {
    pub verb: Verb,
    /// How a line of this form is written.
    pub line: &'static str,
    /// What it does.
    pub about: &'static str,
    /// How the shell of an IOC has it, which users may write too.
    pub shell: &'static str,
}

/// The forms of all commands, in the order in which help prints them.
pub static FORMS: [Form; 32] = [
    Form {
        verb: Verb::Process,
        line: "process REC",
        about: "requests a record",
        shell: "",
    },
    Form {
        verb: Verb::Put,
        line: "put REC.F TEXT",
        about: "puts a value",
        shell: "dbpf REC.F TEXT",
    },
    Form {
        verb: Verb::Get,
        line: "get REC.F",
        about: "prints a field",
        shell: "dbgf REC.F",
    },
    Form {
        verb: Verb::Notify,
        line: "notify REC.F TEXT",
        about: "puts a value with notification: ended N tells that all is done",
        shell: "",
    },
    Form {
        verb: Verb::Cancel,
        line: "cancel N",
        about: "gives up a put with notification",
        shell: "",
    },
    Form {
        verb: Verb::Event,
        line: "event NAME",
        about: "posts an event",
        shell: "",
    },
    Form {
        verb: Verb::Interrupt,
        line: "io WORD",
        about: "an interrupt of the devices whose link begins with WORD",
        shell: "",
    },
    Form {
        verb: Verb::Scan,
        line: "scan CHOICE",
        about: "requests the records of a period, as: scan 1 second",
        shell: "",
    },
    Form {
        verb: Verb::Link,
        line: "link REC.F TEXT",
        about: "changes a link",
        shell: "",
    },
    Form {
        verb: Verb::Sets,
        line: "sets",
        about: "prints which records are joined by links",
        shell: "",
    },
    Form {
        verb: Verb::At,
        line: "at N",
        about: "the moment of the lines that follow, in nanoseconds",
        shell: "",
    },
    Form {
        verb: Verb::Next,
        line: "next REC done TEXT",
        about: "the device of the record will answer this",
        shell: "",
    },
    Form {
        verb: Verb::Next,
        line: "next REC fault",
        about: "the device of the record will answer a fault",
        shell: "",
    },
    Form {
        verb: Verb::Next,
        line: "next REC later",
        about: "the device of the record will answer later",
        shell: "",
    },
    Form {
        verb: Verb::Done,
        line: "done REC N TEXT",
        about: "the device answers the Nth wait of the record",
        shell: "",
    },
    Form {
        verb: Verb::Fault,
        line: "fault REC N",
        about: "the device answers the Nth wait of the record with a fault",
        shell: "",
    },
    Form {
        verb: Verb::Tally,
        line: "tally",
        about: "prints how many requests had which outcome",
        shell: "",
    },
    Form {
        verb: Verb::Tick,
        line: "tick [N]",
        about: "walks the periods of the next N ticks of a tenth of a second",
        shell: "",
    },
    Form {
        verb: Verb::Checkpoint,
        line: "checkpoint",
        about: "drops the journal's entries from memory",
        shell: "",
    },
    Form {
        verb: Verb::List,
        line: "dbl [TYPE] [PATTERN]",
        about: "prints the names of records; * stands for any text, ? for a byte",
        shell: "",
    },
    Form {
        verb: Verb::Show,
        line: "dbpr REC",
        about: "prints the fields of a record",
        shell: "",
    },
    Form {
        verb: Verb::PutPlaced,
        line: "put# REC.F V",
        about: "for programs: puts a number or an escaped text, and tells the place",
        shell: "",
    },
    Form {
        verb: Verb::NotifyPlaced,
        line: "notify# REC.F V",
        about: "for programs: the same of notify",
        shell: "",
    },
    Form {
        verb: Verb::Read,
        line: "read REC F..",
        about: "for programs: fields at one moment, F# for the number behind one",
        shell: "",
    },
    Form {
        verb: Verb::Records,
        line: "records",
        about: "for programs: a line '- REC TYPE' for each record",
        shell: "",
    },
    Form {
        verb: Verb::Fields,
        line: "fields TYPE",
        about: "for programs: a line '- F KIND' for each field",
        shell: "",
    },
    Form {
        verb: Verb::Choices,
        line: "menu NAME",
        about: "for programs: a line '- N TEXT' for each choice",
        shell: "",
    },
    Form {
        verb: Verb::Watch,
        line: "watch REC.F",
        about: "for programs: a line '! REC.F ..' now and for each change, F# for the number",
        shell: "",
    },
    Form {
        verb: Verb::Unwatch,
        line: "unwatch REC.F",
        about: "for programs: ends the lines of watch REC.F",
        shell: "",
    },
    Form {
        verb: Verb::Status,
        line: "status",
        about: "for programs: a line '- NAME VALUE' for each count of the run",
        shell: "",
    },
    Form {
        verb: Verb::Help,
        line: "help",
        about: "prints these lines",
        shell: "",
    },
    Form {
        verb: Verb::Exit,
        line: "exit",
        about: "ends the console",
        shell: "",
    },
];

/// The forms of the commands with this first word, as a text has them: `A, B or C`.
#[derive(Clone, Copy)]
pub struct FormsOf(pub Verb);

impl fmt::Display for FormsOf {
    fn fmt<W: fmt::Write>(&self, f: &mut fmt::Formatter<W>) -> fmt::Result {
        let mut left = FORMS.iter().filter(|form| form.verb == self.0).count();
        for form in FORMS.iter().filter(|form| form.verb == self.0) {
            f.write_str(form.line)?;
            left = left.saturating_sub(1);
            f.write_str(match left {
                0 => "",
                1 => " or ",
                _ => ", ",
            })?;
        }
        Ok(())
    }
}
