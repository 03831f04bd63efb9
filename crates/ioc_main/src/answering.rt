//! Answers the lines of a script.
ghost use Rattle.std.specs.Prelude.{◌≡◌, ◌≤◌, ◌+◌, ◌++◌, [], codes, false, length, IfOk};
ghost use Rattle.rec_types.specs.Record.{record_rules};
ghost use Rattle.ioc_sim.specs.SeenMachine.{machine_of};
ghost use Rattle.ioc_main.specs.Replay.{attended, ended_told};
ghost use Rattle.ioc_commands.specs.Commands.{command_of, is_silent, put_of, before, behind};
ghost use Rattle.ioc_commands.specs.Seen.{seen};
ghost use Rattle.ioc_commands.specs.declared.command.Command.TheVariants.{Sets};
ghost use Rattle.ioc_main.specs.Doing.{effect_on, Adds, Does, DoesAtLength};

use crate::ended_line;
use crate::replay::Replay;
use crate::session::{PendingOutput, Replies, Session};
use ioc_commands::{Command, split_before, words_of_put};
use ioc_device::Answer;
use ioc_values::Finished;
use std::alloc::AllocError;

// Appends the reply to a line that isn't a valid command.
fn say_bad(replies: &mut Replies)
    requires { length replies.old + 256 ≤ 4096 }
    ensures { replies.new ≡ replies.old ++ codes "bad\n" }
{
    replies.extend(b"bad\n");
}

impl Replay {
    // Carries out a command and appends its reply, if it fits among the replies. The reply to
    // `sets` is too long.
    #[tactic(auto, unfolding(crate::specs::Replay::carried_out))]
    fn reply_to(&mut self, command: &Command<'_>, replies: &mut Replies) -> Result<(), AllocError>
        requires room { length replies.old + 256 ≤ 4096 }
        requires short { command.now ≡ Sets → ⊥ }
        ensures does { Does (effect_on self.old (seen command.now)) result self.old self.new replies.old replies.new }
    {
        match *command {
            Command::Silent | Command::Sets => Ok(()),
            Command::Bad => {
                say_bad(replies);
                Ok(())
            }
            Command::Process(record) => self.process(record, replies),
            Command::Put(record, field, text) => self.put(record, field, text, replies),
            Command::Get(record, field) => {
                self.get(record, field, replies);
                Ok(())
            }
            Command::At(moment) => {
                self.begin_at(moment, replies);
                Ok(())
            }
            Command::NextDone(record, text) => self.queue_done(record, text, replies),
            Command::NextFault(record) => self.queue(record, Answer::Fault, replies),
            Command::NextLater(record) => self.queue(record, Answer::Later, replies),
            Command::Done(record, wait, text) => self.complete_done(record, wait, text, replies),
            Command::Fault(record, wait) => self.complete(record, wait, Finished::Fault, replies),
            Command::Event(name) => self.post(name, replies),
            Command::Interrupt(word) => self.interrupt(word, replies),
            Command::Scan(period) => self.scan(&period, replies),
            Command::Link(record, field, text) => self.link(record, field, text, replies),
            Command::Tally => {
                self.tally(replies);
                Ok(())
            }
            Command::Notify(record, field, text) => self.notify(record, field, text, replies),
            Command::Cancel(number) => self.cancel(number, replies),
        }
    }

    // Carries out a command and appends its reply.
    #[tactic(auto, unfolding(crate::specs::Replay::carried_out), using(crate::proofs::Getting::replies_behind))]
    fn carry_out(
        &mut self,
        command: &Command<'_>,
        said: &mut PendingOutput,
    ) -> Result<(), AllocError>
        requires room { length said.old.replies + 256 ≤ 4096 }
        requires none { said.old.more.items ≡ [] }
        ensures { DoesAtLength (effect_on self.old (seen command.now)) result self.old self.new said.old said.new }
    {
        match command {
            Command::Sets => self.sets(&mut said.more),
            _ => self.reply_to(command, &mut said.replies),
        }
    }

    // Makes the put of the words behind `put`, without creating a command, which is as large as its
    // largest variant.
    #[inline(always)]
    #[tactic(auto, unfolding(crate::specs::Replay::carried_out))]
    fn put_words(&mut self, words: &[u8], replies: &mut Replies) -> Result<(), AllocError>
        requires { length replies.old + 256 ≤ 4096 }
        ensures { Does (effect_on self.old (put_of false (before 32 words.now) (behind 32 words.now))) result self.old self.new
            replies.old replies.new }
    {
        let (word, rest) = split_before(words, b' ');
        let (record, named) = split_before(word, b'.');
        match (named, rest) {
            ([], _) => {
                say_bad(replies);
                Ok(())
            }
            ([_, field @ ..], []) => self.put(record, field, b"", replies),
            ([_, field @ ..], [_, text @ ..]) => self.put(record, field, text, replies),
        }
    }

    // Carries out a line of any kind, and returns whether nothing is printed for it. Not inlined,
    // so that nothing is cleared for it if the line is a put.
    #[inline(never)]
    fn do_any(&mut self, line: &[u8], said: &mut PendingOutput) -> Result<bool, AllocError>
        requires room { length said.old.replies + 256 ≤ 4096 }
        requires none { said.old.more.items ≡ [] }
        ensures silent { IfOk result (λ silent. silent ≡ is_silent (command_of line.now)) }
        ensures does { DoesAtLength (effect_on self.old (command_of line.now)) result self.old self.new said.old said.new }
    {
        let command = Command::from_line(line);
        self.carry_out(&command, said)?;
        Ok(command.is_silent())
    }

    // Carries out a line, and returns whether nothing is printed for it. A put is recognized by its
    // first bytes, because most lines with a value are puts.
    #[inline(always)]
    #[tactic(auto, using(crate::proofs::Telling::put_speaks, crate::proofs::Getting::replies_behind))]
    fn do_line(&mut self, line: &[u8], said: &mut PendingOutput) -> Result<bool, AllocError>
        requires room { length said.old.replies + 256 ≤ 4096 }
        requires none { said.old.more.items ≡ [] }
        ensures silent { IfOk result (λ silent. silent ≡ is_silent (command_of line.now)) }
        ensures does { DoesAtLength (effect_on self.old (command_of line.now)) result self.old self.new said.old said.new }
    {
        match words_of_put(line) {
            Some(words) => {
                self.put_words(words, &mut said.replies)?;
                Ok(false)
            }
            None => self.do_any(line, said),
        }
    }

    // Appends a line for each put with notification that has ended, and forgets them. Not inlined,
    // because after most lines none has.
    #[inline(never)]
    fn tell_each_ended(&mut self, more: &mut Vec<u8>) -> Result<(), AllocError>
        ensures { Adds (ended_told (machine_of self.old.machine)) result self.old self.new more.old.items more.new.items }
    {
        let mut rest = self.machine.ended();
        while let [number, others @ ..] = rest {
            more.extend_from_slice(ended_line(*number).as_slice())?;
            rest = others;
        }
        self.machine.forget_ended();
        Ok(())
    }

    // Appends a line for each put with notification that has ended, if any has.
    fn tell_ended(&mut self, more: &mut Vec<u8>) -> Result<(), AllocError>
        ensures { Adds (ended_told (machine_of self.old.machine)) result self.old self.new more.old.items more.new.items }
    {
        if self.machine.ended().is_empty() {
            return Ok(());
        }
        self.tell_each_ended(more)
    }

    // Serves the waiting requests, and appends a line for each put with notification that has
    // ended.
    #[inline(always)]
    #[tactic(auto, unfolding(crate::specs::Replay::attended))]
    fn attend(&mut self, more: &mut Vec<u8>) -> Result<(), AllocError>
        ensures { Adds (attended record_rules (machine_of self.old.machine)) result self.old self.new more.old.items
            more.new.items }
    {
        self.machine.serve()?;
        self.tell_ended(more)
    }
}

impl Session for Replay {
    ghost use Rattle.std.specs.Prelude.{⊤};
    ghost use Rattle.ioc_main.specs.ReplayLaws.{no-lines, long-lines, printed};

    ghost transcript = { printed };

    ghost is_determined = { λ _. ⊤ };

    ghost no_lines = { no-lines };

    ghost long_lines = { long-lines };

    /// Answers a line, then serves the waiting requests, and reports the puts with notification
    /// that have ended since.
    #[tactic(auto, unfolding(crate::specs::Replay::answered))]
    fn answer(&mut self, line: &[u8], said: &mut PendingOutput) -> Result<(), AllocError> {
        let silent = self.do_line(line, said)?;
        if !silent {
            self.attend(&mut said.more)?;
        }
        Ok(())
    }

    fn may_write(&mut self) -> bool {
        true
    }

    fn before_read(&mut self) -> Option<&'static [u8]> {
        None
    }

    fn has_ended(&self) -> bool {
        false
    }
}
