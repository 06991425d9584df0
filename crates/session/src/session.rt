//! Sessions, a line at a time.

ghost use Rattle.std.specs.Prelude.{◌≡◌, ℕ, List, length, IfOk, IfErr, OnOk, OnErr};
ghost use Rattle.model.specs.declared.refusal.Refusal.TheVariants.{Memory};
ghost use Rattle.model.specs.Talk.{Silent, Names, Refuses, fresh, parsed_of, GetsNext, is_bad_users, with_asked};
ghost use Rattle.lines.specs.declared.line.Reading.TheVariants as readings;
ghost use Rattle.lines.specs.Reading.{Becomes, IsRowOf};
ghost use Rattle.session.specs.Serving.{Link, Gives, GivesRow, StopsAt};

use crate::answer::Answer;
use crate::asking::{ask, wait};
use events::{Event, GoalId, Reply};
use lines::{LineResult, Printed, Reading, printed_answer, read_line};
use model::{Mode, Refusal};
use std::alloc::{AllocError, Global};
use std::marker::Model;

/// What is kept of the lines so far.
pub struct Session {
    mode: Mode,
    begun: bool,
    refused: bool,
    told: Vec<LineResult>,
    /// The goals that the lines got, each named as the job that it would lead.
    goals: Vec<GoalId>,
}

impl Drop for Session {
    fn drop(self) {
        let Session {
            mode: _,
            begun: _,
            refused: _,
            told: _,
            goals: _,
        } = self;
    }
}

impl Model for Session {
    ghost use Rattle.model.specs.Talk.{Seen};

    ghost Value = { Seen };

    ghost view = { λ s. record { mode = s.mode; begun = s.begun; refused = s.refused; told = s.told.items; goals = s.goals.items } };
}

impl Session {
    /// A session that has had no line. It takes no memory.
    pub fn new(alloc: Global, mode: Mode) -> Session
        ensures { result ≡ fresh mode }
    {
        Session {
            mode,
            begun: false,
            refused: false,
            told: Vec::new(alloc),
            goals: Vec::new(alloc),
        }
    }

    /// Whether a line of users was answered `ok`.
    pub fn has_users(&self) -> bool
        ensures { result ≡ self.now.begun }
    {
        self.begun
    }

    /// Whether a line of users was refused, which ends [`serve`](crate::serve): no line comes after it.
    pub fn is_refused(&self) -> bool
        ensures { result ≡ self.now.refused }
    {
        self.refused
    }

    /// How many lines it has had, which is the number of the last of them.
    pub fn line_count(&self) -> usize
        ensures { result ≡ length self.now.told }
    {
        self.told.len()
    }

    /// What the next line comes to, which is given without its newline. [`Session::answer`] answers it by that.
    ///
    /// # Errors
    ///
    /// - `Memory` only where memory was refused.
    pub fn read(&self, alloc: Global, line: &[u8]) -> Result<Reading, Refusal>
        ensures read { IfOk result (Becomes (parsed_of self.now line.now)) }
        ensures memory { IfErr result (λ why. why ≡ Memory) }
    {
        read_line(alloc, self.mode, self.begun, self.told.as_slice(), line)
    }

    /// Answers the next line, by what it comes to, and gives what is printed for it.
    ///
    /// # Errors
    ///
    /// - `Memory` as [`Session::line`] has it.
    pub fn answer<A: Answer>(
        &mut self,
        alloc: Global,
        reading: Reading,
        answer: &mut A,
    ) -> Result<Printed, Refusal>
        ensures ok { IfOk result (λ text. Gives (IsRowOf self.old.goals reading)
            (Link A.answers A.waited) self.old self.new answer.old answer.new text) }
        ensures memory { IfErr result (λ why. why ≡ Memory) }
        ensures err { OnErr result
            (StopsAt (IsRowOf self.old.goals reading) (Link A.answers A.waited) answer.old answer.new) }
    {
        match reading {
            Reading::Silent => self.pass_over(alloc),
            Reading::Names(_users) => self.begin(alloc),
            Reading::Refuses(why) => self.refuse(alloc, why),
            Reading::Asks(event) => self.ask(alloc, event, answer),
            Reading::Waits => self.wait(alloc, answer),
        }
    }

    /// Answers a line for which nothing is printed.
    fn pass_over(&mut self, alloc: Global) -> Result<Printed, Refusal>
        ensures ok { IfOk result (λ text. GivesRow Silent self.old self.new text) }
        ensures memory { IfErr result (λ why. why ≡ Memory) }
    {
        self.told.push(LineResult::nothing())?;
        Ok(Printed::nothing(alloc))
    }

    /// Answers the line that names the users, whoever they are.
    fn begin(&mut self, alloc: Global) -> Result<Printed, Refusal>
        ensures ok { IfOk result (λ text. (users : List (List ℕ))
            → GivesRow (Names users) self.old self.new text) }
        ensures memory { IfErr result (λ why. why ≡ Memory) }
    {
        let number = self.told.len() + 1;
        self.told.push(LineResult::nothing())?;
        self.begun = true;
        printed_answer(alloc, number, b"-", &Reply::Ok)
    }

    /// Answers a line that is refused.
    fn refuse(&mut self, alloc: Global, why: Refusal) -> Result<Printed, Refusal>
        ensures ok { IfOk result (λ text. GivesRow (Refuses why) self.old self.new text) }
        ensures memory { IfErr result (λ why. why ≡ Memory) }
    {
        let number = self.told.len() + 1;
        self.told.push(LineResult::nothing())?;
        self.refused = is_bad_users(why) | self.refused;
        printed_answer(alloc, number, b"-", &Reply::Refused(why))
    }

    /// Answers a line that makes this event.
    fn ask<A: Answer>(
        &mut self,
        alloc: Global,
        event: Event,
        answer: &mut A,
    ) -> Result<Printed, Refusal>
        ensures ok { IfOk result (λ text. Gives (IsRowOf self.old.goals (readings.Asks event))
            (Link A.answers A.waited) self.old self.new answer.old answer.new text) }
        ensures memory { IfErr result (λ why. why ≡ Memory) }
        ensures err { OnErr result (StopsAt (IsRowOf self.old.goals (readings.Asks event))
            (Link A.answers A.waited) answer.old answer.new) }
    {
        let answered = ask(alloc, self.told.len() + 1, event, answer)?;
        self.told.push(answered.told)?;
        add_goal(&mut self.goals, answered.goal)?;
        Ok(answered.text)
    }

    /// Answers a line that waits for the goals so far.
    fn wait<A: Answer>(&mut self, alloc: Global, answer: &mut A) -> Result<Printed, Refusal>
        ensures ok { IfOk result (λ text. Gives (IsRowOf self.old.goals readings.Waits)
            (Link A.answers A.waited) self.old self.new answer.old answer.new text) }
        ensures memory { IfErr result (λ why. why ≡ Memory) }
        ensures err { OnErr result (StopsAt (IsRowOf self.old.goals readings.Waits)
            (Link A.answers A.waited) answer.old answer.new) }
    {
        let text = wait(alloc, self.told.len() + 1, self.goals.as_slice(), answer)?;
        self.told.push(LineResult::nothing())?;
        Ok(text)
    }

    /// Answers the next line, which is given without its newline, and gives what is printed for it:
    /// nothing for an empty line and for a comment.
    ///
    /// # Errors
    ///
    /// - `Memory` only where memory was refused. After it the line's event may have been answered, or its
    ///   wait have ended, and nothing is said of later lines.
    pub fn line<A: Answer>(
        &mut self,
        alloc: Global,
        line: &[u8],
        answer: &mut A,
    ) -> Result<Printed, Refusal>
        ensures ok { IfOk result (λ text. Gives (GetsNext self.old line.now)
            (Link A.answers A.waited) self.old self.new answer.old answer.new text) }
        ensures memory { IfErr result (λ why. why ≡ Memory) }
        ensures err { OnErr result (StopsAt (GetsNext self.old line.now)
            (Link A.answers A.waited) answer.old answer.new) }
    {
        let reading = self.read(alloc, line)?;
        self.answer(alloc, reading, answer)
    }
}

/// Adds the goal that a reply gave, if it gave one.
fn add_goal(goals: &mut Vec<GoalId>, goal: Option<GoalId>) -> Result<(), AllocError>
    ensures { OnOk result (goals.new.items ≡ with_asked goals.old.items goal) }
{
    match goal {
        Some(goal) => Ok(goals.push(goal)?),
        None => Ok(()),
    }
}

fn is_bad_users(why: Refusal) -> bool
    ensures { result ≡ is_bad_users why }
{
    matches!(why, Refusal::BadUsers)
}
