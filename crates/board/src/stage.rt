//! How far a goal is.

ghost use Rattle.std.specs.Prelude.{◌≡◌, ◌<◌};
ghost use Rattle.model.specs.Limits.{most_users};
ghost use Rattle.board.specs.Stages.{is_moving, is_filed, is_looked, is_working, is_woken_of, is_begun_of, waits_on, gives, hangs_on};

use trust::{UserSet, has_place};

/// How far a goal is. It is at one stage only.
#[derive(Clone, Copy)]
pub enum Stage {
    /// Its session is to look how it may go on.
    Woken,
    /// Its session looks.
    Looked,
    /// It can be built, and waits for a builder.
    Ready,
    /// A builder was given to it: it is in the queue of its session, or a worker has it.
    Working,
    /// It waits for the topic of this number: a class that it lacks, or the job in which it is built.
    Waits(usize),
    /// Nothing more comes of it here.
    Over,
}

/// A goal as it comes on the board.
#[derive(Clone, Copy)]
pub struct Asked {
    /// The place of its user, below 64.
    pub user: usize,
    /// Its number among the goals of its user.
    pub number: u64,
    /// The seat of its session.
    pub seat: usize,
    /// The topic of the class that it builds.
    pub class: usize,
    /// The topic of the job that it leads, where it leads one.
    pub job: usize,
    /// Whom its user reaches.
    pub reached: UserSet,
}

/// A goal of a user, asked for by a session.
#[derive(Clone, Copy)]
pub struct Goal {
    /// The place of its user, below 64.
    pub user: usize,
    /// Its number among the goals of its user.
    pub number: u64,
    /// The seat of its session.
    pub seat: usize,
    /// The topic of the class that it builds.
    pub class: usize,
    /// The topic of the job that it leads, where it leads one.
    pub job: usize,
    /// Whom its user reached when his session looked last.
    pub reached: UserSet,
    /// How far it is.
    pub stage: Stage,
    /// How many arrivals there had been when its session began to look.
    pub since: u64,
}

impl Stage {
    /// Whether something is done for a goal at this stage, or is to be done.
    pub fn is_moving(&self) -> bool
        ensures { result ≡ is_moving self.now }
    {
        !matches!(self, Stage::Waits(_) | Stage::Over)
    }

    /// Whether a goal at this stage is looked at.
    pub fn is_looked(&self) -> bool
        ensures { result ≡ is_looked self.now }
    {
        matches!(self, Stage::Looked)
    }

    /// Whether a goal at this stage has a builder.
    pub fn is_working(&self) -> bool
        ensures { result ≡ is_working self.now }
    {
        matches!(self, Stage::Working)
    }

    /// Whether a goal at this stage waits for a topic, whichever.
    pub fn is_waiting(&self) -> bool
        ensures { result ≡ is_filed self.now }
    {
        matches!(self, Stage::Waits(_))
    }

    /// Whether a goal at this stage waits for a topic.
    pub fn waits_on(&self, topic: usize) -> bool
        ensures { result ≡ waits_on topic self.now }
    {
        match self {
            Stage::Waits(other) => *other == topic,
            _ => false,
        }
    }
}

impl Goal {
    /// Whether it is one of a session, and is to be looked at.
    pub fn is_woken_of(&self, seat: usize) -> bool
        ensures { result ≡ is_woken_of seat self.now }
    {
        matches!(&self.stage, Stage::Woken) && self.seat == seat
    }

    /// Whether it is one of a session, and is looked at, or can be built.
    pub fn is_begun_of(&self, seat: usize) -> bool
        ensures { result ≡ is_begun_of seat self.now }
    {
        matches!(&self.stage, Stage::Looked | Stage::Ready) && self.seat == seat
    }

    /// Whether it builds the class of a topic, or leads its job.
    pub fn gives(&self, topic: usize) -> bool
        ensures { result ≡ gives topic self.now }
    {
        self.job == topic || self.class == topic
    }

    /// Whether it waits for the job that another leads, or for the class that another builds whose user its own
    /// reaches.
    pub fn hangs_on(&self, other: &Goal) -> bool
        requires { other.now.user < most_users }
        ensures { result ≡ hangs_on self.now other.now }
    {
        let Stage::Waits(topic) = self.stage else {
            return false;
        };
        other.job == topic || (other.class == topic && has_place(self.reached, other.user))
    }
}
