//! What refusals mean.

/// When a refusal comes, and what a user does about it.
#[derive(Clone, Copy)]
pub(crate) struct Meaning {
    /// When it comes.
    pub(crate) when: &'static str,
    /// What a user does about it.
    pub(crate) advice: &'static str,
}

/// What the refusal of a number means, as `docs/refusals.md` says it.
pub(crate) fn meaning_of(number: u8) -> Option<Meaning> {
    let meaning = match number {
        11 => Meaning {
            when: "the user of an event, or the one whom he would trust or distrust, is not one of the run",
            advice: "name him in the `users` line",
        },
        13 => Meaning {
            when: "the desk would have more than 1,024 sources or derivations, 4,096 records or 4,096 pins, or \
                   a charge over the limit; or the user has asked for 65,535 goals. Of a goal that failed: \
                   the desk had no room for what it is built from, or for what was built, now or before; the \
                   other goals of its job do not fail for that",
            advice: "hold less, or run with a larger `--charge`",
        },
        14 => Meaning {
            when: "the list of users has no name or more than 64, an ill-formed name, or a name twice",
            advice: "mend the `users` line; the program ends with status 5",
        },
        21 => Meaning {
            when: "the name of a source is empty, longer than 211, begins with a dot, or has another character \
                   than letters, digits and `+-._?=`",
            advice: "choose another name",
        },
        22 => Meaning {
            when: "a tree's archive is over 64 MiB, a derivation's text is over 1 MiB, or a line is over 256 \
                   MiB",
            advice: "add less at once",
        },
        23 => Meaning {
            when: "a tree text, or an archive, is none: a digit or a name is ill-formed, names do not ascend, \
                   it is deeper than 64, padding is not zero, bytes are left over",
            advice: "mend it; `docs/lines.md` has the form",
        },
        24 => Meaning {
            when: "a path text is none",
            advice: "mend the path",
        },
        25 => Meaning {
            when: "a line has another form, an empty word, a byte outside 32 to 126, an ill-formed user, \
                   number or base 16 behind `n:`, an expansion of a reply without the path that it names, or \
                   stands before the users line; it is `wait` alone, and the program is not `run`; or it has \
                   `plan`, `start`, `finish` or `fail`, and the program is `run`",
            advice: "mend the line",
        },
        31 => Meaning {
            when: "a text is no derivation: a blank between its parts, an order or an escape of its own, a key \
                   or a `name` that is none",
            advice: "mend it; `docs/lines.md` has the form",
        },
        32 => Meaning {
            when: "an input of the derivation, or a source of it, is not on the user's desk",
            advice: "add it first",
        },
        34 => Meaning {
            when: "the rank, which is one more than the greatest of the inputs, would be over 64",
            advice: "make the chain of derivations shorter",
        },
        41 => Meaning {
            when: "the path of the offer, or of what is to be built, is not that of a derivation's file on the \
                   user's desk",
            advice: "add the derivation first",
        },
        42 => Meaning {
            when: "the user has no goal of that number",
            advice: "ask for it with `build`, which tells the number",
        },
        43 => Meaning {
            when: "the goal is not as the event needs it: to be planned it has to wait, to be started it has \
                   to be planned, and to be finished or failed it has to lead a job that runs",
            advice: "ask for its `status`; for a goal that is done or has failed, ask for a new one",
        },
        51 => Meaning {
            when: "nobody whom the user reaches by trust, himself included, has an output of the class, or, \
                   for a plan, of the class of an input",
            advice: "build and offer it, or trust somebody who has one",
        },
        52 => Meaning {
            when: "the output cannot get its path. `InName`: the hash part of its class, or of something that \
                   it may refer to, stands in the name of an entry. `Overlap`: two of them in one string share \
                   bytes. `Accidental`: its new hash part would come to stand where none was put, or an old \
                   one is left. Of a closure or a take, `Accidental`: what is chosen for a class has to refer \
                   to other paths than it does, and their hash parts cannot stand in the place of the old ones \
                   alone: one stands in the tree already, two would swap, or one is its own path. Of a goal \
                   that failed: the same of what it is planned on, or of what was built for it; or, in the \
                   builder, an argument or a variable of the derivation, `Overlap`: the hash parts of two \
                   input classes share bytes",
            advice: "build it so that no name has a hash part; for `Accidental`, change any byte of it. For a \
                     closure, pin a path that is referred to, or build the output anew on what serves its \
                     inputs",
        },
        53 => Meaning {
            when: "the path that is fetched is neither a source's nor an output's on the user's desk; or no \
                   output of the class that is to be forgotten is at that path there",
            advice: "add it himself",
        },
        54 => Meaning {
            when: "the closure would have more than 1,024 entries, classes and sources together; also as the \
                   failure of a goal",
            advice: "build on less at once",
        },
        55 => Meaning {
            when: "what is to be forgotten is needed: another output on the user's desk refers to it by that \
                   class, or a goal of his is built from it, in a job whose leader he reaches",
            advice: "forget first what refers to it, or wait until the goal has ended",
        },
        61 => Meaning {
            when: "a goal's failure: the leader of its job said that the builder failed, or a start, a file or \
                   a pipe that its build needs (builders.md)",
            advice: "mend the derivation, the builder or the folders, and ask for a new goal",
        },
        62 => Meaning {
            when: "a goal's failure: what the builder wrote is no archive, or one of over 64 MiB",
            advice: "mend the builder, and ask for a new goal",
        },
        71 => Meaning {
            when: "the reader failed while a session read; the lines that were read whole are answered, and \
                   their events stand; the program ends with status 3",
            advice: "mend the file, and run it again",
        },
        72 => Meaning {
            when: "the writer failed while a session wrote; what is written is a beginning of the text; the \
                   program ends with status 3",
            advice: "make room, and run it again",
        },
        90 => Meaning {
            when: "memory was refused; nothing changed that is told to anybody. Where there was none to \
                   publish what the event changed, the store is stopped besides: each later event is answered \
                   92. An event that takes no memory itself (events.md names them) is told 90 only where there \
                   was none for its row in the history, or to publish it. As the end of a session it is told \
                   only where the writer's count of failures shows none, and not where a line of users was \
                   refused and its text is written: that end is 14, or 72 where the text could not be shown. \
                   As the reply to a `wait` it may leave a goal `building`, where memory was refused before \
                   its builder was started, or for the end of its job: nothing ends its job in this run, and a \
                   goal for the same enters it.",
            advice: "try again with more memory; where a `wait` was answered so, run the file again",
        },
        91 => Meaning {
            when: "another tree is stored at the path, so that two texts have one folded digest; nothing \
                   changed. At the end of a job it is told where this is so of any tree that is settled for \
                   its goals, or where two of them that differ come to one path, and no goal has ended then",
            advice: "report it: it is news",
        },
        92 => Meaning {
            when: "the store was stopped by an earlier event, which was answered 90: memory was refused to \
                   publish what it changed. From then on each event is answered so, but for `status`, \
                   `closure` and `fetch`, which are answered as before that event",
            advice: "run the file again, with more memory",
        },
        _ => return None,
    };
    Some(meaning)
}
