//! A file that is read in pieces.

ghost use Rattle.std.specs.Prelude.{◌≡◌, ◌+◌, ◌^◌, ◌≤◌, ◌<◌, ◌↔◌, [], ℕ, length, IfOk, IsErrOf, IsTrue, MatchOption, Ok, false};
ghost use Rattle.model.specs.Lines.{cut_at};
ghost use Rattle.journal.specs.LogFile.{IsOnlyRead, HasFailed};

use crate::cutting::cut;
use crate::log_file::{LogError, LogFile};
use crate::window::Window;
use std::alloc::Global;

/// So many bytes are read at once.
const PIECE: usize = 1 << 16;

/// A file, of which the bytes up to a place were taken.
#[derive(Drop)]
pub struct Pieces<D: LogFile> {
    alloc: Global,
    /// The file.
    pub(crate) file: D,
    /// What is at hand of it.
    pub(crate) window: Window,
}

impl<D: LogFile> Pieces<D> {
    ghost use Rattle.journal.specs.Windows.{at_hand};
    ghost use Rattle.journal.specs.Pieces.{rest_of, IsAhead};

    /// A file of which nothing was taken.
    pub(crate) fn new(alloc: Global, file: D) -> Pieces<D>
        ensures file { result.file ≡ file }
        ensures place { result.window.place ≡ 0 }
        ensures ahead { at_hand result.window ≡ [] }
    {
        Pieces {
            alloc,
            file,
            window: Window::new(alloc),
        }
    }

    /// The file.
    pub(crate) fn into_file(self) -> D
        ensures { result ≡ self.file }
    {
        let Pieces {
            alloc: _,
            file,
            window: _,
        } = self;
        file
    }

    /// Reads on if nothing is at hand, and says whether something is.
    fn fill(&mut self) -> Result<bool, LogError>
        ensures place { self.new.window.place ≡ self.old.window.place }
        ensures more { IfOk result (λ more. IsTrue more ↔ 0 < length (at_hand self.new.window)) }
        ensures ended { result ≡ Ok false → D.is_honest self.new.file → rest_of D.seen self.new ≡ [] }
        ensures ahead { D.is_honest self.new.file → IsAhead D.seen self.old → IsAhead D.seen self.new }
        ensures file { IsOnlyRead D.seen D.may_leave D.moment D.left_since self.old.file self.new.file }
        ensures honest { D.is_honest self.new.file → D.is_honest self.old.file }
        ensures failed { IsErrOf result LogError.Failed → HasFailed (D.faults self.old.file) (D.faults self.new.file) }
        ensures later { D.faults self.old.file ≤ D.faults self.new.file }
        ensures full { IsErrOf result LogError.Full → 2 ^ 62 < self.new.window.place }
    {
        if !self.window.at_hand().is_empty() {
            return Ok(true);
        }
        let piece = self.file.read(self.alloc, self.window.place, PIECE)?;
        let more = !piece.is_empty();
        self.window.fill(piece)?;
        Ok(more)
    }

    /// Takes the next line, which ends with a newline; `None` where there is no newline more.
    pub(crate) fn line(&mut self) -> Result<Option<Vec<u8>>, LogError>
        requires { D.is_honest self.old.file → IsAhead D.seen self.old }

        ensures line { IfOk result (λ line. D.is_honest self.new.file → MatchOption line
            (cut_at 10 (rest_of D.seen self.old) ≡ None)
            (λ line. cut_at 10 (rest_of D.seen self.old) ≡ Some (line.items, rest_of D.seen self.new))) }
        ensures place { IfOk result (λ line. MatchOption line (Unit {0})
            (λ line. self.new.window.place ≡ self.old.window.place + length line.items + 1)) }
        ensures ahead { D.is_honest self.new.file → IsAhead D.seen self.new }
        ensures file { IsOnlyRead D.seen D.may_leave D.moment D.left_since self.old.file self.new.file }
        ensures honest { D.is_honest self.new.file → D.is_honest self.old.file }
        ensures failed { IsErrOf result LogError.Failed → HasFailed (D.faults self.old.file) (D.faults self.new.file) }
        ensures later { D.faults self.old.file ≤ D.faults self.new.file }
        ensures full { IsErrOf result LogError.Full → 2 ^ 62 < self.new.window.place }
    {
        let mut line = Vec::new(self.alloc);
        while self.fill()? {
            let ahead = self.window.at_hand();
            let count = match cut(b'\n', ahead) {
                Some((last, _)) => {
                    line.extend_from_slice(last)?;
                    let count = last.len() + 1;
                    self.window.take(count);
                    return Ok(Some(line));
                }
                None => ahead.len(),
            };
            line.extend_from_slice(ahead)?;
            self.window.take(count);
        }
        Ok(None)
    }
}
