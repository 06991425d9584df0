//! Stores of users, and the events of an empty file.

ghost use Rattle.std.specs.Prelude.{◌≡◌, [], IfOk};
ghost use Rattle.model.specs.Worlds.{nothing};
ghost use Rattle.schedule.specs.Standing.{world_of, stored_in};

use crate::answer::Answer;
use crate::text::with_newlines;
use model::Refusal;
use nar::Tree;
use schedule::{Core, Event, LARGEST_CHARGE, Limits, Reply, Request, User};
use session::{Ahead, Mode, read_ahead};
use std::alloc::Global;
use std::hash::RandomState;
use storepath::{Name, read_path};
use tree_text::tree_text;

/// The path of an empty file named `a`.
const PATH: &[u8] = b"/nix/store/w996igw5fhzp5pmk8g9bfv99is99b0ap-a";

/// The event by which a user adds that file.
pub fn adding(alloc: Global, user: &[u8]) -> Result<Event, Refusal> {
    Ok(Event {
        actor: User::new(alloc, user)?,
        request: Request::AddSource(Name::new(alloc, b"a")?, Tree::file(false, Vec::new(alloc))?),
    })
}

/// The event by which a user fetches its path.
pub fn fetching(alloc: Global, user: &[u8]) -> Result<Event, Refusal> {
    Ok(Event {
        actor: User::new(alloc, user)?,
        request: Request::Fetch(read_path(alloc, PATH)?),
    })
}

/// A store of these users, with the largest charge.
pub fn store_of(alloc: Global, hashing: RandomState, users: Vec<User>) -> Result<Core, Refusal>
    ensures { IfOk result (λ core. (world_of core ≡ nothing) × (stored_in core ≡ [])) }
{
    let limits = Limits {
        charge: LARGEST_CHARGE,
    };
    Core::new(alloc, hashing, users, limits)
}

/// Users of these names, each as a copy.
pub fn users_of(alloc: Global, names: &str) -> Result<Vec<User>, Refusal> {
    let mut users = Vec::new(alloc);
    for name in names.split_whitespace() {
        users.push(copied_user(alloc, name)?)?;
    }
    Ok(users)
}

/// A copy of a user of this name.
fn copied_user(alloc: Global, name: &str) -> Result<User, Refusal> {
    Ok(User::new(alloc, name.as_bytes())?.clone()?)
}

/// A store of alice and bob.
pub fn new_core(alloc: Global, hashing: RandomState) -> Result<Core, Refusal>
    ensures { IfOk result (λ core. (world_of core ≡ nothing) × (stored_in core ≡ [])) }
{
    store_of(alloc, hashing, users_of(alloc, "alice bob")?)
}

/// The users whom an input names.
pub fn users_in(alloc: Global, input: &[u8]) -> Result<Vec<User>, Refusal> {
    let mut rest = input;
    let Ahead { users, .. } = read_ahead(alloc, Mode::Service, &mut rest)?;
    match users {
        Some(users) => Ok(users),
        None => Err(Refusal::BadUsers),
    }
}

/// A core for the users whom an input names.
pub fn core_for(alloc: Global, hashing: RandomState, input: &str) -> Result<Core, Refusal>
    ensures { IfOk result (λ core. (world_of core ≡ nothing) × (stored_in core ≡ [])) }
{
    let users = users_in(alloc, &with_newlines(alloc, input)?)?;
    store_of(alloc, hashing, users)
}

/// Adds what a reply says, in the words of its line.
pub fn tell(alloc: Global, reply: &Reply, out: &mut Answer) -> Result<(), Refusal> {
    match reply {
        Reply::Path(path) => out.add(path),
        Reply::Tree(tree) => out.add_bytes(&tree_text(alloc, tree)?),
        Reply::Refused(refusal) => out.add(refusal),
        _ => return Err(Refusal::BadLine),
    }
    Ok(())
}
