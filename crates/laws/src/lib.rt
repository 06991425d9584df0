//! The laws that the definitions of the store keep.
//!
//! Each is a function with an empty body, whose contract is proved; what calls it, knows it.
#![tactic(auto)]

mod closures;
mod events;
mod hashing;
mod outlooks;
mod reach;
mod settling;
mod talk;

pub use closures::closures_are_whole;
pub use events::{
    goals_have_derivations, isolation, kept_closures_are_good, knowledge_is_admitted,
    knowledge_is_recursive, never_fails, only_plans_change_kept, planned_goals_keep,
    plans_find_derivations, queries_change_nothing, striking_hashes_no_more, timed_isolation,
    trust_follows,
};
pub use hashing::{each_new_value_is_named, each_text_names_a_value, other_refusals_hash_nothing};
pub use outlooks::outlooks_foretell_plans;
pub use reach::reach_is_least;
pub use settling::{putting_is_by_map, settling_is_by_set};
pub use talk::service_never_waits;
