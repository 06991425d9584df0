//! The law of talks.

ghost use Rattle.model.specs.TalkLaws.{ServiceNeverWaits};

/// No line of the service waits.
pub fn service_never_waits()
    ensures { ServiceNeverWaits }
{}
